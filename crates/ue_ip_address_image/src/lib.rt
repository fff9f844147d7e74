// The UE IP Address in a record image.
#![tactic(auto)]

ghost use Rattle.std.specs.Prelude.{◌≡◌, true, false, ◌||◌, ◌++◌, get_or};
ghost use Rattle.answer.specs.declared.Answer.TheVariants.{Done};
ghost use Rattle.answer.specs.Paper.{number_of};
ghost use Rattle.octets.specs.Octets.{pick, bit, put};
ghost use Rattle.image.specs.Image.{head, read_number, read_image, long_enough, write_number, write_output, write_report};
ghost use Rattle.ue_ip_address.specs.UeIpAddress.{breaks_rule1, broken_rule, read};
ghost use Rattle.ue_ip_address_image.specs.UeIpAddressImage.{size, record_image, image_of, record_at, writes, stores};

use answer::Answer;
use kind::Payload;
use ue_ip_address::UeIpAddress;

// Where each field of an image stands, and how long an image is.
const FLAGS: usize = image::HEAD;

const GIVEN: usize = FLAGS + 1;

const BITS: usize = GIVEN + 1;

const PREFIX: usize = BITS + 1;

const IPV4: usize = PREFIX + 1;

const IPV6: usize = IPV4 + 4;

pub const SIZE: usize = IPV6 + 16;

// Puts the image of a read that is done, from the back to the front. The test tells the compiler that there is room, so that no put
// tests it again.
fn put_image(out: &mut [u8], used: usize, record: UeIpAddress)
    ensures { out.new ≡ put out.old 0 (head Done used ++ record_image «record») }
{
    if out.len() < SIZE {
        return;
    }
    let given = octets::flag_byte(
        record.ipv4_address.is_some(),
        record.ipv6_address.is_some(),
        record.ipv6_prefix_delegation_bits.is_some(),
        record.ipv6_prefix_length.is_some(),
        false,
        false,
        false,
        false,
    );
    let flags = octets::flag_byte(
        record.v6,
        record.v4,
        record.source_destination,
        record.ipv6_prefix_delegation,
        record.choose_ipv4,
        record.choose_ipv6,
        record.ipv6_prefix_length_present,
        false,
    );
    image::put_address(out, IPV6, record.ipv6_address);
    image::put_address(out, IPV4, record.ipv4_address);
    octets::put_byte(out, PREFIX, record.ipv6_prefix_length.unwrap_or(0));
    octets::put_byte(out, BITS, record.ipv6_prefix_delegation_bits.unwrap_or(0));
    octets::put_byte(out, GIVEN, given);
    octets::put_byte(out, FLAGS, flags);
    image::put_head(out, Answer::Done, used);
}

// A read goes straight into the image, without the record and the copies that `UeIpAddress::unmarshal` makes. The flags that say
// which fields follow are passed on as constants where that is quicker: the compiler then knows every place and width.

// The number of the field that is cut behind the addresses: only one follows them.
fn last_field(ipv6d: bool) -> u8
    ensures { result ≡ pick ipv6d 3 4 }
{
    if ipv6d { 3 } else { 4 }
}

// Reads the fields of a payload whose flags break no rule.
fn read_fields(
    payload: Payload<1>,
    image: &mut [u8],
    v4: bool,
    v6: bool,
    ipv6d: bool,
    ip6pl: bool,
) -> u64
    requires unbroken { broken_rule (get_or payload.bytes.now 0 0) ≡ 0 }
    requires v4_of_flags { v4 ≡ bit 1 (get_or payload.bytes.now 0 0) }
    requires v6_of_flags { v6 ≡ bit 0 (get_or payload.bytes.now 0 0) }
    requires ipv6d_of_flags { ipv6d ≡ bit 3 (get_or payload.bytes.now 0 0) }
    requires ip6pl_of_flags { ip6pl ≡ bit 6 (get_or payload.bytes.now 0 0) }
    ensures value { result ≡ number_of (read payload.entry.bytes.now).answer }
    ensures image_after { image.new ≡ put image.old 0 (image_of (read payload.entry.bytes.now)) }
{
    let n = payload.bytes.len();
    let end4 = 1 + octets::if_set(v4, 4);
    if n < end4 {
        return image::put_short(image, SIZE, 1, end4, n);
    }
    let end6 = end4 + octets::if_set(v6, 16);
    if n < end6 {
        return image::put_short(image, SIZE, 2, end6, n);
    }
    let end_bits = end6 + octets::if_set(ipv6d, 1);
    let end = end_bits + octets::if_set(ip6pl, 1);
    if n < end {
        return image::put_short(image, SIZE, last_field(ipv6d), end, n);
    }
    let flags = payload.bytes[0];
    let record = UeIpAddress {
        v4,
        v6,
        source_destination: octets::bit(flags, 2),
        ipv6_prefix_delegation: ipv6d,
        choose_ipv4: octets::bit(flags, 4),
        choose_ipv6: octets::bit(flags, 5),
        ipv6_prefix_length_present: ip6pl,
        ipv4_address: octets::address(&payload.bytes[1..end4]),
        ipv6_address: octets::address(&payload.bytes[end4..end6]),
        ipv6_prefix_delegation_bits: octets::u8_of(&payload.bytes[end6..end_bits]),
        ipv6_prefix_length: octets::u8_of(&payload.bytes[end_bits..end]),
    };
    put_image(image, end, record);
    0
}

// Reads a payload without IPv6D and IP6PL, by V4 and V6.
fn read_addresses(payload: Payload<1>, image: &mut [u8]) -> u64
    requires unbroken { broken_rule (get_or payload.bytes.now 0 0) ≡ 0 }
    requires ipv6d_unset { false ≡ bit 3 (get_or payload.bytes.now 0 0) }
    requires ip6pl_unset { false ≡ bit 6 (get_or payload.bytes.now 0 0) }
    ensures value { result ≡ number_of (read payload.entry.bytes.now).answer }
    ensures image_after { image.new ≡ put image.old 0 (image_of (read payload.entry.bytes.now)) }
{
    let flags = payload.bytes[0];
    let v6 = octets::bit(flags, 0);
    if octets::bit(flags, 1) {
        if v6 {
            return read_fields(payload, image, true, true, false, false);
        }
        return read_fields(payload, image, true, false, false, false);
    }
    if v6 {
        return read_fields(payload, image, false, true, false, false);
    }
    read_fields(payload, image, false, false, false, false)
}

// Reads a payload with IPv6D or IP6PL, which keeps rule 1.
fn read_prefixed(payload: Payload<1>, image: &mut [u8]) -> u64
    requires keeps_rule1 { breaks_rule1 (get_or payload.bytes.now 0 0) ≡ false }
    requires prefixed { bit 3 (get_or payload.bytes.now 0 0) || bit 6 (get_or payload.bytes.now 0 0) ≡ true }
    ensures value { result ≡ number_of (read payload.entry.bytes.now).answer }
    ensures image_after { image.new ≡ put image.old 0 (image_of (read payload.entry.bytes.now)) }
{
    let flags = payload.bytes[0];
    if ue_ip_address::breaks_rule_2(flags) {
        return image::put_flags(image, SIZE, flags, 2);
    }
    if ue_ip_address::breaks_rule_3(flags) {
        return image::put_flags(image, SIZE, flags, 3);
    }
    let v4 = octets::bit(flags, 1);
    let v6 = octets::bit(flags, 0);
    if octets::bit(flags, 3) {
        return read_fields(payload, image, v4, v6, true, false);
    }
    read_fields(payload, image, v4, v6, false, true)
}

// The record that stands in an image.
fn record_at(image: &[u8]) -> UeIpAddress
    ensures { result ≡ record_at image.now }
{
    let flags = image::byte_at(image, FLAGS);
    let given = image::byte_at(image, GIVEN);
    UeIpAddress {
        v4: octets::bit(flags, 1),
        v6: octets::bit(flags, 0),
        source_destination: octets::bit(flags, 2),
        ipv6_prefix_delegation: octets::bit(flags, 3),
        choose_ipv4: octets::bit(flags, 4),
        choose_ipv6: octets::bit(flags, 5),
        ipv6_prefix_length_present: octets::bit(flags, 6),
        ipv4_address: image::address_at(image, IPV4, octets::bit(given, 0)),
        ipv6_address: image::address_at(image, IPV6, octets::bit(given, 1)),
        ipv6_prefix_delegation_bits: octets::bit(given, 2).then_some(image::byte_at(image, BITS)),
        ipv6_prefix_length: octets::bit(given, 3).then_some(image::byte_at(image, PREFIX)),
    }
}

pub fn read(payload: &[u8], image: &mut [u8]) -> u64
    ensures value { result ≡ read_number size image.old (read payload.now).answer }
    ensures image_after { image.new ≡ read_image size image.old (image_of (read payload.now)) }
{
    if image.len() < SIZE {
        return 8;
    }
    let n = payload.len();
    if n < UeIpAddress::MIN_LEN {
        return image::put_short(image, SIZE, 0, UeIpAddress::MIN_LEN, n);
    }
    if 65535 < n {
        return image::put_refused(image, SIZE, Answer::InputTooLong { length: n });
    }
    let flags = payload[0];
    if ue_ip_address::breaks_rule_1(flags) {
        return image::put_flags(image, SIZE, flags, 1);
    }
    let payload = Payload { bytes: payload };
    if octets::either(octets::bit(flags, 3), octets::bit(flags, 6)) {
        return read_prefixed(payload, image);
    }
    read_addresses(payload, image)
}

pub fn write(image: &[u8], out: &mut [u8], report: &mut [u8]) -> u64
    ensures value { result ≡ write_number (long_enough size image.now report.old) (writes image.now out.old) }
    ensures out_after { out.new ≡ write_output (long_enough size image.now report.old) (stores image.now out.old) out.old }
    ensures report_after { report.new ≡ write_report (long_enough size image.now report.old) report.old (writes image.now out.old) }
{
    if !image::long_enough(SIZE, image.len(), report.len()) {
        return 8;
    }
    image::put_report(report, record_at(image).marshal(out))
}
