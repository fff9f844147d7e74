// The F-TEID in a record image.
#![tactic(auto)]

ghost use Rattle.std.specs.Prelude.{◌≡◌, true, false, get_or, ◌++◌};
ghost use Rattle.answer.specs.declared.Answer.TheVariants.{Done};
ghost use Rattle.answer.specs.Paper.{number_of};
ghost use Rattle.octets.specs.Octets.{bit, put};
ghost use Rattle.image.specs.Image.{head, read_number, read_image, long_enough, write_number, write_output, write_report};
ghost use Rattle.f_teid.specs.Fteid.{read};
ghost use Rattle.f_teid_image.specs.FteidImage.{size, record_image, image_of, record_at, writes, stores};

use answer::Answer;
use f_teid::Fteid;
use kind::Payload;
use types::Teid;

// Where each field of an image stands, and how long an image is.
const FLAGS: usize = image::HEAD;

const GIVEN: usize = FLAGS + 1;

const TEID: usize = GIVEN + 1;

const CHOOSE_ID: usize = TEID + 8;

const IPV4: usize = CHOOSE_ID + 1;

const IPV6: usize = IPV4 + 4;

pub const SIZE: usize = IPV6 + 16;

// Where the TEID of a payload without CH ends.
const TEID_END: usize = Fteid::MIN_LEN + 4;

// Puts the image of a read that is done, from the back to the front. The test tells the compiler that there is room, so that no put
// tests it again.
#[inline(always)]
fn put_image(out: &mut [u8], used: usize, record: Fteid)
    ensures { out.new ≡ put out.old 0 (head Done used ++ record_image «record») }
{
    if out.len() < SIZE {
        return;
    }
    let given = octets::flag_byte(
        record.ipv4_address.is_some(),
        record.ipv6_address.is_some(),
        false,
        false,
        false,
        false,
        false,
        false,
    );
    let flags = octets::flag_byte(
        record.v4,
        record.v6,
        record.ch,
        record.chid,
        false,
        false,
        false,
        false,
    );
    image::put_address(out, IPV6, record.ipv6_address);
    image::put_address(out, IPV4, record.ipv4_address);
    octets::put_byte(out, CHOOSE_ID, record.choose_id);
    image::put_u64(out, TEID, record.teid.0 as u64);
    octets::put_byte(out, GIVEN, given);
    octets::put_byte(out, FLAGS, flags);
    image::put_head(out, Answer::Done, used);
}

// A read goes straight into the image, without the record and the copies that `Fteid::unmarshal` makes. A flag that is tested is
// passed on as a constant, so that the compiler knows the places and the widths.

// Reads a payload with CH into an image, by whether CHID is set.
#[inline(always)]
fn read_chosen(payload: Payload<1>, image: &mut [u8], chid: bool) -> u64
    requires ch_set { bit 2 (get_or payload.bytes.now 0 0) ≡ true }
    requires chid_of_flags { chid ≡ bit 3 (get_or payload.bytes.now 0 0) }
    ensures value { result ≡ number_of (read payload.entry.bytes.now).answer }
    ensures image_after { image.new ≡ put image.old 0 (image_of (read payload.entry.bytes.now)) }
{
    let bytes = payload.bytes;
    let n = bytes.len();
    let flags = bytes[0];
    let end = 1 + octets::if_set(chid, 1);
    if n < end {
        return image::put_short(image, SIZE, 5, end, n);
    }
    let v4 = octets::bit(flags, 0);
    let v6 = octets::bit(flags, 1);
    let choose_id = octets::number(&bytes[1..end]) as u8;
    let record = Fteid {
        v4,
        v6,
        ch: true,
        chid,
        teid: Teid(0),
        ipv4_address: None,
        ipv6_address: None,
        choose_id,
    };
    put_image(image, end, record);
    0
}

// Reads a payload without CH and CHID that has its TEID into an image, by V4 and V6.
#[inline(always)]
fn read_concrete(payload: Payload<5>, image: &mut [u8], v4: bool, v6: bool) -> u64
    requires no_ch { bit 2 (get_or payload.bytes.now 0 0) ≡ false }
    requires no_chid { bit 3 (get_or payload.bytes.now 0 0) ≡ false }
    requires v4_of_flags { v4 ≡ bit 0 (get_or payload.bytes.now 0 0) }
    requires v6_of_flags { v6 ≡ bit 1 (get_or payload.bytes.now 0 0) }
    ensures value { result ≡ number_of (read payload.entry.bytes.now).answer }
    ensures image_after { image.new ≡ put image.old 0 (image_of (read payload.entry.bytes.now)) }
{
    let bytes = payload.bytes;
    let n = bytes.len();
    let end4 = TEID_END + octets::if_set(v4, 4);
    if n < end4 {
        return image::put_short(image, SIZE, 1, end4, n);
    }
    let end6 = end4 + octets::if_set(v6, 16);
    if n < end6 {
        return image::put_short(image, SIZE, 2, end6, n);
    }
    let teid = octets::number(&bytes[1..TEID_END]) as u32;
    let ipv4_address = image::address_at(bytes, TEID_END, v4);
    let ipv6_address = image::address_at(bytes, end4, v6);
    let record = Fteid {
        v4,
        v6,
        ch: false,
        chid: false,
        teid: Teid(teid),
        ipv4_address,
        ipv6_address,
        choose_id: 0,
    };
    put_image(image, end6, record);
    0
}

// The record that stands in an image.
fn record_at(image: &[u8]) -> Fteid
    ensures { result ≡ record_at image.now }
{
    let flags = image::byte_at(image, FLAGS);
    let given = image::byte_at(image, GIVEN);
    let teid = image::u64_at(image, TEID);
    let ipv4_address = image::address_at(image, IPV4, octets::bit(given, 0));
    let ipv6_address = image::address_at(image, IPV6, octets::bit(given, 1));
    Fteid {
        v4: octets::bit(flags, 0),
        v6: octets::bit(flags, 1),
        ch: octets::bit(flags, 2),
        chid: octets::bit(flags, 3),
        teid: Teid((teid % 4294967296) as u32),
        ipv4_address,
        ipv6_address,
        choose_id: image::byte_at(image, CHOOSE_ID),
    }
}

pub fn read(payload: &[u8], image: &mut [u8]) -> u64
    ensures value { result ≡ read_number size image.old (read payload.now).answer }
    ensures image_after { image.new ≡ read_image size image.old (image_of (read payload.now)) }
{
    if image.len() < SIZE {
        return 8;
    }
    let n = payload.len();
    if 65535 < n {
        return image::put_refused(image, SIZE, Answer::InputTooLong { length: n });
    }
    if n < Fteid::MIN_LEN {
        return image::put_short(image, SIZE, 0, Fteid::MIN_LEN, n);
    }
    let flags = payload[0];
    let chid = octets::bit(flags, 3);
    if octets::bit(flags, 2) {
        let payload = Payload { bytes: payload };
        if chid {
            return read_chosen(payload, image, true);
        }
        return read_chosen(payload, image, false);
    }
    if chid {
        return image::put_flags(image, SIZE, flags, 4);
    }
    if n < TEID_END {
        return image::put_short(image, SIZE, 0, TEID_END, n);
    }
    let payload = Payload { bytes: payload };
    let v6 = octets::bit(flags, 1);
    if octets::bit(flags, 0) {
        if v6 {
            return read_concrete(payload, image, true, true);
        }
        return read_concrete(payload, image, true, false);
    }
    if v6 {
        return read_concrete(payload, image, false, true);
    }
    read_concrete(payload, image, false, false)
}

// F-SEID's is written alike. One function for both would be no plainer: for one test and one call it would take the size, three slices
// and a closure, ask that this can be called, and say by its `post` what each kind would then have to prove as here.
pub fn write(image: &[u8], out: &mut [u8], report: &mut [u8]) -> u64
    ensures value { result ≡ write_number (long_enough size image.now report.old) (writes image.now out.old) }
    ensures out_after { out.new ≡ write_output (long_enough size image.now report.old) (stores image.now out.old) out.old }
    ensures report_after { report.new ≡ write_report (long_enough size image.now report.old) report.old (writes image.now out.old) }
{
    if !image::long_enough(SIZE, image.len(), report.len()) {
        return 8;
    }
    let record = record_at(image);
    image::put_report(report, record.marshal(out))
}
