// The F-SEID in a record image.
#![tactic(auto)]

ghost use Rattle.std.specs.Prelude.{◌≡◌, get_or, ◌++◌};
ghost use Rattle.answer.specs.declared.Answer.TheVariants.{Done};
ghost use Rattle.answer.specs.Paper.{number_of};
ghost use Rattle.octets.specs.Octets.{bit, put};
ghost use Rattle.image.specs.Image.{head, read_number, read_image, long_enough, write_number, write_output, write_report};
ghost use Rattle.fseid.specs.Fseid.{read};
ghost use Rattle.fseid_image.specs.FseidImage.{size, record_image, image_of, record_at, writes, stores};

use answer::Answer;
use fseid::Fseid;
use kind::Payload;
use types::Seid;

// Where each field of an image stands, and how long an image is.
const FLAGS: usize = image::HEAD;

const GIVEN: usize = FLAGS + 1;

const SEID: usize = GIVEN + 1;

const IPV4: usize = SEID + 8;

const IPV6: usize = IPV4 + 4;

pub const SIZE: usize = IPV6 + 16;

// Puts the image of a read that is done, from the back to the front. The test tells the compiler that there is room, so that no put
// tests it again.
fn put_image(out: &mut [u8], used: usize, record: Fseid)
    ensures { out.new ≡ put out.old 0 (head Done used ++ record_image «record») }
{
    if out.len() < SIZE {
        return;
    }
    let given = octets::flag_byte(
        record.ipv4_address.is_some(),
        record.ipv6_address.is_some(),
        false,
        false,
        false,
        false,
        false,
        false,
    );
    let flags = octets::flag_byte(
        record.v6, record.v4, false, false, false, false, false, false,
    );
    image::put_address(out, IPV6, record.ipv6_address);
    image::put_address(out, IPV4, record.ipv4_address);
    image::put_u64(out, SEID, record.seid.0);
    octets::put_byte(out, GIVEN, given);
    octets::put_byte(out, FLAGS, flags);
    image::put_head(out, Answer::Done, used);
}

// A read goes straight into the image, without the record that `Fseid::unmarshal` makes. V4 and V6 are passed on as constants, so
// that the compiler knows the places and the widths.

// Reads a payload that has its flags and its SEID into an image, by V4 and V6.
fn read_concrete(payload: Payload<9>, image: &mut [u8], v4: bool, v6: bool) -> u64
    requires v4_of_flags { v4 ≡ bit 1 (get_or payload.bytes.now 0 0) }
    requires v6_of_flags { v6 ≡ bit 0 (get_or payload.bytes.now 0 0) }
    ensures value { result ≡ number_of (read payload.entry.bytes.now).answer }
    ensures image_after { image.new ≡ put image.old 0 (image_of (read payload.entry.bytes.now)) }
{
    let bytes = payload.bytes;
    let n = bytes.len();
    let end4 = Fseid::MIN_LEN + octets::if_set(v4, 4);
    let end6 = end4 + octets::if_set(v6, 16);
    if n < end6 {
        if n < end4 {
            return image::put_short(image, SIZE, 1, end4, n);
        }
        return image::put_short(image, SIZE, 2, end6, n);
    }
    let seid = octets::number(&bytes[1..Fseid::MIN_LEN]);
    let ipv4_address = image::address_at(bytes, Fseid::MIN_LEN, v4);
    let ipv6_address = image::address_at(bytes, end4, v6);
    let record = Fseid {
        v4,
        v6,
        seid: Seid(seid),
        ipv4_address,
        ipv6_address,
    };
    put_image(image, end6, record);
    0
}

// The record that stands in an image.
fn record_at(image: &[u8]) -> Fseid
    ensures { result ≡ record_at image.now }
{
    let flags = image::byte_at(image, FLAGS);
    let given = image::byte_at(image, GIVEN);
    let seid = image::u64_at(image, SEID);
    let ipv4_address = image::address_at(image, IPV4, octets::bit(given, 0));
    let ipv6_address = image::address_at(image, IPV6, octets::bit(given, 1));
    Fseid {
        v4: octets::bit(flags, 1),
        v6: octets::bit(flags, 0),
        seid: Seid(seid),
        ipv4_address,
        ipv6_address,
    }
}

pub fn read(payload: &[u8], image: &mut [u8]) -> u64
    ensures value { result ≡ read_number size image.old (read payload.now).answer }
    ensures image_after { image.new ≡ read_image size image.old (image_of (read payload.now)) }
{
    if image.len() < SIZE {
        return 8;
    }
    let n = payload.len();
    if 65535 < n {
        return image::put_refused(image, SIZE, Answer::InputTooLong { length: n });
    }
    if n < Fseid::MIN_LEN {
        return image::put_short(image, SIZE, 0, Fseid::MIN_LEN, n);
    }
    let flags = payload[0];
    let payload = Payload { bytes: payload };
    let v6 = octets::bit(flags, 0);
    if octets::bit(flags, 1) {
        if v6 {
            return read_concrete(payload, image, true, true);
        }
        return read_concrete(payload, image, true, false);
    }
    if v6 {
        return read_concrete(payload, image, false, true);
    }
    read_concrete(payload, image, false, false)
}

pub fn write(image: &[u8], out: &mut [u8], report: &mut [u8]) -> u64
    ensures value { result ≡ write_number (long_enough size image.now report.old) (writes image.now out.old) }
    ensures out_after { out.new ≡ write_output (long_enough size image.now report.old) (stores image.now out.old) out.old }
    ensures report_after { report.new ≡ write_report (long_enough size image.now report.old) report.old (writes image.now out.old) }
{
    if !image::long_enough(SIZE, image.len(), report.len()) {
        return 8;
    }
    let record = record_at(image);
    image::put_report(report, record.marshal(out))
}
