// The Outer Header Creation in a record image.
#![tactic(auto)]

ghost use Rattle.std.specs.Prelude.{◌≡◌, ◌++◌, ◌+◌, ◌≤◌, leb, length, get_or};
ghost use Rattle.std.specs.Bool.{then_some};
ghost use Rattle.answer.specs.declared.Answer.TheVariants.{Done};
ghost use Rattle.answer.specs.Paper.{number_of};
ghost use Rattle.octets.specs.Octets.{if_set, number_if, put};
ghost use Rattle.image.specs.Image.{head, read_number, read_image, long_enough, write_number, write_output, write_report};
ghost use Rattle.outer_header_creation.specs.OuterHeaderCreation.{byte_of, read};
ghost use Rattle.outer_header_creation.specs.Steps.{ends_of};
ghost use Rattle.outer_header_creation_image.specs.OuterHeaderCreationImage.{flags_at, given_at, size, record_image, image_of, written_form, writes, stores};
ghost use Rattle.outer_header_creation_image.specs.Steps.{sends_by, address_sent};

use answer::{Answer, Written};
use kind::Payload;
use outer_header_creation::{OuterHeaderCreation, OuterHeaderCreationFlags, SentFields};
use types::Teid;

// Where each field of an image stands, and how long an image is.
const FLAGS: usize = image::HEAD;

const GIVEN: usize = FLAGS + 1;

const TEID: usize = GIVEN + 1;

const PORT: usize = TEID + 8;

const CTAG: usize = PORT + 8;

const STAG: usize = CTAG + 8;

const IPV4: usize = STAG + 8;

const IPV6: usize = IPV4 + 4;

pub const SIZE: usize = IPV6 + 16;

// Puts the image of a read that is done, by the byte of its flags, from the back to the front. The test tells the compiler
// that there is room, so that no put tests it again.
fn put_image(out: &mut [u8], flags: u8, used: usize, record: OuterHeaderCreation)
    requires { flags ≡ byte_of «record».description }
    ensures { out.new ≡ put out.old 0 (head Done used ++ record_image «record») }
{
    if out.len() < SIZE {
        return;
    }
    let given = octets::flag_byte(
        record.ipv4_address.is_some(),
        record.ipv6_address.is_some(),
        record.teid.is_some(),
        record.port_number.is_some(),
        record.ctag.is_some(),
        record.stag.is_some(),
        false,
        false,
    );
    image::put_address(out, IPV6, record.ipv6_address);
    image::put_address(out, IPV4, record.ipv4_address);
    image::put_u64(out, STAG, record.stag.unwrap_or(0) as u64);
    image::put_u64(out, CTAG, record.ctag.unwrap_or(0) as u64);
    image::put_u64(out, PORT, record.port_number.unwrap_or(0) as u64);
    image::put_u64(out, TEID, record.teid.unwrap_or(Teid(0)).0 as u64);
    octets::put_byte(out, GIVEN, given);
    octets::put_byte(out, FLAGS, flags);
    image::put_head(out, Answer::Done, used);
}

// A read goes straight into the image, without the record that `OuterHeaderCreation::unmarshal` makes.

// Reads a payload that has its first two bytes, by its flags. The TEID is read last: the compiler keeps fewer registers so.
fn read_by(payload: Payload<2>, image: &mut [u8], flags: u8) -> u64
    requires { flags ≡ get_or payload.bytes.now 0 0 }
    ensures value { result ≡ number_of (read payload.entry.bytes.now).answer }
    ensures image_after { image.new ≡ put image.old 0 (image_of (read payload.entry.bytes.now)) }
{
    let bytes = payload.bytes;
    let n = bytes.len();
    let description = OuterHeaderCreationFlags::of(flags);
    let sent = description.asked();
    let ends = sent.ends();
    if n < ends.stag {
        return image::put_refused(image, SIZE, sent.answer(n));
    }
    let ipv4_address = octets::address(&bytes[ends.teid..ends.ipv4]);
    let ipv6_address = octets::address(&bytes[ends.ipv4..ends.ipv6]);
    let port_number = octets::u16_of(&bytes[ends.ipv6..ends.port]);
    let ctag = octets::u32_of(&bytes[ends.port..ends.ctag]);
    let stag = octets::u32_of(&bytes[ends.ctag..ends.stag]);
    let teid = octets::u32_of(&bytes[2..ends.teid]).map(Teid);
    let record = OuterHeaderCreation {
        description,
        teid,
        ipv4_address,
        ipv6_address,
        port_number,
        ctag,
        stag,
    };
    put_image(image, description.byte(), ends.stag, record);
    0
}

// By its first byte: with the flags as a constant the compiler knows every place and width.
fn read_fields(payload: Payload<2>, image: &mut [u8]) -> u64
    ensures value { result ≡ number_of (read payload.entry.bytes.now).answer }
    ensures image_after { image.new ≡ put image.old 0 (image_of (read payload.entry.bytes.now)) }
{
    let flags = payload.bytes[0];
    match flags {
        0x00 => read_by(payload, image, 0x00),
        0x01 => read_by(payload, image, 0x01),
        0x02 => read_by(payload, image, 0x02),
        0x03 => read_by(payload, image, 0x03),
        0x04 => read_by(payload, image, 0x04),
        0x08 => read_by(payload, image, 0x08),
        0x0C => read_by(payload, image, 0x0C),
        0x10 => read_by(payload, image, 0x10),
        0x20 => read_by(payload, image, 0x20),
        0x30 => read_by(payload, image, 0x30),
        0x40 => read_by(payload, image, 0x40),
        0x80 => read_by(payload, image, 0x80),
        0xFF => read_by(payload, image, 0xFF),
        _ => read_by(payload, image, flags),
    }
}

// The fields that are written of the record in an image, by its flags and the fields given.
fn sends(flags: u8, given: u8) -> SentFields
    ensures { result ≡ sends_by flags given }
{
    let asked = OuterHeaderCreationFlags::of(flags).asked();
    SentFields {
        teid: asked.teid,
        ipv4: octets::both(asked.ipv4, octets::bit(given, 0)),
        ipv6: octets::both(asked.ipv6, octets::bit(given, 1)),
        port: asked.port,
        ctag: octets::both(asked.ctag, octets::bit(given, 4)),
        stag: octets::both(asked.stag, octets::bit(given, 5)),
    }
}

// One of them alone, so that the compiler makes one test of it.
fn is_sent<F: FnOnce(SentFields) -> bool>(flags: u8, given: u8, field: F) -> bool
    requires { F.IsAlwaysCallable field }
    ensures { F.post field (sends_by flags given) result }
{
    field(sends(flags, given))
}

// Puts a number of w bytes, where it is sent, and returns where the next field begins.
fn put_number_sent(out: &mut [u8], at: usize, w: usize, sent: bool, x: u64) -> usize
    requires { at + w ≤ 34 }
    ensures value { result ≡ at + if_set sent w }
    ensures out_after { out.new ≡ put out.old at (number_if w (then_some sent x)) }
{
    if sent {
        octets::put_number(out, at, w, x);
        return at + w;
    }
    at
}

// The same of an address of N bytes, which stands at a place of an image.
fn put_address_sent<const N: usize>(
    image: &[u8],
    from: usize,
    out: &mut [u8],
    at: usize,
    sent: bool,
) -> usize
    requires { at + N ≤ 34 }
    ensures value { result ≡ at + if_set sent N }
    ensures out_after { out.new ≡ put out.old at (address_sent N image.now from sent) }
{
    if sent {
        octets::put_address::<N>(out, at, image::address_at(image, from, true));
        return at + N;
    }
    at
}

// Puts the written form of the record that stands in an image, straight from its bytes, and returns how long it is.
fn put_form(image: &[u8], out: &mut [u8], flags: u8, given: u8) -> usize
    requires whole_image { size ≤ length image.now }
    requires flags_of_image { flags ≡ get_or image.now flags_at 0 }
    requires given_of_image { given ≡ get_or image.now given_at 0 }
    requires room { (ends_of (sends_by flags given)).stag ≤ length out.old }
    ensures value { result ≡ (ends_of (sends_by flags given)).stag }
    ensures out_after { out.new ≡ put out.old 0 (written_form image.now) }
{
    octets::put_byte(out, 0, flags);
    octets::put_byte(out, 1, 0);
    let teid = image::u64_at(image, TEID);
    let teid_or_zero = octets::if_set(octets::bit(given, 2), (teid % 4294967296) as usize) as u64;
    let end_teid = put_number_sent(
        out,
        2,
        4,
        is_sent(flags, given, |sends| sends.teid),
        teid_or_zero,
    );
    let end_ipv4 = put_address_sent::<4>(
        image,
        IPV4,
        out,
        end_teid,
        is_sent(flags, given, |sends| sends.ipv4),
    );
    let end_ipv6 = put_address_sent::<16>(
        image,
        IPV6,
        out,
        end_ipv4,
        is_sent(flags, given, |sends| sends.ipv6),
    );
    let port = image::u64_at(image, PORT);
    let port_or_zero = octets::if_set(octets::bit(given, 3), (port % 65536) as usize) as u64;
    let end_port = put_number_sent(
        out,
        end_ipv6,
        2,
        is_sent(flags, given, |sends| sends.port),
        port_or_zero,
    );
    let ctag = image::u64_at(image, CTAG) % 4294967296;
    let end_ctag = put_number_sent(
        out,
        end_port,
        3,
        is_sent(flags, given, |sends| sends.ctag),
        ctag,
    );
    let stag = image::u64_at(image, STAG) % 4294967296;
    put_number_sent(
        out,
        end_ctag,
        3,
        is_sent(flags, given, |sends| sends.stag),
        stag,
    )
}

// Whether the written form has room; where the longest one has, its length isn't counted.
fn has_room(room: usize, flags: u8, given: u8) -> bool
    ensures { result ≡ leb (ends_of (sends_by flags given)).stag room }
{
    if OuterHeaderCreation::MAX_LEN <= room {
        return true;
    }
    let ends = sends(flags, given).ends();
    ends.stag <= room
}

// Writes the record that stands in an image, where it has room.
fn write_form(image: &[u8], out: &mut [u8]) -> Written
    requires { size ≤ length image.now }
    ensures value { result ≡ writes image.now out.old }
    ensures out_after { out.new ≡ stores image.now out.old }
{
    let flags = image::byte_at(image, FLAGS);
    let given = image::byte_at(image, GIVEN);
    if !has_room(out.len(), flags, given) {
        let ends = sends(flags, given).ends();
        return Written {
            answer: Answer::NoRoom { needed: ends.stag },
            len: 0,
        };
    }
    let len = put_form(image, out, flags, given);
    Written {
        answer: Answer::Done,
        len,
    }
}

pub fn read(payload: &[u8], image: &mut [u8]) -> u64
    ensures value { result ≡ read_number size image.old (read payload.now).answer }
    ensures image_after { image.new ≡ read_image size image.old (image_of (read payload.now)) }
{
    if image.len() < SIZE {
        return 8;
    }
    let n = payload.len();
    if n < OuterHeaderCreation::MIN_LEN {
        return image::put_short(image, SIZE, 0, OuterHeaderCreation::MIN_LEN, n);
    }
    if 65535 < n {
        return image::put_refused(image, SIZE, Answer::InputTooLong { length: n });
    }
    read_fields(Payload { bytes: payload }, image)
}

pub fn write(image: &[u8], out: &mut [u8], report: &mut [u8]) -> u64
    ensures value { result ≡ write_number (long_enough size image.now report.old) (writes image.now out.old) }
    ensures out_after { out.new ≡ write_output (long_enough size image.now report.old) (stores image.now out.old) out.old }
    ensures report_after { report.new ≡ write_report (long_enough size image.now report.old) report.old (writes image.now out.old) }
{
    if !image::long_enough(SIZE, image.len(), report.len()) {
        return 8;
    }
    image::put_report(report, write_form(image, out))
}
