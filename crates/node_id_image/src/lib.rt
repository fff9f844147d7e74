// The Node ID in a record image.
#![tactic(auto)]

ghost use Rattle.std.specs.Prelude.{◌≡◌, ◌++◌};
ghost use Rattle.answer.specs.declared.Answer.TheVariants.{Done, Short};
ghost use Rattle.answer.specs.Paper.{number_of};
ghost use Rattle.octets.specs.Octets.{put};
ghost use Rattle.image.specs.Image.{head, read_number, read_image, long_enough, write_number, write_output, write_report};
ghost use Rattle.node_id.specs.NodeId.{refused, read_fqdn, read};
ghost use Rattle.node_id_image.specs.NodeIdImage.{size, bytes_of, fields_of, record_of, record_image, image_of, record_at, writes, stores};

use answer::{Answer, Written};
use kind::Payload;
use node_id::NodeId;
use texts::Text;

// Where each field of an image stands, and how long an image is.
const TYPE: usize = image::HEAD;

const PLACE: usize = TYPE + 1;

const LEN: usize = PLACE + 8;

const IPV4: usize = LEN + 8;

const IPV6: usize = IPV4 + 4;

pub const SIZE: usize = IPV6 + 16;

// The fields of an image. After reading, those that the type doesn't name are zeros.
#[derive(Clone, Copy)]
struct Fields {
    type_byte: u8,
    name: Text,
    ipv4_address: [u8; 4],
    ipv6_address: [u8; 16],
}

// Those of the empty name.
const EMPTY: Fields = Fields {
    type_byte: 2,
    name: Text { place: 0, len: 0 },
    ipv4_address: [0; 4],
    ipv6_address: [0; 16],
};

impl From<NodeId> for Fields {
    ghost from_gives = { λ r f. f ≡ fields_of r };

    // The type is as on the wire.
    fn from(record: NodeId) -> Fields {
        match record {
            NodeId::Ipv4(ipv4_address) => Fields {
                type_byte: 0,
                ipv4_address,
                ..EMPTY
            },
            NodeId::Ipv6(ipv6_address) => Fields {
                type_byte: 1,
                ipv6_address,
                ..EMPTY
            },
            NodeId::Fqdn(name) => Fields { name, ..EMPTY },
        }
    }
}

impl From<Fields> for NodeId {
    ghost from_gives = { λ f r. r ≡ record_of f };

    // Any type but 0 and 1 is a name's.
    fn from(fields: Fields) -> NodeId {
        match fields.type_byte {
            0 => NodeId::Ipv4(fields.ipv4_address),
            1 => NodeId::Ipv6(fields.ipv6_address),
            _ => NodeId::Fqdn(fields.name),
        }
    }
}

// Puts the image of a read that is done, from the back to the front, and returns 0, the answer's number. The test tells the compiler
// that there is room, so that no put tests it again.
#[inline(always)]
fn put_fields(out: &mut [u8], used: usize, fields: Fields) -> u64
    ensures value { result ≡ 0 }
    ensures out_after { out.new ≡ put out.old 0 (head Done used ++ bytes_of fields) }
{
    if out.len() < SIZE {
        return 0;
    }
    octets::put_bytes(out, IPV6, &fields.ipv6_address);
    octets::put_bytes(out, IPV4, &fields.ipv4_address);
    image::put_u64(out, LEN, fields.name.len as u64);
    image::put_u64(out, PLACE, fields.name.place as u64);
    octets::put_byte(out, TYPE, fields.type_byte);
    image::put_head(out, Answer::Done, used);
    0
}

// Puts the image of a refused read, and returns the answer's number. The empty record is the empty name: its type and the zeros
// behind it, of which seven go into one store with the type.
fn put_refused(out: &mut [u8], answer: Answer) -> u64
    ensures value { result ≡ number_of answer }
    ensures out_after { out.new ≡ put out.old 0 (image_of (refused answer)) }
{
    if out.len() < SIZE {
        return answer.number() as u64;
    }
    octets::put_zeros(out, TYPE + 8, SIZE);
    image::put_u64(out, TYPE, 2);
    image::put_report(out, Written { answer, len: 0 })
}

// Puts the refusal of a payload that ends before a needed field.
fn put_short(out: &mut [u8], field: u8, expected: usize, actual: usize) -> u64
    ensures value { result ≡ number_of (Short field expected actual) }
    ensures out_after { out.new ≡ put out.old 0 (image_of (refused (Short field expected actual))) }
{
    put_refused(
        out,
        Answer::Short {
            field,
            expected,
            actual,
        },
    )
}

// A read goes straight into the image, without the record and the copies that `NodeId::unmarshal` makes, by the type. An address goes
// by its fields alone: from the enum of a record the compiler would take it in pieces.

// Reads a payload of type 2 into an image: all behind the type is the name. Only here is a function called, and a stack frame
// needed.
#[inline(never)]
fn read_name(payload: Payload<1>, image: &mut [u8]) -> u64
    ensures value { result ≡ number_of (read_fqdn payload.entry.bytes.now).answer }
    ensures image_after { image.new ≡ put image.old 0 (image_of (read_fqdn payload.entry.bytes.now)) }
{
    let n = payload.bytes.len();
    let name = &payload.bytes[1..];
    let good = text::well_formed(name);
    if good != name.len() {
        let place = 1 + good;
        let bad = text::bad_length(name, good);
        return put_refused(image, Answer::NotUtf8 { place, bad });
    }
    put_fields(image, n, Fields::from(NodeId::new_fqdn(1, good)))
}

// Reads a payload that has its type.
fn read_typed(payload: Payload<1>, image: &mut [u8]) -> u64
    ensures value { result ≡ number_of (read payload.entry.bytes.now).answer }
    ensures image_after { image.new ≡ put image.old 0 (image_of (read payload.entry.bytes.now)) }
{
    let bytes = payload.bytes;
    match bytes[0] {
        0 => match octets::address(texts::part(bytes, 1, 4)) {
            Some(ipv4_address) => {
                let fields = Fields {
                    type_byte: 0,
                    ipv4_address,
                    ..EMPTY
                };
                put_fields(image, 5, fields)
            }
            None => put_short(image, 1, 5, bytes.len()),
        },
        1 => match octets::address(texts::part(bytes, 1, 16)) {
            Some(ipv6_address) => {
                let fields = Fields {
                    type_byte: 1,
                    ipv6_address,
                    ..EMPTY
                };
                put_fields(image, 17, fields)
            }
            None => put_short(image, 2, 17, bytes.len()),
        },
        2 => read_name(payload, image),
        byte => put_refused(image, Answer::NodeType { byte }),
    }
}

// The record that stands in an image.
fn record_at(image: &[u8]) -> NodeId
    ensures { result ≡ record_at image.now }
{
    NodeId::from(Fields {
        type_byte: image::byte_at(image, TYPE),
        name: Text {
            place: image::u64_at(image, PLACE) as usize,
            len: image::u64_at(image, LEN) as usize,
        },
        ipv4_address: image::address_at(image, IPV4, true).unwrap_or([0; 4]),
        ipv6_address: image::address_at(image, IPV6, true).unwrap_or([0; 16]),
    })
}

pub fn read(payload: &[u8], image: &mut [u8]) -> u64
    ensures value { result ≡ read_number size image.old (read payload.now).answer }
    ensures image_after { image.new ≡ read_image size image.old (image_of (read payload.now)) }
{
    if image.len() < SIZE {
        return 8;
    }
    let n = payload.len();
    if 65535 < n {
        return put_refused(image, Answer::InputTooLong { length: n });
    }
    if n < 1 {
        return put_short(image, 0, 1, n);
    }
    read_typed(Payload { bytes: payload }, image)
}

// PFD Contents' is written alike; f_teid_image says why there is no function for both.
pub fn write(image: &[u8], texts: &[u8], out: &mut [u8], report: &mut [u8]) -> u64
    ensures value { result ≡ write_number (long_enough size image.now report.old) (writes image.now texts.now out.old) }
    ensures out_after { out.new ≡ write_output (long_enough size image.now report.old) (stores image.now texts.now out.old) out.old }
    ensures report_after { report.new ≡ write_report (long_enough size image.now report.old) report.old (writes image.now texts.now out.old) }
{
    if !image::long_enough(SIZE, image.len(), report.len()) {
        return 8;
    }
    let record = record_at(image);
    image::put_report(report, record.marshal(texts, out))
}
