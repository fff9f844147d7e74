// The Node ID payload: an address or a name.
#![tactic(auto)]

ghost use Rattle.std.specs.Prelude.{◌≡◌, [], ◌∷◌, ◌≤◌, length};
ghost use Rattle.kind.specs.Layout.{clear};
ghost use Rattle.kind.specs.Write.{too_long_output, answered, stored};
ghost use Rattle.node_id.specs.NodeId.{named, of_ipv4, of_ipv6, by_type, read, write_refusal, meaning, wire};
ghost use Rattle.node_id.specs.Steps.{outcome, address_behind, name_behind};

use answer::{Answer, Read, Written};
use kind::Payload;
use texts::Text;

// An address, or a name: its place in a lent slice, the payload itself after reading.
#[derive(Clone, Copy)]
pub enum NodeId {
    Ipv4([u8; 4]),
    Ipv6([u8; 16]),
    Fqdn(Text),
}

// The address behind the type, or the refusal with its field.
fn read_address<const N: usize>(payload: Payload<1>, field: u8) -> Result<[u8; N], Answer>
    requires { N ≤ 16 }
    ensures { result ≡ address_behind field N payload.entry.bytes.now }
{
    octets::address(texts::part(payload.bytes, 1, N)).ok_or(Answer::Short {
        field,
        expected: 1 + N,
        actual: payload.bytes.len(),
    })
}

// All behind the type is the name.
fn read_name(payload: Payload<1>) -> Result<Text, Answer>
    ensures { result ≡ name_behind payload.entry.bytes.now }
{
    let name = &payload.bytes[1..];
    let good = text::well_formed(name);
    if good != name.len() {
        let place = 1 + good;
        let bad = text::bad_length(name, good);
        return Err(Answer::NotUtf8 { place, bad });
    }
    Ok(Text {
        place: 1,
        len: good,
    })
}

// Reads a payload by a type; what its first byte says doesn't count. The record, and how many bytes it takes.
fn read_typed(kind: u8, payload: Payload<1>) -> Result<(NodeId, usize), Answer>
    ensures { outcome result ≡ by_type kind payload.entry.bytes.now }
{
    match kind {
        0 => Ok((NodeId::Ipv4(read_address(payload, 1)?), 5)),
        1 => Ok((NodeId::Ipv6(read_address(payload, 2)?), 17)),
        2 => Ok((NodeId::Fqdn(read_name(payload)?), payload.bytes.len())),
        _ => Err(Answer::NodeType { byte: kind }),
    }
}

// Reads a payload of whose first byte the bits of a mask alone count.
fn read_masked(payload: &[u8], mask: u8) -> Result<(NodeId, usize), Answer>
    ensures { outcome result ≡ read (clear (mask ∷ []) payload.now) }
{
    let n = payload.len();
    if 65535 < n {
        return Err(Answer::InputTooLong { length: n });
    }
    if n < 1 {
        return Err(Answer::Short {
            field: 0,
            expected: 1,
            actual: n,
        });
    }
    read_typed(payload[0] & mask, Payload { bytes: payload })
}

// Writes an address with its type. It isn't a slice, as a name is: it goes from the record straight into the output.
fn write_address<const N: usize>(out: &mut [u8], kind: u8, address: [u8; N]) -> Written
    requires { N ≤ 16 }
    ensures value { result ≡ answered (too_long_output (length (kind ∷ address.entry))) (kind ∷ address.entry) (length out.old) }
    ensures out_after { out.new ≡ stored (too_long_output (length (kind ∷ address.entry))) out.old (kind ∷ address.entry) }
{
    let needed = 1 + N;
    if out.len() < needed {
        return Written {
            answer: Answer::NoRoom { needed },
            len: 0,
        };
    }
    octets::put_byte(out, 0, kind);
    octets::put_address(out, 1, Some(address));
    Written {
        answer: Answer::Done,
        len: needed,
    }
}

// Writes a name with its type.
fn write_name(out: &mut [u8], name: &[u8]) -> Written
    ensures value { result ≡ answered (too_long_output (length (2 ∷ name.now))) (2 ∷ name.now) (length out.old) }
    ensures out_after { out.new ≡ stored (too_long_output (length (2 ∷ name.now))) out.old (2 ∷ name.now) }
{
    if 65534 < name.len() {
        return Written {
            answer: Answer::OutputTooLong,
            len: 0,
        };
    }
    let len = 1 + name.len();
    if out.len() < len {
        return Written {
            answer: Answer::NoRoom { needed: len },
            len: 0,
        };
    }
    octets::put_byte(out, 0, 2);
    octets::put_bytes(out, 1, name);
    Written {
        answer: Answer::Done,
        len,
    }
}

impl NodeId {
    pub fn new_ipv4(addr: [u8; 4]) -> NodeId
        ensures { result ≡ of_ipv4 addr }
    {
        NodeId::Ipv4(addr)
    }

    pub fn new_ipv6(addr: [u8; 16]) -> NodeId
        ensures { result ≡ of_ipv6 addr }
    {
        NodeId::Ipv6(addr)
    }

    // A name by its place and length in the slice that is lent when it is written.
    pub fn new_fqdn(place: usize, len: usize) -> NodeId
        ensures { result ≡ named place len }
    {
        NodeId::Fqdn(Text { place, len })
    }

    pub fn unmarshal(payload: &[u8]) -> Read<NodeId>
        ensures { result ≡ read payload.now }
    {
        NodeId::unmarshal_masked(payload, 0xFF)
    }

    // Reads a payload of whose first byte the bits of a mask alone count. The record is the empty name where it is refused.
    pub fn unmarshal_masked(payload: &[u8], mask: u8) -> Read<NodeId>
        ensures { result ≡ read (clear (mask ∷ []) payload.now) }
    {
        match read_masked(payload, mask) {
            Ok((record, used)) => Read {
                answer: Answer::Done,
                used,
                record,
            },
            Err(answer) => Read::refused(answer, NodeId::new_fqdn(0, 0)),
        }
    }

    pub fn marshal(self, texts: &[u8], out: &mut [u8]) -> Written
        ensures value { result ≡ answered (write_refusal texts.now self) (wire (meaning texts.now self)) (length out.old) }
        ensures out_after { out.new ≡ stored (write_refusal texts.now self) out.old (wire (meaning texts.now self)) }
    {
        let n = texts.len();
        if 65535 < n {
            return Written {
                answer: Answer::InputTooLong { length: n },
                len: 0,
            };
        }
        match self {
            NodeId::Ipv4(address) => write_address(out, 0, address),
            NodeId::Ipv6(address) => write_address(out, 1, address),
            NodeId::Fqdn(name) => {
                if !name.is_good(texts) {
                    return Written {
                        answer: Answer::BadText { field: 10 },
                        len: 0,
                    };
                }
                write_name(out, name.of(texts))
            }
        }
    }
}
