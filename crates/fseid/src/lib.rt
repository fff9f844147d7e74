// The F-SEID payload: a session endpoint identifier with its addresses.
#![tactic(auto)]

ghost use Rattle.std.specs.Prelude.{◌≡◌, length};
ghost use Rattle.octets.specs.Octets.{put};
ghost use Rattle.answer.specs.Paper.{written};
ghost use Rattle.fseid.specs.Fseid.{made, meaning, wire, max_len, read, refused};

use answer::{Answer, Read, Written};
use types::Seid;

#[derive(Clone, Copy)]
pub struct Fseid {
    pub v4: bool,
    pub v6: bool,
    pub seid: Seid,
    pub ipv4_address: Option<[u8; 4]>,
    pub ipv6_address: Option<[u8; 16]>,
}

// A refused read.
#[tactic(auto, unfolding(crate::specs::Fseid::refused))]
fn refused(answer: Answer) -> Read<Fseid>
    ensures { result ≡ refused answer }
{
    Read::refused(answer, Fseid::new(Seid(0), None, None))
}

impl Fseid {
    // How long the written forms of records that a reader gives are, at least and at most.
    pub const MIN_LEN: usize = 9;

    pub const MAX_LEN: usize = 29;

    // The second as a promise: a constant has none. `unmarshal` promises the first.
    pub fn max_len() -> usize
        ensures { result ≡ max_len }
    {
        Fseid::MAX_LEN
    }

    // V4 and V6 from the addresses given.
    pub fn new(seid: Seid, ipv4_address: Option<[u8; 4]>, ipv6_address: Option<[u8; 16]>) -> Fseid
        ensures { result ≡ made seid ipv4_address ipv6_address }
    {
        Fseid {
            v4: ipv4_address.is_some(),
            v6: ipv6_address.is_some(),
            seid,
            ipv4_address,
            ipv6_address,
        }
    }

    pub fn unmarshal(payload: &[u8]) -> Read<Fseid>
        ensures { result ≡ read payload.now }
    {
        let n = payload.len();
        if 65535 < n {
            return refused(Answer::InputTooLong { length: n });
        }
        if n < Fseid::MIN_LEN {
            return refused(Answer::Short {
                field: 0,
                expected: Fseid::MIN_LEN,
                actual: n,
            });
        }
        let flags = payload[0];
        let v6 = octets::bit(flags, 0);
        let v4 = octets::bit(flags, 1);
        let end4 = Fseid::MIN_LEN + octets::if_set(v4, 4);
        let end6 = end4 + octets::if_set(v6, 16);
        if n < end6 {
            if n < end4 {
                return refused(Answer::Short {
                    field: 1,
                    expected: end4,
                    actual: n,
                });
            }
            return refused(Answer::Short {
                field: 2,
                expected: end6,
                actual: n,
            });
        }
        let seid = octets::number(&payload[1..Fseid::MIN_LEN]);
        let ipv4_address = octets::address(&payload[Fseid::MIN_LEN..end4]);
        let ipv6_address = octets::address(&payload[end4..end6]);
        Read {
            answer: Answer::Done,
            used: end6,
            record: Fseid {
                v4,
                v6,
                seid: Seid(seid),
                ipv4_address,
                ipv6_address,
            },
        }
    }

    pub fn marshal(self, out: &mut [u8]) -> Written
        ensures value { result ≡ written (length (wire (meaning self))) (length out.old) }
        ensures out_after { out.new ≡ put out.old 0 (wire (meaning self)) }
    {
        let ipv4_address = self.ipv4_address;
        let ipv6_address = self.ipv6_address;
        let end4 = Fseid::MIN_LEN + octets::if_set(ipv4_address.is_some(), 4);
        let end6 = end4 + octets::if_set(ipv6_address.is_some(), 16);
        if out.len() < end6 {
            return Written {
                answer: Answer::NoRoom { needed: end6 },
                len: 0,
            };
        }
        // The addresses first: held in registers until the SEID is put, one of them would stand on the stack.
        octets::put_address(out, Fseid::MIN_LEN, ipv4_address);
        octets::put_address(out, end4, ipv6_address);
        let flags = octets::flag_byte(self.v6, self.v4, false, false, false, false, false, false);
        octets::put_byte(out, 0, flags);
        octets::put_number(out, 1, 8, self.seid.0);
        Written {
            answer: Answer::Done,
            len: end6,
        }
    }
}
