// The header of a message: flags, type, length, a SEID that may be sent, sequence number and priority.
#![tactic(auto)]

ghost use Rattle.std.specs.Prelude.{◌≡◌, length};
ghost use Rattle.octets.specs.Octets.{put};
ghost use Rattle.answer.specs.Paper.{written};
ghost use Rattle.header.specs.Header.{made, wire, read, refused};

use answer::{Answer, Read, Written};
use types::{Seid, SequenceNumber};

#[derive(Clone, Copy)]
pub struct Header {
    pub version: u8,
    pub has_fo: bool,
    pub has_mp: bool,
    // Beside `seid` and no `Option`: `new` is handed both, and by its promise `made` a SEID that isn't sent is kept.
    pub has_seid: bool,
    pub message_type: u8,
    pub length: u16,
    pub seid: Seid,
    pub sequence_number: SequenceNumber,
    pub message_priority: u8,
}

// A refused read.
fn refused(answer: Answer) -> Read<Header>
    ensures { result ≡ refused answer }
{
    Read::refused(
        answer,
        Header {
            version: 0,
            ..Header::new(0, false, Seid(0), SequenceNumber(0))
        },
    )
}

impl Header {
    // How long the written forms are, without a SEID and with one. `marshal` computes with both, so that its promise holds them.
    pub const MIN_LEN: usize = 8;

    pub const MAX_LEN: usize = 16;

    // Version 1, and what isn't given false or 0.
    pub fn new(
        message_type: u8,
        has_seid: bool,
        seid: Seid,
        sequence_number: SequenceNumber,
    ) -> Header
        ensures { result ≡ made message_type has_seid seid sequence_number }
    {
        Header {
            version: 1,
            has_fo: false,
            has_mp: false,
            has_seid,
            message_type,
            length: 0,
            seid,
            sequence_number,
            message_priority: 0,
        }
    }

    pub fn unmarshal(payload: &[u8]) -> Read<Header>
        ensures { result ≡ read payload.now }
    {
        let n = payload.len();
        if 65535 < n {
            return refused(Answer::InputTooLong { length: n });
        }
        if n < Header::MIN_LEN {
            return refused(Answer::Short {
                field: 0,
                expected: Header::MIN_LEN,
                actual: n,
            });
        }
        let flags = payload[0];
        let has_seid = octets::bit(flags, 0);
        // The SEID is wanted in two halves: 12 bytes first, then 16.
        let half = octets::if_set(has_seid, 4);
        let end12 = Header::MIN_LEN + half;
        let end16 = end12 + half;
        if n < end16 {
            if n < end12 {
                return refused(Answer::Short {
                    field: 0,
                    expected: end12,
                    actual: n,
                });
            }
            return refused(Answer::Short {
                field: 0,
                expected: end16,
                actual: n,
            });
        }
        let at = 4 + half + half;
        let length = octets::number(&payload[2..4]);
        let seid = octets::number(&payload[4..at]);
        let sequence = octets::number(&payload[at..at + 3]);
        Read {
            answer: Answer::Done,
            used: end16,
            record: Header {
                version: flags / 32,
                has_fo: octets::bit(flags, 2),
                has_mp: octets::bit(flags, 1),
                has_seid,
                message_type: payload[1],
                length: length as u16,
                seid: Seid(seid),
                sequence_number: SequenceNumber(sequence as u32),
                message_priority: payload[at + 3],
            },
        }
    }

    pub fn marshal(self, out: &mut [u8]) -> Written
        ensures value { result ≡ written (length (wire self)) (length out.old) }
        ensures out_after { out.new ≡ put out.old 0 (wire self) }
    {
        let seid_len = octets::if_set(self.has_seid, Header::MAX_LEN - Header::MIN_LEN);
        let at = 4 + seid_len;
        let last = at + 3;
        let end = Header::MIN_LEN + seid_len;
        if out.len() < end {
            return Written {
                answer: Answer::NoRoom { needed: end },
                len: 0,
            };
        }
        let v0 = octets::bit(self.version, 0);
        let v1 = octets::bit(self.version, 1);
        let v2 = octets::bit(self.version, 2);
        let flags = octets::flag_byte(
            self.has_seid,
            self.has_mp,
            self.has_fo,
            false,
            false,
            v0,
            v1,
            v2,
        );
        octets::put_byte(out, 0, flags);
        octets::put_byte(out, 1, self.message_type);
        octets::put_number(out, 2, 2, self.length as u64);
        octets::put_number_if(out, 4, 8, self.has_seid.then_some(self.seid.0));
        octets::put_number(out, at, 3, self.sequence_number.0 as u64);
        octets::put_byte(out, last, self.message_priority);
        Written {
            answer: Answer::Done,
            len: end,
        }
    }
}
