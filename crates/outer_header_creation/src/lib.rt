// The Outer Header Creation payload: which outer header a forwarded packet gets.
#![tactic(auto)]

ghost use Rattle.std.specs.Prelude.{◌≡◌, ◌≤◌, length};
ghost use Rattle.octets.specs.Octets.{put};
ghost use Rattle.answer.specs.declared.Answer.TheVariants.{Short};
ghost use Rattle.answer.specs.Paper.{written};
ghost use Rattle.kind.specs.Layout.{walk};
ghost use Rattle.outer_header_creation.specs.OuterHeaderCreation.{flags_of, byte_of, asked, fields_of, meaning, wire, max_len, teid_of, untagged, bare, gtpu_ipv4, gtpu_ipv6, udp_ipv4, with_ctag, with_stag, record_with, read, refused};
ghost use Rattle.outer_header_creation.specs.Steps.{ends_of, Rising, answer_of, given, sent};

use answer::{Answer, Read, Written};
use types::Teid;

// What the outer header is to have.
#[derive(Clone, Copy)]
pub struct OuterHeaderCreationFlags {
    pub gtpu_udp_ipv4: bool,
    pub gtpu_udp_ipv6: bool,
    pub udp_ipv4: bool,
    pub udp_ipv6: bool,
    pub ipv4: bool,
    pub ipv6: bool,
    pub ctag: bool,
    pub stag: bool,
}

#[derive(Clone, Copy)]
pub struct OuterHeaderCreation {
    pub description: OuterHeaderCreationFlags,
    pub teid: Option<Teid>,
    pub ipv4_address: Option<[u8; 4]>,
    pub ipv6_address: Option<[u8; 16]>,
    pub port_number: Option<u16>,
    pub ctag: Option<u32>,
    pub stag: Option<u32>,
}

// Which of the fields are in a payload, or in a written form.
#[derive(Clone, Copy)]
pub struct SentFields {
    pub teid: bool,
    pub ipv4: bool,
    pub ipv6: bool,
    pub port: bool,
    pub ctag: bool,
    pub stag: bool,
}

// Where each field ends.
#[derive(Clone, Copy)]
pub struct FieldEnds {
    pub teid: usize,
    pub ipv4: usize,
    pub ipv6: usize,
    pub port: usize,
    pub ctag: usize,
    pub stag: usize,
}

// The answer where a field isn't all there.
fn short(field: u8, expected: usize, actual: usize) -> Answer
    ensures { result ≡ Short field expected actual }
{
    Answer::Short {
        field,
        expected,
        actual,
    }
}

impl SentFields {
    // The ends of the fields in a row, behind the two bytes that come first.
    pub fn ends(self) -> FieldEnds
        ensures value { result ≡ ends_of self }
        ensures rising { Rising result }
    {
        let teid = OuterHeaderCreation::MIN_LEN + octets::if_set(self.teid, 4);
        let ipv4 = teid + octets::if_set(self.ipv4, 4);
        let ipv6 = ipv4 + octets::if_set(self.ipv6, 16);
        let port = ipv6 + octets::if_set(self.port, 2);
        let ctag = port + octets::if_set(self.ctag, 3);
        let stag = ctag + octets::if_set(self.stag, 3);
        FieldEnds {
            teid,
            ipv4,
            ipv6,
            port,
            ctag,
            stag,
        }
    }

    // What a payload of n bytes with these fields is answered: done, or the first field that isn't all there.
    pub fn answer(self, n: usize) -> Answer
        ensures { result ≡ answer_of (walk n 2 (fields_of self)) }
    {
        let ends = self.ends();
        if ends.stag <= n {
            return Answer::Done;
        }
        if n < ends.teid {
            return short(6, ends.teid, n);
        }
        if n < ends.ipv4 {
            return short(1, ends.ipv4, n);
        }
        if n < ends.ipv6 {
            return short(2, ends.ipv6, n);
        }
        if n < ends.port {
            return short(7, ends.port, n);
        }
        if n < ends.ctag {
            return short(8, ends.ctag, n);
        }
        short(9, ends.stag, n)
    }
}

// The TEID of these bytes, absent where there are none.
fn teid_of(bs: &[u8]) -> Option<Teid>
    ensures { result ≡ teid_of bs.now }
{
    octets::u32_of(bs).map(Teid)
}

// The record of a payload that has all the fields that its flags ask for.
fn record_of(
    payload: &[u8],
    description: OuterHeaderCreationFlags,
    ends: FieldEnds,
) -> OuterHeaderCreation
    requires ends_value { ends ≡ ends_of (asked description) }
    requires rising { Rising ends }
    requires stag_in_bounds { ends.stag ≤ length payload.now }
    ensures { result ≡ record_with description payload.now }
{
    OuterHeaderCreation {
        description,
        teid: teid_of(&payload[2..ends.teid]),
        ipv4_address: octets::address(&payload[ends.teid..ends.ipv4]),
        ipv6_address: octets::address(&payload[ends.ipv4..ends.ipv6]),
        port_number: octets::u16_of(&payload[ends.ipv6..ends.port]),
        ctag: octets::u32_of(&payload[ends.port..ends.ctag]),
        stag: octets::u32_of(&payload[ends.ctag..ends.stag]),
    }
}

// A refused read.
fn refused(answer: Answer) -> Read<OuterHeaderCreation>
    ensures { result ≡ refused answer }
{
    Read::refused(
        answer,
        OuterHeaderCreation::new(OuterHeaderCreationFlags::EMPTY),
    )
}

impl OuterHeaderCreationFlags {
    pub const EMPTY: OuterHeaderCreationFlags = OuterHeaderCreationFlags {
        gtpu_udp_ipv4: false,
        gtpu_udp_ipv6: false,
        udp_ipv4: false,
        udp_ipv6: false,
        ipv4: false,
        ipv6: false,
        ctag: false,
        stag: false,
    };

    // The empty set.
    pub fn new() -> OuterHeaderCreationFlags
        ensures { result ≡ flags_of 0x00 }
    {
        OuterHeaderCreationFlags::EMPTY
    }

    // One constructor a flag, as rs-pfcp names them; those of records and the two tags below likewise.
    pub fn gtpu_ipv4() -> OuterHeaderCreationFlags
        ensures { result ≡ flags_of 0x01 }
    {
        OuterHeaderCreationFlags {
            gtpu_udp_ipv4: true,
            ..OuterHeaderCreationFlags::EMPTY
        }
    }

    pub fn gtpu_ipv6() -> OuterHeaderCreationFlags
        ensures { result ≡ flags_of 0x02 }
    {
        OuterHeaderCreationFlags {
            gtpu_udp_ipv6: true,
            ..OuterHeaderCreationFlags::EMPTY
        }
    }

    pub fn udp_ipv4() -> OuterHeaderCreationFlags
        ensures { result ≡ flags_of 0x04 }
    {
        OuterHeaderCreationFlags {
            udp_ipv4: true,
            ..OuterHeaderCreationFlags::EMPTY
        }
    }

    pub fn udp_ipv6() -> OuterHeaderCreationFlags
        ensures { result ≡ flags_of 0x08 }
    {
        OuterHeaderCreationFlags {
            udp_ipv6: true,
            ..OuterHeaderCreationFlags::EMPTY
        }
    }

    // The flags of byte 0.
    // Public under this name and under `byte`, with promises of their own; `From` below calls both.
    pub fn of(b: u8) -> OuterHeaderCreationFlags
        ensures { result ≡ flags_of b }
    {
        OuterHeaderCreationFlags {
            gtpu_udp_ipv4: octets::bit(b, 0),
            gtpu_udp_ipv6: octets::bit(b, 1),
            udp_ipv4: octets::bit(b, 2),
            udp_ipv6: octets::bit(b, 3),
            ipv4: octets::bit(b, 4),
            ipv6: octets::bit(b, 5),
            ctag: octets::bit(b, 6),
            stag: octets::bit(b, 7),
        }
    }

    // Byte 0 of the flags.
    pub fn byte(self) -> u8
        ensures { result ≡ byte_of self }
    {
        octets::flag_byte(
            self.gtpu_udp_ipv4,
            self.gtpu_udp_ipv6,
            self.udp_ipv4,
            self.udp_ipv6,
            self.ipv4,
            self.ipv6,
            self.ctag,
            self.stag,
        )
    }

    // The fields that the flags ask for.
    pub fn asked(self) -> SentFields
        ensures { result ≡ asked self }
    {
        SentFields {
            teid: octets::either(self.gtpu_udp_ipv4, self.gtpu_udp_ipv6),
            ipv4: octets::either(octets::either(self.gtpu_udp_ipv4, self.udp_ipv4), self.ipv4),
            ipv6: octets::either(octets::either(self.gtpu_udp_ipv6, self.udp_ipv6), self.ipv6),
            port: octets::either(self.udp_ipv4, self.udp_ipv6),
            ctag: self.ctag,
            stag: self.stag,
        }
    }
}

impl From<u8> for OuterHeaderCreationFlags {
    ghost from_gives = { λ byte flags. flags ≡ flags_of byte };

    fn from(byte: u8) -> OuterHeaderCreationFlags {
        OuterHeaderCreationFlags::of(byte)
    }
}

impl From<OuterHeaderCreationFlags> for u8 {
    ghost from_gives = { λ flags byte. byte ≡ byte_of flags };

    fn from(flags: OuterHeaderCreationFlags) -> u8 {
        flags.byte()
    }
}

impl OuterHeaderCreation {
    // How long the written forms of records that a reader gives are, at least and at most.
    pub const MIN_LEN: usize = 2;

    pub const MAX_LEN: usize = 34;

    // The second as a promise: a constant has none. `unmarshal` promises the first.
    pub fn max_len() -> usize
        ensures { result ≡ max_len }
    {
        OuterHeaderCreation::MAX_LEN
    }

    // The flags only.
    pub fn new(description: OuterHeaderCreationFlags) -> OuterHeaderCreation
        ensures { result ≡ bare description }
    {
        OuterHeaderCreation {
            description,
            teid: None,
            ipv4_address: None,
            ipv6_address: None,
            port_number: None,
            ctag: None,
            stag: None,
        }
    }

    pub fn gtpu_ipv4(teid: Teid, ipv4: [u8; 4]) -> OuterHeaderCreation
        ensures { result ≡ gtpu_ipv4 teid ipv4 }
    {
        OuterHeaderCreation {
            teid: Some(teid),
            ipv4_address: Some(ipv4),
            ..OuterHeaderCreation::new(OuterHeaderCreationFlags::gtpu_ipv4())
        }
    }

    pub fn gtpu_ipv6(teid: Teid, ipv6: [u8; 16]) -> OuterHeaderCreation
        ensures { result ≡ gtpu_ipv6 teid ipv6 }
    {
        OuterHeaderCreation {
            teid: Some(teid),
            ipv6_address: Some(ipv6),
            ..OuterHeaderCreation::new(OuterHeaderCreationFlags::gtpu_ipv6())
        }
    }

    pub fn udp_ipv4(ipv4: [u8; 4], port: u16) -> OuterHeaderCreation
        ensures { result ≡ udp_ipv4 ipv4 port }
    {
        OuterHeaderCreation {
            ipv4_address: Some(ipv4),
            port_number: Some(port),
            ..OuterHeaderCreation::new(OuterHeaderCreationFlags::udp_ipv4())
        }
    }

    // A tag sets its flag; its low 24 bits are kept.
    pub fn with_ctag(mut self, ctag: u32) -> OuterHeaderCreation
        ensures { result ≡ with_ctag self ctag }
    {
        self.description.ctag = true;
        self.ctag = Some(ctag % 16777216);
        self
    }

    pub fn with_stag(mut self, stag: u32) -> OuterHeaderCreation
        ensures { result ≡ with_stag self stag }
    {
        self.description.stag = true;
        self.stag = Some(stag % 16777216);
        self
    }

    pub fn unmarshal(payload: &[u8]) -> Read<OuterHeaderCreation>
        ensures { result ≡ read payload.now }
    {
        let n = payload.len();
        if 65535 < n {
            return refused(Answer::InputTooLong { length: n });
        }
        if n < OuterHeaderCreation::MIN_LEN {
            return refused(Answer::Short {
                field: 0,
                expected: OuterHeaderCreation::MIN_LEN,
                actual: n,
            });
        }
        let description = OuterHeaderCreationFlags::of(payload[0]);
        let sent = description.asked();
        let ends = sent.ends();
        if n < ends.stag {
            return refused(sent.answer(n));
        }
        Read {
            answer: Answer::Done,
            used: ends.stag,
            record: record_of(payload, description, ends),
        }
    }

    // The fields that are given.
    fn given(self) -> SentFields
        ensures { result ≡ given self }
    {
        SentFields {
            teid: self.teid.is_some(),
            ipv4: self.ipv4_address.is_some(),
            ipv6: self.ipv6_address.is_some(),
            port: self.port_number.is_some(),
            ctag: self.ctag.is_some(),
            stag: self.stag.is_some(),
        }
    }

    // What is written of a record: the fields that its flags ask for, TEID and port also where they are absent, as 0.
    fn sent(self) -> OuterHeaderCreation
        ensures { result ≡ sent self }
    {
        let asked = self.description.asked();
        OuterHeaderCreation {
            description: self.description,
            teid: asked.teid.then_some(self.teid.unwrap_or(Teid(0))),
            ipv4_address: self.ipv4_address.filter(|_| asked.ipv4),
            ipv6_address: self.ipv6_address.filter(|_| asked.ipv6),
            port_number: asked.port.then_some(self.port_number.unwrap_or(0)),
            ctag: self.ctag.filter(|_| asked.ctag),
            stag: self.stag.filter(|_| asked.stag),
        }
    }

    pub fn marshal(self, out: &mut [u8]) -> Written
        ensures value { result ≡ written (length (wire (meaning self))) (length out.old) }
        ensures out_after { out.new ≡ put out.old 0 (wire (meaning self)) }
    {
        let sent = self.sent();
        let ends = sent.given().ends();
        let len = ends.stag;
        if out.len() < len {
            return Written {
                answer: Answer::NoRoom { needed: len },
                len: 0,
            };
        }
        octets::put_byte(out, 0, sent.description.byte());
        octets::put_byte(out, 1, 0);
        octets::put_number_if(out, 2, 4, sent.teid.map(|teid| teid.0 as u64));
        octets::put_address(out, ends.teid, sent.ipv4_address);
        octets::put_address(out, ends.ipv4, sent.ipv6_address);
        octets::put_number_if(out, ends.ipv6, 2, sent.port_number.map(u64::from));
        octets::put_number_if(out, ends.port, 3, sent.ctag.map(u64::from));
        octets::put_number_if(out, ends.ctag, 3, sent.stag.map(u64::from));
        Written {
            answer: Answer::Done,
            len,
        }
    }
}
