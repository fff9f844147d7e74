// The F-TEID payload: a tunnel endpoint identifier with its addresses, or a request to choose them; and its builder.
#![tactic(auto)]

ghost use Rattle.std.specs.Prelude.{◌≡◌, true, false, length, get_or};
ghost use Rattle.octets.specs.Octets.{bit, put};
ghost use Rattle.answer.specs.Paper.{written};
ghost use Rattle.f_teid.specs.Fteid.{meaning, wire, max_len, read, refused, empty, made, made_with_choose, of_choice};
ghost use Rattle.f_teid.specs.Builder.{fresh, with_teid, with_addresses, with_choices, with_choose_id, broken, built};

use answer::{Answer, Built, Read, Written};
use kind::Payload;
use types::Teid;

#[derive(Clone, Copy)]
pub struct Fteid {
    pub v4: bool,
    pub v6: bool,
    pub ch: bool,
    pub chid: bool,
    pub teid: Teid,
    pub ipv4_address: Option<[u8; 4]>,
    pub ipv6_address: Option<[u8; 16]>,
    // No `Option`: it is a byte of the record as in rs-pfcp, and counts only with CHID, which is a flag of its own.
    pub choose_id: u8,
}

// What a record is built from: the last setting of each field stands.
#[derive(Clone, Copy)]
pub struct FteidBuilder {
    teid: Option<Teid>,
    ipv4_address: Option<[u8; 4]>,
    ipv6_address: Option<[u8; 16]>,
    choose_ipv4: bool,
    choose_ipv6: bool,
    choose_id: Option<u8>,
}

// Where the TEID ends, without CH.
const TEID_END: usize = Fteid::MIN_LEN + 4;

// The record of a refusal.
fn empty() -> Fteid
    ensures { result ≡ empty }
{
    Fteid::new(false, false, Teid(0), None, None, 0)
}

// A refused read.
#[tactic(auto, unfolding(crate::specs::Fteid::refused))]
fn refused(answer: Answer) -> Read<Fteid>
    ensures { result ≡ refused answer }
{
    Read::refused(answer, empty())
}

// Reads a payload with CH: the choose ID at most, since the TEID and the addresses are still to be chosen.
fn read_chosen(payload: Payload<1>) -> Read<Fteid>
    requires { bit 2 (get_or payload.bytes.now 0 0) ≡ true }
    ensures { result ≡ read payload.entry.bytes.now }
{
    let bytes = payload.bytes;
    let n = bytes.len();
    let flags = bytes[0];
    let v4 = octets::bit(flags, 0);
    let v6 = octets::bit(flags, 1);
    let chid = octets::bit(flags, 3);
    let end = 1 + octets::if_set(chid, 1);
    if n < end {
        return refused(Answer::Short {
            field: 5,
            expected: end,
            actual: n,
        });
    }
    let choose_id = octets::number(&bytes[1..end]) as u8;
    Read {
        answer: Answer::Done,
        used: end,
        record: Fteid {
            v4,
            v6,
            ch: true,
            chid,
            teid: Teid(0),
            ipv4_address: None,
            ipv6_address: None,
            choose_id,
        },
    }
}

// Reads a payload without CH and CHID: the TEID, and the addresses under their flags.
// F-SEID's addresses are read alike. One function for both would be no plainer: for two tests and two calls it would take a place and
// both flags, and hand back both addresses with their end, or a refusal.
fn read_concrete(payload: Payload<1>) -> Read<Fteid>
    requires no_ch { bit 2 (get_or payload.bytes.now 0 0) ≡ false }
    requires no_chid { bit 3 (get_or payload.bytes.now 0 0) ≡ false }
    ensures { result ≡ read payload.entry.bytes.now }
{
    let bytes = payload.bytes;
    let n = bytes.len();
    if n < TEID_END {
        return refused(Answer::Short {
            field: 0,
            expected: TEID_END,
            actual: n,
        });
    }
    let flags = bytes[0];
    let v4 = octets::bit(flags, 0);
    let v6 = octets::bit(flags, 1);
    let end4 = TEID_END + octets::if_set(v4, 4);
    if n < end4 {
        return refused(Answer::Short {
            field: 1,
            expected: end4,
            actual: n,
        });
    }
    let end6 = end4 + octets::if_set(v6, 16);
    if n < end6 {
        return refused(Answer::Short {
            field: 2,
            expected: end6,
            actual: n,
        });
    }
    let teid = octets::number(&bytes[1..TEID_END]) as u32;
    let ipv4_address = octets::address(&bytes[TEID_END..end4]);
    let ipv6_address = octets::address(&bytes[end4..end6]);
    Read {
        answer: Answer::Done,
        used: end6,
        record: Fteid {
            v4,
            v6,
            ch: false,
            chid: false,
            teid: Teid(teid),
            ipv4_address,
            ipv6_address,
            choose_id: 0,
        },
    }
}

// Writes a record with CH: the flags, and the choose ID if CHID.
fn write_chosen(r: Fteid, out: &mut [u8]) -> Written
    requires { r.ch ≡ true }
    ensures value { result ≡ written (length (wire (meaning r))) (length out.old) }
    ensures out_after { out.new ≡ put out.old 0 (wire (meaning r)) }
{
    let end = 1 + octets::if_set(r.chid, 1);
    if out.len() < end {
        return Written {
            answer: Answer::NoRoom { needed: end },
            len: 0,
        };
    }
    let choose_flags = octets::flag_byte(r.v4, r.v6, true, r.chid, false, false, false, false);
    octets::put_byte(out, 0, choose_flags);
    octets::put_number_if(out, 1, 1, r.chid.then_some(r.choose_id as u64));
    Written {
        answer: Answer::Done,
        len: end,
    }
}

// Writes a record without CH: the flags, the TEID and the addresses that are given.
fn write_concrete(r: Fteid, out: &mut [u8]) -> Written
    requires { r.ch ≡ false }
    ensures value { result ≡ written (length (wire (meaning r))) (length out.old) }
    ensures out_after { out.new ≡ put out.old 0 (wire (meaning r)) }
{
    let ipv4_address = r.ipv4_address;
    let ipv6_address = r.ipv6_address;
    let end4 = TEID_END + octets::if_set(ipv4_address.is_some(), 4);
    let end6 = end4 + octets::if_set(ipv6_address.is_some(), 16);
    if out.len() < end6 {
        return Written {
            answer: Answer::NoRoom { needed: end6 },
            len: 0,
        };
    }
    let flags = octets::flag_byte(r.v4, r.v6, false, false, false, false, false, false);
    octets::put_byte(out, 0, flags);
    octets::put_number(out, 1, 4, r.teid.0 as u64);
    octets::put_address(out, TEID_END, ipv4_address);
    octets::put_address(out, end4, ipv6_address);
    Written {
        answer: Answer::Done,
        len: end6,
    }
}

impl Fteid {
    // How long the written forms of records that a reader gives are, at least and at most.
    pub const MIN_LEN: usize = 1;

    pub const MAX_LEN: usize = 25;

    // The second as a promise: a constant has none. `unmarshal` promises the first.
    pub fn max_len() -> usize
        ensures { result ≡ max_len }
    {
        Fteid::MAX_LEN
    }

    // CH, CHID and the choose ID are off: the last argument doesn't count.
    pub fn new(
        v4: bool,
        v6: bool,
        teid: Teid,
        ipv4_address: Option<[u8; 4]>,
        ipv6_address: Option<[u8; 16]>,
        _choose_id: u8,
    ) -> Fteid
        ensures { result ≡ made v4 v6 teid ipv4_address ipv6_address }
    {
        Fteid {
            v4,
            v6,
            ch: false,
            chid: false,
            teid,
            ipv4_address,
            ipv6_address,
            choose_id: 0,
        }
    }

    // With CH the TEID and the addresses are dropped; CHID stands only with CH, the choose ID only with both.
    pub fn new_with_choose(
        v4: bool,
        v6: bool,
        ch: bool,
        chid: bool,
        teid: Teid,
        ipv4_address: Option<[u8; 4]>,
        ipv6_address: Option<[u8; 16]>,
        choose_id: u8,
    ) -> Fteid
        ensures { result ≡ made_with_choose v4 v6 ch chid teid ipv4_address ipv6_address choose_id }
    {
        if !ch {
            return Fteid::new(v4, v6, teid, ipv4_address, ipv6_address, 0);
        }
        Fteid {
            v4,
            v6,
            ch: true,
            chid,
            teid: Teid(0),
            ipv4_address: None,
            ipv6_address: None,
            choose_id: if chid { choose_id } else { 0 },
        }
    }

    pub fn unmarshal(payload: &[u8]) -> Read<Fteid>
        ensures { result ≡ read payload.now }
    {
        let n = payload.len();
        if 65535 < n {
            return refused(Answer::InputTooLong { length: n });
        }
        if n < Fteid::MIN_LEN {
            return refused(Answer::Short {
                field: 0,
                expected: Fteid::MIN_LEN,
                actual: n,
            });
        }
        let flags = payload[0];
        let payload = Payload { bytes: payload };
        if octets::bit(flags, 2) {
            return read_chosen(payload);
        }
        if octets::bit(flags, 3) {
            return refused(Answer::Flags {
                byte: flags,
                rule: 4,
            });
        }
        read_concrete(payload)
    }

    pub fn marshal(self, out: &mut [u8]) -> Written
        ensures value { result ≡ written (length (wire (meaning self))) (length out.old) }
        ensures out_after { out.new ≡ put out.old 0 (wire (meaning self)) }
    {
        if self.ch {
            return write_chosen(self, out);
        }
        write_concrete(self, out)
    }

    pub fn builder() -> FteidBuilder
        ensures { result ≡ fresh }
    {
        FteidBuilder::new()
    }

    // The ready-made records: what the builder makes of the same settings.
    // One function a record, as rs-pfcp names them; the setters of the builder likewise.
    pub fn ipv4(teid: Teid, addr: [u8; 4]) -> Fteid
        ensures { result ≡ made true false teid (Some addr) None }
    {
        Fteid::new(true, false, teid, Some(addr), None, 0)
    }

    pub fn ipv6(teid: Teid, addr: [u8; 16]) -> Fteid
        ensures { result ≡ made false true teid None (Some addr) }
    {
        Fteid::new(false, true, teid, None, Some(addr), 0)
    }

    pub fn dual_stack(teid: Teid, ipv4: [u8; 4], ipv6: [u8; 16]) -> Fteid
        ensures { result ≡ made true true teid (Some ipv4) (Some ipv6) }
    {
        Fteid::new(true, true, teid, Some(ipv4), Some(ipv6), 0)
    }

    // A choice has no TEID: the argument doesn't count.
    pub fn choose_ipv4(_teid: Teid) -> Fteid
        ensures { result ≡ of_choice true false }
    {
        of_choice(true, false)
    }

    pub fn choose_ipv6(_teid: Teid) -> Fteid
        ensures { result ≡ of_choice false true }
    {
        of_choice(false, true)
    }

    pub fn choose_dual_stack(_teid: Teid) -> Fteid
        ensures { result ≡ of_choice true true }
    {
        of_choice(true, true)
    }
}

// A record of a choice alone.
fn of_choice(v4: bool, v6: bool) -> Fteid
    ensures { result ≡ of_choice v4 v6 }
{
    Fteid::new_with_choose(v4, v6, true, false, Teid(0), None, None, 0)
}

// The first rule that a builder breaks.
fn broken(b: FteidBuilder) -> Option<u8>
    ensures { result ≡ broken b }
{
    let v4 = b.ipv4_address.is_some();
    let v6 = b.ipv6_address.is_some();
    let address = octets::either(v4, v6);
    let choice = octets::either(b.choose_ipv4, b.choose_ipv6);
    if octets::both(v4, b.choose_ipv4) {
        return Some(1);
    }
    if octets::both(v6, b.choose_ipv6) {
        return Some(2);
    }
    if !octets::either(address, choice) {
        return Some(3);
    }
    if octets::both(b.choose_id.is_some(), !choice) {
        return Some(4);
    }
    if !octets::either(b.teid.is_some(), choice) {
        return Some(5);
    }
    None
}

impl FteidBuilder {
    pub fn new() -> FteidBuilder
        ensures { result ≡ fresh }
    {
        FteidBuilder {
            teid: None,
            ipv4_address: None,
            ipv6_address: None,
            choose_ipv4: false,
            choose_ipv6: false,
            choose_id: None,
        }
    }

    pub fn teid(mut self, teid: Teid) -> FteidBuilder
        ensures { result ≡ with_teid self teid }
    {
        self.teid = Some(teid);
        self
    }

    pub fn ipv4(mut self, addr: [u8; 4]) -> FteidBuilder
        ensures { result ≡ with_addresses self (Some addr) self.ipv6_address }
    {
        self.ipv4_address = Some(addr);
        self
    }

    pub fn ipv6(mut self, addr: [u8; 16]) -> FteidBuilder
        ensures { result ≡ with_addresses self self.ipv4_address (Some addr) }
    {
        self.ipv6_address = Some(addr);
        self
    }

    pub fn dual_stack(mut self, ipv4: [u8; 4], ipv6: [u8; 16]) -> FteidBuilder
        ensures { result ≡ with_addresses self (Some ipv4) (Some ipv6) }
    {
        self.ipv4_address = Some(ipv4);
        self.ipv6_address = Some(ipv6);
        self
    }

    pub fn choose_ipv4(mut self) -> FteidBuilder
        ensures { result ≡ with_choices self true self.choose_ipv6 }
    {
        self.choose_ipv4 = true;
        self
    }

    pub fn choose_ipv6(mut self) -> FteidBuilder
        ensures { result ≡ with_choices self self.choose_ipv4 true }
    {
        self.choose_ipv6 = true;
        self
    }

    pub fn choose_dual_stack(mut self) -> FteidBuilder
        ensures { result ≡ with_choices self true true }
    {
        self.choose_ipv4 = true;
        self.choose_ipv6 = true;
        self
    }

    pub fn choose_id(mut self, id: u8) -> FteidBuilder
        ensures { result ≡ with_choose_id self id }
    {
        self.choose_id = Some(id);
        self
    }

    // The record, or the first rule that the settings break. With a choice there is no TEID.
    pub fn build(self) -> Built<Fteid>
        ensures { result ≡ built self }
    {
        if let Some(rule) = broken(self) {
            return Built {
                answer: Answer::Unbuilt { rule },
                record: empty(),
            };
        }
        let ch = octets::either(self.choose_ipv4, self.choose_ipv6);
        let teid = if ch {
            Teid(0)
        } else {
            self.teid.unwrap_or(Teid(0))
        };
        Built {
            answer: Answer::Done,
            record: Fteid {
                v4: octets::either(self.ipv4_address.is_some(), self.choose_ipv4),
                v6: octets::either(self.ipv6_address.is_some(), self.choose_ipv6),
                ch,
                chid: self.choose_id.is_some(),
                teid,
                ipv4_address: self.ipv4_address,
                ipv6_address: self.ipv6_address,
                choose_id: self.choose_id.unwrap_or(0),
            },
        }
    }
}
