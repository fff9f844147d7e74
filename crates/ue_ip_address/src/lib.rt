// The UE IP Address payload: a user's addresses, or the choice of them left to the user plane.
#![tactic(auto)]

ghost use Rattle.std.specs.Prelude.{◌≡◌, length};
ghost use Rattle.octets.specs.Octets.{put};
ghost use Rattle.answer.specs.Paper.{written};
ghost use Rattle.ue_ip_address.specs.UeIpAddress.{breaks_rule1, breaks_rule2, breaks_rule3, broken_rule, rule_of, made, choosing, meaning, wire, max_len, read, refused};

use answer::{Answer, Read, Written};

#[derive(Clone, Copy)]
pub struct UeIpAddress {
    pub v4: bool,
    pub v6: bool,
    pub source_destination: bool,
    pub ipv6_prefix_delegation: bool,
    pub choose_ipv4: bool,
    pub choose_ipv6: bool,
    pub ipv6_prefix_length_present: bool,
    pub ipv4_address: Option<[u8; 4]>,
    pub ipv6_address: Option<[u8; 16]>,
    pub ipv6_prefix_delegation_bits: Option<u8>,
    pub ipv6_prefix_length: Option<u8>,
}

// A refused read; each kind has an empty record of its own.
fn refused(answer: Answer) -> Read<UeIpAddress>
    ensures { result ≡ refused answer }
{
    Read::refused(answer, UeIpAddress::choose(false, false))
}

// Whether flags break rule 1: V4 with CHV4, or V6 with CHV6. Most have neither choice, and then one test is enough.
pub fn breaks_rule_1(flags: u8) -> bool
    ensures { result ≡ breaks_rule1 flags }
{
    let chv4 = octets::bit(flags, 4);
    let chv6 = octets::bit(flags, 5);
    if !octets::either(chv4, chv6) {
        return false;
    }
    let ipv4 = octets::both(octets::bit(flags, 1), chv4);
    let ipv6 = octets::both(octets::bit(flags, 0), chv6);
    octets::either(ipv4, ipv6)
}

// Rule 2: IPv6D with IP6PL.
pub fn breaks_rule_2(flags: u8) -> bool
    ensures { result ≡ breaks_rule2 flags }
{
    octets::both(octets::bit(flags, 3), octets::bit(flags, 6))
}

// Rule 3: either of these without V6 or CHV6.
pub fn breaks_rule_3(flags: u8) -> bool
    ensures { result ≡ breaks_rule3 flags }
{
    let prefixed = octets::either(octets::bit(flags, 3), octets::bit(flags, 6));
    let ipv6 = octets::either(octets::bit(flags, 0), octets::bit(flags, 5));
    octets::both(prefixed, !ipv6)
}

// The first rule that flags break.
fn broken_rule(flags: u8) -> Option<u8>
    ensures { result ≡ rule_of (broken_rule flags) }
{
    if breaks_rule_1(flags) {
        return Some(1);
    }
    if breaks_rule_2(flags) {
        return Some(2);
    }
    if breaks_rule_3(flags) {
        return Some(3);
    }
    None
}

impl UeIpAddress {
    // How long the written forms of records that a reader gives are, at least and at most.
    pub const MIN_LEN: usize = 1;

    pub const MAX_LEN: usize = 22;

    // The second as a promise: a constant has none. `unmarshal` promises the first.
    pub fn max_len() -> usize
        ensures { result ≡ max_len }
    {
        UeIpAddress::MAX_LEN
    }

    // V4 and V6 from the addresses given.
    pub fn new(ipv4_address: Option<[u8; 4]>, ipv6_address: Option<[u8; 16]>) -> UeIpAddress
        ensures { result ≡ made ipv4_address ipv6_address }
    {
        UeIpAddress {
            v4: ipv4_address.is_some(),
            v6: ipv6_address.is_some(),
            source_destination: false,
            ipv6_prefix_delegation: false,
            choose_ipv4: false,
            choose_ipv6: false,
            ipv6_prefix_length_present: false,
            ipv4_address,
            ipv6_address,
            ipv6_prefix_delegation_bits: None,
            ipv6_prefix_length: None,
        }
    }

    // No address yet: the user plane is to choose.
    pub fn choose(ipv4: bool, ipv6: bool) -> UeIpAddress
        ensures { result ≡ choosing ipv4 ipv6 }
    {
        UeIpAddress {
            choose_ipv4: ipv4,
            choose_ipv6: ipv6,
            ..UeIpAddress::new(None, None)
        }
    }

    pub fn unmarshal(payload: &[u8]) -> Read<UeIpAddress>
        ensures { result ≡ read payload.now }
    {
        let n = payload.len();
        if 65535 < n {
            return refused(Answer::InputTooLong { length: n });
        }
        if n < UeIpAddress::MIN_LEN {
            return refused(Answer::Short {
                field: 0,
                expected: UeIpAddress::MIN_LEN,
                actual: n,
            });
        }
        let flags = payload[0];
        if let Some(rule) = broken_rule(flags) {
            return refused(Answer::Flags { byte: flags, rule });
        }
        let v4 = octets::bit(flags, 1);
        let end4 = UeIpAddress::MIN_LEN + octets::if_set(v4, 4);
        if n < end4 {
            return refused(Answer::Short {
                field: 1,
                expected: end4,
                actual: n,
            });
        }
        let v6 = octets::bit(flags, 0);
        let end6 = end4 + octets::if_set(v6, 16);
        if n < end6 {
            return refused(Answer::Short {
                field: 2,
                expected: end6,
                actual: n,
            });
        }
        let ipv6d = octets::bit(flags, 3);
        let end_bits = end6 + octets::if_set(ipv6d, 1);
        if n < end_bits {
            return refused(Answer::Short {
                field: 3,
                expected: end_bits,
                actual: n,
            });
        }
        let ip6pl = octets::bit(flags, 6);
        let end = end_bits + octets::if_set(ip6pl, 1);
        if n < end {
            return refused(Answer::Short {
                field: 4,
                expected: end,
                actual: n,
            });
        }
        Read {
            answer: Answer::Done,
            used: end,
            record: UeIpAddress {
                v4,
                v6,
                source_destination: octets::bit(flags, 2),
                ipv6_prefix_delegation: ipv6d,
                choose_ipv4: octets::bit(flags, 4),
                choose_ipv6: octets::bit(flags, 5),
                ipv6_prefix_length_present: ip6pl,
                ipv4_address: octets::address(&payload[1..end4]),
                ipv6_address: octets::address(&payload[end4..end6]),
                ipv6_prefix_delegation_bits: octets::u8_of(&payload[end6..end_bits]),
                ipv6_prefix_length: octets::u8_of(&payload[end_bits..end]),
            },
        }
    }

    pub fn marshal(self, out: &mut [u8]) -> Written
        ensures value { result ≡ written (length (wire (meaning self))) (length out.old) }
        ensures out_after { out.new ≡ put out.old 0 (wire (meaning self)) }
    {
        let ipv4_address = self.ipv4_address;
        let ipv6_address = self.ipv6_address;
        let bits = self.ipv6_prefix_delegation_bits;
        let prefix = self.ipv6_prefix_length;
        let end4 = UeIpAddress::MIN_LEN + octets::if_set(ipv4_address.is_some(), 4);
        let end6 = end4 + octets::if_set(ipv6_address.is_some(), 16);
        let end_bits = end6 + octets::if_set(bits.is_some(), 1);
        let end = end_bits + octets::if_set(prefix.is_some(), 1);
        if out.len() < end {
            return Written {
                answer: Answer::NoRoom { needed: end },
                len: 0,
            };
        }
        // Cut to what is written, with the last byte put at its end: that leaves registers enough to hold the addresses, so that none
        // stands on the stack.
        let out = &mut out[..end];
        let flags = octets::flag_byte(
            self.v6,
            self.v4,
            self.source_destination,
            self.ipv6_prefix_delegation,
            self.choose_ipv4,
            self.choose_ipv6,
            self.ipv6_prefix_length_present,
            false,
        );
        octets::put_byte(out, 0, flags);
        octets::put_address(out, 1, ipv4_address);
        octets::put_address(out, end4, ipv6_address);
        octets::put_number_if(out, end6, 1, bits.map(u64::from));
        octets::put_number_if(out, end - 1, 1, prefix.map(u64::from));
        Written {
            answer: Answer::Done,
            len: end,
        }
    }
}
