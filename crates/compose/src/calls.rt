// The calls of record lines, and the keys that each takes.
use crate::keys::{
    AFD, AFD_ENTRY, BRIEF, CH4, CH6, CHDUAL, CID, CTAG, DB, DN, DNP, DUAL, FD, FLAGS, NAME, PL,
    PORT, ROOM, SEID, SLICE, STAG, TEID, URL, V4, V6,
};
use crate::seen::Seen;

// A call is the letter of its record, with the name of a constructor or a builder's `build` behind it where it has one.
#[derive(Clone, Copy, PartialEq, Eq)]
pub(crate) enum Call {
    U,
    UNew,
    UChoose,
    F,
    FNew,
    FNewWithChoose,
    FIpv4,
    FIpv6,
    FDualStack,
    FChooseIpv4,
    FChooseIpv6,
    FChooseDualStack,
    FBuild,
    S,
    SNew,
    N,
    NNewIpv4,
    NNewIpv6,
    NNewFqdn,
    NRaw,
    NRead,
    O,
    ONew,
    OGtpuIpv4,
    OGtpuIpv6,
    OUdpIpv4,
    OFlagsNew,
    OFlagsDefault,
    OFlagsGtpuIpv4,
    OFlagsGtpuIpv6,
    OFlagsUdpIpv4,
    OFlagsUdpIpv6,
    P,
    PBuild,
    PRaw,
    PRawBuild,
    PRead,
    PFlowDescription,
    PUrl,
    PDomainName,
    PFlowAndUrl,
    PDomainAndProtocol,
}

// The call that a line begins with.
pub(crate) fn call_of(line: &[u8]) -> Option<Call> {
    match words::head(line) {
        b"U" => Some(Call::U),
        b"U.new" => Some(Call::UNew),
        b"U.choose" => Some(Call::UChoose),
        b"F" => Some(Call::F),
        b"F.new" => Some(Call::FNew),
        b"F.new_with_choose" => Some(Call::FNewWithChoose),
        b"F.ipv4" => Some(Call::FIpv4),
        b"F.ipv6" => Some(Call::FIpv6),
        b"F.dual_stack" => Some(Call::FDualStack),
        b"F.choose_ipv4" => Some(Call::FChooseIpv4),
        b"F.choose_ipv6" => Some(Call::FChooseIpv6),
        b"F.choose_dual_stack" => Some(Call::FChooseDualStack),
        b"F.build" => Some(Call::FBuild),
        b"S" => Some(Call::S),
        b"S.new" => Some(Call::SNew),
        b"N" => Some(Call::N),
        b"N.new_ipv4" => Some(Call::NNewIpv4),
        b"N.new_ipv6" => Some(Call::NNewIpv6),
        b"N.new_fqdn" => Some(Call::NNewFqdn),
        b"N.raw" => Some(Call::NRaw),
        b"N.read" => Some(Call::NRead),
        b"O" => Some(Call::O),
        b"O.new" => Some(Call::ONew),
        b"O.gtpu_ipv4" => Some(Call::OGtpuIpv4),
        b"O.gtpu_ipv6" => Some(Call::OGtpuIpv6),
        b"O.udp_ipv4" => Some(Call::OUdpIpv4),
        b"O.flags.new" => Some(Call::OFlagsNew),
        b"O.flags.default" => Some(Call::OFlagsDefault),
        b"O.flags.gtpu_ipv4" => Some(Call::OFlagsGtpuIpv4),
        b"O.flags.gtpu_ipv6" => Some(Call::OFlagsGtpuIpv6),
        b"O.flags.udp_ipv4" => Some(Call::OFlagsUdpIpv4),
        b"O.flags.udp_ipv6" => Some(Call::OFlagsUdpIpv6),
        b"P" => Some(Call::P),
        b"P.build" => Some(Call::PBuild),
        b"P.raw" => Some(Call::PRaw),
        b"P.raw_build" => Some(Call::PRawBuild),
        b"P.read" => Some(Call::PRead),
        b"P.flow_description" => Some(Call::PFlowDescription),
        b"P.url" => Some(Call::PUrl),
        b"P.domain_name" => Some(Call::PDomainName),
        b"P.flow_and_url" => Some(Call::PFlowAndUrl),
        b"P.domain_and_protocol" => Some(Call::PDomainAndProtocol),
        _ => None,
    }
}

// Whether the texts of a call are given by their places in a slice.
pub(crate) fn has_places(call: Call) -> bool {
    match call {
        Call::NRaw | Call::PRaw | Call::PRawBuild => true,
        _ => false,
    }
}

// Keys as bits: those of PFD Contents' texts, lists and entries; addresses, tags, and what goes with places.
const TEXTS: u32 = 0b11111;

const FIELD_LISTS: u32 = 0b111 << AFD;

const CALLED: u32 = TEXTS | FIELD_LISTS | 0b111 << AFD_ENTRY;

const PLAIN: u32 = TEXTS | FIELD_LISTS | 1 << FLAGS;

const BOTH: u32 = 1 << V4 | 1 << V6;

const TAGS: u32 = 1 << CTAG | 1 << STAG;

const LENT: u32 = 1 << SLICE | 1 << ROOM | 1 << BRIEF;

const READ: u32 = 1 << SLICE | 1 << BRIEF;

const U_KEYS: u32 = 1 << FLAGS | BOTH | 1 << DB | 1 << PL;

const F_KEYS: u32 = 1 << FLAGS | 1 << TEID | BOTH | 1 << CID;

const CHOICES: u32 = 1 << CH4 | 1 << CH6;

const F_CALLS: u32 = 1 << TEID | BOTH | 1 << CID | CHOICES | 1 << CHDUAL | 1 << DUAL;

const S_KEYS: u32 = 1 << SEID | BOTH;

const O_KEYS: u32 = 1 << FLAGS | 1 << TEID | BOTH | 1 << PORT | TAGS;

// The keys that a call needs, those that it takes besides, those that it takes again and again, and the greatest flags.
#[derive(Clone, Copy)]
struct Keys(u32, u32, u32, usize);

fn keys_of(call: Call) -> Keys {
    match call {
        Call::U => Keys(0, U_KEYS, 0, 0x7F),
        Call::UNew => Keys(0, BOTH, 0, 0),
        Call::UChoose => Keys(0, CHOICES, 0, 0),
        Call::F => Keys(0, F_KEYS, 0, 0x0F),
        Call::FNew => Keys(0, F_KEYS, 0, 0x03),
        Call::FNewWithChoose => Keys(0, F_KEYS, 0, 0x0F),
        Call::FIpv4 => Keys(1 << V4, 1 << TEID, 0, 0),
        Call::FIpv6 => Keys(1 << V6, 1 << TEID, 0, 0),
        Call::FDualStack => Keys(BOTH, 1 << TEID, 0, 0),
        Call::FChooseIpv4 | Call::FChooseIpv6 | Call::FChooseDualStack => Keys(0, 1 << TEID, 0, 0),
        Call::FBuild => Keys(0, F_CALLS, F_CALLS, 0),
        Call::S => Keys(0, 1 << FLAGS | S_KEYS, 0, 0x03),
        Call::SNew => Keys(0, S_KEYS, 0, 0),
        Call::N => Keys(0, BOTH | 1 << NAME, 0, 0),
        Call::NNewIpv4 => Keys(1 << V4, 0, 0, 0),
        Call::NNewIpv6 => Keys(1 << V6, 0, 0, 0),
        Call::NNewFqdn => Keys(1 << NAME, 0, 0, 0),
        Call::NRaw => Keys(1 << NAME, LENT, 0, 0),
        Call::NRead => Keys(0, READ, 0, 0),
        Call::O => Keys(0, O_KEYS, 0, 0xFF),
        Call::ONew => Keys(1 << FLAGS, TAGS, 0, 0xFF),
        Call::OGtpuIpv4 => Keys(1 << TEID | 1 << V4, TAGS, 0, 0),
        Call::OGtpuIpv6 => Keys(1 << TEID | 1 << V6, TAGS, 0, 0),
        Call::OUdpIpv4 => Keys(1 << V4 | 1 << PORT, TAGS, 0, 0),
        Call::OFlagsNew
        | Call::OFlagsDefault
        | Call::OFlagsGtpuIpv4
        | Call::OFlagsGtpuIpv6
        | Call::OFlagsUdpIpv4
        | Call::OFlagsUdpIpv6 => Keys(0, 0, 0, 0),
        Call::P => Keys(0, PLAIN, 0, 0xFF),
        Call::PBuild => Keys(0, CALLED, CALLED, 0),
        Call::PRaw => Keys(0, PLAIN | LENT, 0, 0xFF),
        Call::PRawBuild => Keys(0, CALLED | LENT, CALLED, 0),
        Call::PRead => Keys(0, READ, 0, 0),
        Call::PFlowDescription => Keys(1 << FD, 0, 0, 0),
        Call::PUrl => Keys(1 << URL, 0, 0, 0),
        Call::PDomainName => Keys(1 << DN, 0, 0, 0),
        Call::PFlowAndUrl => Keys(1 << FD | 1 << URL, 0, 0, 0),
        Call::PDomainAndProtocol => Keys(1 << DN | 1 << DNP, 0, 0, 0),
    }
}

// Whether a call takes what a line has, and its flags.
pub(crate) fn is_taken(call: Call, seen: Seen, flags: usize) -> bool {
    let row = keys_of(call);
    let taken = row.0 | row.1;
    if seen.keys & row.0 != row.0 {
        return false;
    }
    if seen.keys | taken != taken {
        return false;
    }
    if seen.again | row.2 != row.2 {
        return false;
    }
    if row.3 < flags {
        return false;
    }
    // A plain Node ID has just one key.
    if octets::both(call == Call::N, u32::count_ones(seen.keys) != 1) {
        return false;
    }
    true
}
