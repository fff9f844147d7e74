// The records of fixed fields, as a line gives them or as its call makes them.
use crate::calls::Call;
use crate::keys;
use crate::seen::{Seen, V6_LOW, Values};
use f_teid::Fteid;
use fseid::Fseid;
use outer_header_creation::{OuterHeaderCreation, OuterHeaderCreationFlags};
use types::{Seid, Teid};
use ue_ip_address::UeIpAddress;

pub(crate) fn to_u8(x: usize) -> u8 {
    (x % 256) as u8
}

fn to_u16(x: usize) -> u16 {
    (x % 65536) as u16
}

fn to_u32(x: usize) -> u32 {
    (x % 4294967296) as u32
}

pub(crate) fn to_teid(x: usize) -> Teid {
    Teid(to_u32(x))
}

pub(crate) fn to_ipv4(x: usize) -> [u8; 4] {
    let mut octets = [0u8; 4];
    octets::put_number(&mut octets, 0, 4, x as u64);
    octets
}

pub(crate) fn to_ipv6(high: usize, low: usize) -> [u8; 16] {
    let mut octets = [0u8; 16];
    octets::put_number(&mut octets, 0, 8, high as u64);
    octets::put_number(&mut octets, 8, 8, low as u64);
    octets
}

fn ipv4_of(seen: Seen, values: &Values) -> Option<[u8; 4]> {
    let octets = to_ipv4(values[keys::V4]);
    seen.has(keys::V4).then_some(octets)
}

fn ipv6_of(seen: Seen, values: &Values) -> Option<[u8; 16]> {
    let octets = to_ipv6(values[keys::V6], values[V6_LOW]);
    seen.has(keys::V6).then_some(octets)
}

// The number of a key, where the line has that.
fn number_of(seen: Seen, values: &Values, key: usize) -> Option<usize> {
    if !seen.has(key) {
        return None;
    }
    values.get(key).copied()
}

pub(crate) fn ue_ip_address(call: Call, seen: Seen, values: &Values) -> UeIpAddress {
    let ipv4_address = ipv4_of(seen, values);
    let ipv6_address = ipv6_of(seen, values);
    match call {
        Call::UNew => UeIpAddress::new(ipv4_address, ipv6_address),
        Call::UChoose => UeIpAddress::choose(seen.has(keys::CH4), seen.has(keys::CH6)),
        _ => {
            let flags = to_u8(values[keys::FLAGS]);
            UeIpAddress {
                v4: octets::bit(flags, 1),
                v6: octets::bit(flags, 0),
                source_destination: octets::bit(flags, 2),
                ipv6_prefix_delegation: octets::bit(flags, 3),
                choose_ipv4: octets::bit(flags, 4),
                choose_ipv6: octets::bit(flags, 5),
                ipv6_prefix_length_present: octets::bit(flags, 6),
                ipv4_address,
                ipv6_address,
                ipv6_prefix_delegation_bits: number_of(seen, values, keys::DB).map(to_u8),
                ipv6_prefix_length: number_of(seen, values, keys::PL).map(to_u8),
            }
        }
    }
}

pub(crate) fn fseid(call: Call, seen: Seen, values: &Values) -> Fseid {
    let seid = Seid(values[keys::SEID] as u64);
    let ipv4_address = ipv4_of(seen, values);
    let ipv6_address = ipv6_of(seen, values);
    let flags = to_u8(values[keys::FLAGS]);
    match call {
        Call::SNew => Fseid::new(seid, ipv4_address, ipv6_address),
        _ => Fseid {
            v6: octets::bit(flags, 0),
            v4: octets::bit(flags, 1),
            seid,
            ipv4_address,
            ipv6_address,
        },
    }
}

pub(crate) fn f_teid(call: Call, seen: Seen, values: &Values) -> Fteid {
    let teid = to_teid(values[keys::TEID]);
    let ipv4_address = ipv4_of(seen, values);
    let ipv6_address = ipv6_of(seen, values);
    let flags = to_u8(values[keys::FLAGS]);
    let choose_id = to_u8(values[keys::CID]);
    let v4 = octets::bit(flags, 0);
    let v6 = octets::bit(flags, 1);
    let ch = octets::bit(flags, 2);
    let chid = octets::bit(flags, 3);
    match call {
        Call::FNew => Fteid::new(v4, v6, teid, ipv4_address, ipv6_address, choose_id),
        Call::FNewWithChoose => Fteid::new_with_choose(
            v4,
            v6,
            ch,
            chid,
            teid,
            ipv4_address,
            ipv6_address,
            choose_id,
        ),
        Call::F => Fteid {
            v4,
            v6,
            ch,
            chid,
            teid,
            ipv4_address,
            ipv6_address,
            choose_id,
        },
        _ => short_f_teid(call, teid, values),
    }
}

fn short_f_teid(call: Call, teid: Teid, values: &Values) -> Fteid {
    let ipv4 = to_ipv4(values[keys::V4]);
    let ipv6 = to_ipv6(values[keys::V6], values[V6_LOW]);
    match call {
        Call::FIpv4 => Fteid::ipv4(teid, ipv4),
        Call::FIpv6 => Fteid::ipv6(teid, ipv6),
        Call::FDualStack => Fteid::dual_stack(teid, ipv4, ipv6),
        Call::FChooseIpv4 => Fteid::choose_ipv4(teid),
        Call::FChooseIpv6 => Fteid::choose_ipv6(teid),
        _ => Fteid::choose_dual_stack(teid),
    }
}

fn flag_set(call: Call) -> OuterHeaderCreationFlags {
    match call {
        Call::OFlagsNew => OuterHeaderCreationFlags::new(),
        Call::OFlagsGtpuIpv4 => OuterHeaderCreationFlags::gtpu_ipv4(),
        Call::OFlagsGtpuIpv6 => OuterHeaderCreationFlags::gtpu_ipv6(),
        Call::OFlagsUdpIpv4 => OuterHeaderCreationFlags::udp_ipv4(),
        Call::OFlagsUdpIpv6 => OuterHeaderCreationFlags::udp_ipv6(),
        _ => OuterHeaderCreationFlags::EMPTY,
    }
}

// A record with the tags of its line, in the order of the line.
fn with_tags(
    record: OuterHeaderCreation,
    ctag: Option<u32>,
    stag: Option<u32>,
    stag_first: bool,
) -> OuterHeaderCreation {
    if stag_first {
        let record = stag.map_or(record, |tag| record.with_stag(tag));
        return ctag.map_or(record, |tag| record.with_ctag(tag));
    }
    let record = ctag.map_or(record, |tag| record.with_ctag(tag));
    stag.map_or(record, |tag| record.with_stag(tag))
}

// The record of a constructor, before its tags.
fn constructed(call: Call, values: &Values) -> OuterHeaderCreation {
    let teid = to_teid(values[keys::TEID]);
    let ipv4 = to_ipv4(values[keys::V4]);
    let ipv6 = to_ipv6(values[keys::V6], values[V6_LOW]);
    match call {
        Call::ONew => OuterHeaderCreation::new(OuterHeaderCreationFlags::of(to_u8(
            values[keys::FLAGS],
        ))),
        Call::OGtpuIpv4 => OuterHeaderCreation::gtpu_ipv4(teid, ipv4),
        Call::OGtpuIpv6 => OuterHeaderCreation::gtpu_ipv6(teid, ipv6),
        Call::OUdpIpv4 => OuterHeaderCreation::udp_ipv4(ipv4, to_u16(values[keys::PORT])),
        _ => OuterHeaderCreation::new(flag_set(call)),
    }
}

pub(crate) fn outer_header_creation(
    call: Call,
    seen: Seen,
    values: &Values,
) -> OuterHeaderCreation {
    let ctag = number_of(seen, values, keys::CTAG).map(to_u32);
    let stag = number_of(seen, values, keys::STAG).map(to_u32);
    if call != Call::O {
        return with_tags(constructed(call, values), ctag, stag, seen.stag_first);
    }
    let ipv4_address = ipv4_of(seen, values);
    let ipv6_address = ipv6_of(seen, values);
    OuterHeaderCreation {
        description: OuterHeaderCreationFlags::of(to_u8(values[keys::FLAGS])),
        teid: number_of(seen, values, keys::TEID).map(to_teid),
        ipv4_address,
        ipv6_address,
        port_number: number_of(seen, values, keys::PORT).map(to_u16),
        ctag,
        stag,
    }
}
