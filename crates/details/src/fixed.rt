// The rows of records of fixed fields.
ghost use Rattle.std.specs.Prelude.{◌≡◌};
ghost use Rattle.details.specs.Fixed.{ue_ip_address_values, f_teid_values, fseid_values, outer_header_creation_values, header_values};

use f_teid::Fteid;
use fseid::Fseid;
use header::Header;
use outer_header_creation::OuterHeaderCreation;
use rows::Value;
use ue_ip_address::UeIpAddress;

// Each row begins with what was counted, and with the written form, which stands at the front of the row's slice.
pub const UE_IP_ADDRESS: [u8; 82] =
    *b"0 # # | rec=U v6=# v4=# sd=# ip6d=# chv4=# chv6=# ip6pl=# ipv4=# ipv6=# db=# pl=#\n";

pub const F_TEID: [u8; 63] = *b"0 # # | rec=F v4=# v6=# ch=# chid=# teid=# ipv4=# ipv6=# cid=#\n";

pub const FSEID: [u8; 45] = *b"0 # # | rec=S v6=# v4=# seid=# ipv4=# ipv6=#\n";

pub const OUTER_HEADER_CREATION: [u8; 64] =
    *b"0 # # | rec=O flags=# teid=# ipv4=# ipv6=# port=# ctag=# stag=#\n";

pub const HEADER: [u8; 67] =
    *b"0 # # | rec=H ver=# fo=# mp=# s=# type=# len=# seid=# seq=# prio=#\n";

pub fn ue_ip_address(record: UeIpAddress, count: usize, len: usize) -> [Value; 13]
    ensures { result ≡ ue_ip_address_values «record» count len }
{
    [
        rows::count(count),
        rows::front(Some(len)),
        rows::flag(record.v6),
        rows::flag(record.v4),
        rows::flag(record.source_destination),
        rows::flag(record.ipv6_prefix_delegation),
        rows::flag(record.choose_ipv4),
        rows::flag(record.choose_ipv6),
        rows::flag(record.ipv6_prefix_length_present),
        rows::ipv4(record.ipv4_address),
        rows::ipv6(record.ipv6_address),
        rows::number(1, record.ipv6_prefix_delegation_bits.map(u64::from)),
        rows::number(1, record.ipv6_prefix_length.map(u64::from)),
    ]
}

pub fn f_teid(record: Fteid, count: usize, len: usize) -> [Value; 10]
    ensures { result ≡ f_teid_values «record» count len }
{
    [
        rows::count(count),
        rows::front(Some(len)),
        rows::flag(record.v4),
        rows::flag(record.v6),
        rows::flag(record.ch),
        rows::flag(record.chid),
        rows::number(4, Some(record.teid.value() as u64)),
        rows::ipv4(record.ipv4_address),
        rows::ipv6(record.ipv6_address),
        rows::number(1, Some(record.choose_id as u64)),
    ]
}

pub fn fseid(record: Fseid, count: usize, len: usize) -> [Value; 7]
    ensures { result ≡ fseid_values «record» count len }
{
    [
        rows::count(count),
        rows::front(Some(len)),
        rows::flag(record.v6),
        rows::flag(record.v4),
        rows::number(8, Some(record.seid.value())),
        rows::ipv4(record.ipv4_address),
        rows::ipv6(record.ipv6_address),
    ]
}

pub fn outer_header_creation(record: OuterHeaderCreation, count: usize, len: usize) -> [Value; 9]
    ensures { result ≡ outer_header_creation_values «record» count len }
{
    [
        rows::count(count),
        rows::front(Some(len)),
        rows::number(1, Some(record.description.byte() as u64)),
        rows::number(4, record.teid.map(|teid| teid.value() as u64)),
        rows::ipv4(record.ipv4_address),
        rows::ipv6(record.ipv6_address),
        rows::number(2, record.port_number.map(u64::from)),
        rows::number(4, record.ctag.map(u64::from)),
        rows::number(4, record.stag.map(u64::from)),
    ]
}

pub fn header(record: Header, count: usize, len: usize) -> [Value; 11]
    ensures { result ≡ header_values «record» count len }
{
    [
        rows::count(count),
        rows::front(Some(len)),
        rows::number(1, Some(record.version as u64)),
        rows::flag(record.has_fo),
        rows::flag(record.has_mp),
        rows::flag(record.has_seid),
        rows::number(1, Some(record.message_type as u64)),
        rows::number(2, Some(record.length as u64)),
        rows::number(8, Some(record.seid.value())),
        rows::number(4, Some(record.sequence_number.value() as u64)),
        rows::number(1, Some(record.message_priority as u64)),
    ]
}
