// The row of a record line: a call, and words behind it.
use crate::calls::Call;
use crate::seen::{Seen, Values};
use crate::{calls, f_teid_line, fixed, fixed_rows, keys, node_id_line, pfd_line, seen};
use f_teid::Fteid;
use fseid::Fseid;
use outer_header_creation::OuterHeaderCreation;
use ue_ip_address::UeIpAddress;

// How many bytes a good line has at most, as many as a payload line.
pub(crate) const LONGEST: usize = 131202;

pub(crate) fn put(out: &mut [u8], at: usize, line: &[u8], texts: &mut [u8]) -> usize {
    // A letter alone is no record.
    if line.len() < 2 {
        return rows::put_other(out, at);
    }
    if LONGEST < line.len() {
        return rows::put_other(out, at);
    }
    let Some(call) = calls::call_of(line) else {
        return rows::put_other(out, at);
    };
    let mut values = [0usize; 32];
    values[keys::ROOM] = 65535;
    let Some(seen) = seen::look(line, calls::has_places(call), texts, &mut values) else {
        return rows::put_other(out, at);
    };
    if !calls::is_taken(call, seen, values[keys::FLAGS]) {
        return rows::put_other(out, at);
    }
    put_row(out, at, line, call, seen, &values, texts)
}

// The row of a good line, by its call.
fn put_row(
    out: &mut [u8],
    at: usize,
    line: &[u8],
    call: Call,
    seen: Seen,
    values: &Values,
    texts: &mut [u8],
) -> usize {
    match call {
        Call::FBuild => f_teid_line::put(out, at, line),
        Call::N | Call::NNewIpv4 | Call::NNewIpv6 | Call::NNewFqdn | Call::NRaw | Call::NRead =>
            node_id_line::put(out, at, call, seen, values, texts),
        Call::P
        | Call::PBuild
        | Call::PRaw
        | Call::PRawBuild
        | Call::PRead
        | Call::PFlowDescription
        | Call::PUrl
        | Call::PDomainName
        | Call::PFlowAndUrl
        | Call::PDomainAndProtocol => pfd_line::put(out, at, line, call, seen, values, texts),
        _ => put_fixed(out, at, call, seen, values),
    }
}

// The row of a record of fixed fields.
fn put_fixed(out: &mut [u8], at: usize, call: Call, seen: Seen, values: &Values) -> usize {
    match call {
        Call::U | Call::UNew | Call::UChoose => {
            let record = fixed::ue_ip_address(call, seen, values);
            fixed_rows::put(
                out,
                at,
                record,
                UeIpAddress::marshal,
                &details::fixed::UE_IP_ADDRESS,
                details::fixed::ue_ip_address,
            )
        }
        Call::F
        | Call::FNew
        | Call::FNewWithChoose
        | Call::FIpv4
        | Call::FIpv6
        | Call::FDualStack
        | Call::FChooseIpv4
        | Call::FChooseIpv6
        | Call::FChooseDualStack => {
            let record = fixed::f_teid(call, seen, values);
            fixed_rows::put(
                out,
                at,
                record,
                Fteid::marshal,
                &details::fixed::F_TEID,
                details::fixed::f_teid,
            )
        }
        Call::S | Call::SNew => {
            let record = fixed::fseid(call, seen, values);
            fixed_rows::put(
                out,
                at,
                record,
                Fseid::marshal,
                &details::fixed::FSEID,
                details::fixed::fseid,
            )
        }
        _ => {
            let record = fixed::outer_header_creation(call, seen, values);
            fixed_rows::put(
                out,
                at,
                record,
                OuterHeaderCreation::marshal,
                &details::fixed::OUTER_HEADER_CREATION,
                details::fixed::outer_header_creation,
            )
        }
    }
}
