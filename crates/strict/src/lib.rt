// The strict verdict on a payload: yes or no, one function a kind.
#![tactic(auto)]

ghost use Rattle.std.specs.Prelude.{◌≡◌, not, ◌&&◌, ◌||◌, List, ℕ, eqb};
ghost use Rattle.answer.specs.Paper.{number_of};
ghost use Rattle.octets.specs.Octets.{bit};
ghost use Rattle.pfd_contents.specs.PfdContents.{meaning};
ghost use Rattle.strict.specs.Strict.{ue_ip_address, f_teid, f_seid, node_id, outer_header_creation, pfd_contents, complete};

use answer::Read;
use f_teid::Fteid;
use fseid::Fseid;
use node_id::NodeId;
use outer_header_creation::OuterHeaderCreation;
use pfd_contents::PfdContents;
use ue_ip_address::UeIpAddress;

// No if the reader refused, else what the kind asks of the record.
fn verdict<T: Copy, A: FnOnce(T) -> bool>(read: Read<T>, asks: A) -> bool
    requires { A.IsAlwaysCallable asks }
    ensures { (asked : _) × A.post asks read.«record» asked × result ≡ eqb (number_of read.answer) 0 && asked }
{
    let asked = asks(read.record);
    octets::both(read.answer.number() == 0, asked)
}

// Whether all was well before, and what bit k of the flags announces is there.
fn still_complete(before: bool, flags: u8, k: u8, there: bool) -> bool
    ensures { result ≡ before && (not (bit k flags) || there) }
{
    octets::both(before, octets::either(!octets::bit(flags, k), there))
}

// Whether all that the flags announce is there.
fn complete(record: PfdContents) -> bool
    ensures { (s : List ℕ) → result ≡ complete (meaning s «record») }
{
    let flags = record.flags;
    let flow = still_complete(true, flags, 0, record.flow_description.is_some());
    let url = still_complete(flow, flags, 1, record.url.is_some());
    let domain = still_complete(url, flags, 2, record.domain_name.is_some());
    let custom = still_complete(domain, flags, 3, record.custom_pfd_content.is_some());
    let protocol = still_complete(custom, flags, 4, record.domain_name_protocol.is_some());
    let flows = still_complete(
        protocol,
        flags,
        5,
        record.additional_flow_description.count != 0,
    );
    let urls = still_complete(flows, flags, 6, record.additional_url.count != 0);
    still_complete(
        urls,
        flags,
        7,
        record.additional_domain_name_and_protocol.count != 0,
    )
}

pub fn ue_ip_address(payload: &[u8]) -> bool
    ensures { result ≡ ue_ip_address payload.now }
{
    verdict(UeIpAddress::unmarshal(payload), |_| true)
}

pub fn f_teid(payload: &[u8]) -> bool
    ensures { result ≡ f_teid payload.now }
{
    verdict(
        Fteid::unmarshal(payload),
        |tunnel| octets::either(tunnel.v4, tunnel.v6),
    )
}

pub fn fseid(payload: &[u8]) -> bool
    ensures { result ≡ f_seid payload.now }
{
    verdict(
        Fseid::unmarshal(payload),
        |session| octets::either(session.v4, session.v6),
    )
}

// The type is the low four bits of the first byte; the others are spare.
pub fn node_id(payload: &[u8]) -> bool
    ensures { result ≡ node_id payload.now }
{
    verdict(NodeId::unmarshal_masked(payload, 0x0F), |_| true)
}

pub fn outer_header_creation(payload: &[u8]) -> bool
    ensures { result ≡ outer_header_creation payload.now }
{
    verdict(OuterHeaderCreation::unmarshal(payload), |_| true)
}

pub fn pfd_contents(payload: &[u8]) -> bool
    ensures { result ≡ pfd_contents payload.now }
{
    verdict(PfdContents::unmarshal(payload), complete)
}
