// The fields of records with texts. These stand in a slice that goes with the record, and are shown with their places where these are
// asked for.
ghost use Rattle.std.specs.Prelude.{◌≡◌};
ghost use Rattle.details.specs.Texted.{type_number, node_id_field, name_place, node_id_values, place_of, list_of, run_place_of, run_len_of, pfd_contents_values};

use node_id::NodeId;
use octets::both;
use pfd_contents::PfdContents;
use rows::Value;
use text_fields::TextList;
use texts::Text;

// The rows of a Node ID, by the number of its type.
pub const NODE_ID: [u8; 61] = *b"rec=N type=0 ipv4=#\nrec=N type=1 ipv6=#\nrec=N type=2 name=##\n";

pub const PFD_CONTENTS: [u8; 72] =
    *b"rec=P flags=# fd=## url=## dn=## cp=## dnp=## afd=### aurl=### adnp=###\n";

// The number of a Node ID's type.
pub fn node_id_type(record: NodeId) -> usize
    ensures { result ≡ type_number «record» }
{
    match record {
        NodeId::Ipv4(_) => 0,
        NodeId::Ipv6(_) => 1,
        NodeId::Fqdn(_) => 2,
    }
}

// The address or the name.
fn field_of(record: NodeId) -> Value
    ensures { result ≡ node_id_field «record» }
{
    match record {
        NodeId::Ipv4(address) => rows::ipv4(Some(address)),
        NodeId::Ipv6(address) => rows::ipv6(Some(address)),
        NodeId::Fqdn(name) => rows::text(Some(name)),
    }
}

// The place of the name, 0 of an address.
fn name_place(record: NodeId) -> usize
    ensures { result ≡ name_place «record» }
{
    match record {
        NodeId::Fqdn(name) => name.place,
        NodeId::Ipv4(_) | NodeId::Ipv6(_) => 0,
    }
}

pub fn node_id(record: NodeId, places: bool) -> [Value; 2]
    ensures { result ≡ node_id_values «record» places }
{
    [
        field_of(record),
        rows::signed(places, b'@', name_place(record)),
    ]
}

fn place(x: Option<Text>, places: bool) -> Value
    ensures { result ≡ place_of x places }
{
    match x {
        None => Value::Nothing,
        Some(text) => rows::signed(places, b'@', text.place),
    }
}

fn list(x: TextList) -> Value
    ensures { result ≡ list_of x }
{
    rows::list(x.place, x.count)
}

fn run_place(x: TextList, places: bool) -> Value
    ensures { result ≡ run_place_of x places }
{
    rows::signed(both(places, x.count != 0), b'@', x.place)
}

fn run_len(x: TextList, places: bool) -> Value
    ensures { result ≡ run_len_of x places }
{
    rows::signed(both(places, x.count != 0), b'+', x.len)
}

pub fn pfd_contents(record: PfdContents, places: bool) -> [Value; 20]
    ensures { result ≡ pfd_contents_values «record» places }
{
    [
        rows::number(1, Some(record.flags as u64)),
        rows::text(record.flow_description),
        place(record.flow_description, places),
        rows::text(record.url),
        place(record.url, places),
        rows::text(record.domain_name),
        place(record.domain_name, places),
        rows::text(record.custom_pfd_content),
        place(record.custom_pfd_content, places),
        rows::text(record.domain_name_protocol),
        place(record.domain_name_protocol, places),
        list(record.additional_flow_description),
        run_place(record.additional_flow_description, places),
        run_len(record.additional_flow_description, places),
        list(record.additional_url),
        run_place(record.additional_url, places),
        run_len(record.additional_url, places),
        list(record.additional_domain_name_and_protocol),
        run_place(record.additional_domain_name_and_protocol, places),
        run_len(record.additional_domain_name_and_protocol, places),
    ]
}
