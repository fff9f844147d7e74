// The rows of Node IDs and PFD Contents: their fields, and the rows of payloads that are read.
use crate::written;
use answer::{Read, Written};
use details::{refusals, texted};
use node_id::NodeId;
use pfd_contents::PfdContents;

// Puts the field of a Node ID; a name with its place where that is asked for.
pub(crate) fn put_node_id(
    out: &mut [u8],
    at: usize,
    texts: &[u8],
    record: NodeId,
    places: bool,
) -> usize {
    let words = texted::NODE_ID;
    let row = rows::row(&words, texted::node_id_type(record));
    rows::put(out, at, row, &texted::node_id(record, places), texts)
}

// Puts the fields of a PFD Contents; with their places where these are asked for.
pub(crate) fn put_pfd_contents(
    out: &mut [u8],
    at: usize,
    texts: &[u8],
    record: PfdContents,
    places: bool,
) -> usize {
    let values = texted::pfd_contents(record, places);
    rows::put(out, at, &texted::PFD_CONTENTS, &values, texts)
}

// Puts the row of what is accepted where only its length is asked for.
fn put_brief(out: &mut [u8], at: usize, count: usize) -> usize {
    rows::put(out, at, b"0 # -\n", &[rows::count(count)], b"")
}

// Puts the row of a payload that was read. `probe` has a function of this kind of its own: a public one for both may ask nothing of the
// closures that it is given.
pub(crate) fn put_payload<
    T: Copy,
    W: FnOnce(T, &[u8], &mut [u8]) -> Written,
    F: FnOnce(&mut [u8], usize, &[u8], T, bool) -> usize,
>(
    out: &mut [u8],
    at: usize,
    payload: &[u8],
    is_brief: bool,
    read: Read<T>,
    marshal: W,
    put_fields: F,
) -> usize
    requires marshal { W.IsAlwaysCallable marshal }
    requires put_fields { F.IsAlwaysCallable put_fields }
{
    let answer = read.answer;
    if answer.number() != 0 {
        return refusals::put_unread(out, at, answer);
    }
    if is_brief {
        return put_brief(out, at, read.used);
    }
    let mut wire = written::buffer();
    let written = marshal(read.record, payload, &mut wire);
    let end = put_written(out, at, read.used, texts::part(&wire, 0, written.len));
    put_fields(out, end, payload, read.record, true)
}

// Puts what was used and is written, up to the bar before the fields.
// `probe` has these two lines too: a public function for both, with its contract, would be no plainer.
fn put_written(out: &mut [u8], at: usize, used: usize, wire: &[u8]) -> usize {
    let values = [rows::count(used), rows::front(Some(wire.len()))];
    rows::put(out, at, b"0 # # | ", &values, wire)
}
