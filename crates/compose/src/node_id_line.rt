// Node ID: the rows of its record lines.
use crate::calls::Call;
use crate::seen::{NAME_PLACE, Seen, V6_LOW, Values};
use crate::{calls, fields, fixed, keys, written};
use answer::Answer;
use details::refusals;
use node_id::NodeId;

fn record_of(seen: Seen, values: &Values) -> NodeId {
    if seen.has(keys::V4) {
        return NodeId::new_ipv4(fixed::to_ipv4(values[keys::V4]));
    }
    if seen.has(keys::V6) {
        return NodeId::new_ipv6(fixed::to_ipv6(values[keys::V6], values[V6_LOW]));
    }
    NodeId::new_fqdn(values[NAME_PLACE], values[keys::NAME])
}

// The slice is that of a line with places, or the name itself.
fn slice_len(call: Call, values: &Values) -> usize {
    match call {
        Call::NRaw | Call::NRead => values[keys::SLICE],
        _ => values[keys::NAME],
    }
}

// A name that is longer than the buffer is refused here, as it would be there.
pub(crate) fn put(
    out: &mut [u8],
    at: usize,
    call: Call,
    seen: Seen,
    values: &Values,
    texts: &[u8],
) -> usize {
    let len = slice_len(call, values);
    if texts.len() < len {
        return refusals::put_unmade(out, at, Answer::InputTooLong { length: len });
    }
    let is_brief = seen.has(keys::BRIEF);
    if call == Call::NRead {
        let payload = texts::part(texts, 0, len);
        return fields::put_payload(
            out,
            at,
            payload,
            is_brief,
            NodeId::unmarshal(payload),
            NodeId::marshal,
            fields::put_node_id,
        );
    }
    written::put(
        out,
        at,
        record_of(seen, values),
        texts::part(texts, 0, len),
        values[keys::ROOM],
        calls::has_places(call),
        is_brief,
        NodeId::marshal,
        fields::put_node_id,
    )
}
