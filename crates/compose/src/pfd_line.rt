// PFD Contents: the rows of its record lines.
use crate::calls::Call;
use crate::seen::{Seen, Values};
use crate::{calls, fields, keys, pfd_calls, written};
use answer::{Answer, Built};
use details::refusals;
use pfd_contents::PfdContents;

fn put_built(
    out: &mut [u8],
    at: usize,
    built: Built<PfdContents>,
    texts: &[u8],
    room: usize,
    is_raw: bool,
    is_brief: bool,
) -> usize {
    let answer = built.answer;
    if answer.number() != 0 {
        return refusals::put_unmade(out, at, answer);
    }
    written::put(
        out,
        at,
        built.record,
        texts,
        room,
        is_raw,
        is_brief,
        PfdContents::marshal,
        fields::put_pfd_contents,
    )
}

// Texts that are longer than the buffer are refused here, as they would be there.
pub(crate) fn put(
    out: &mut [u8],
    at: usize,
    line: &[u8],
    call: Call,
    seen: Seen,
    values: &Values,
    texts: &mut [u8],
) -> usize {
    let mut starts = *values;
    let sum = pfd_calls::to_starts(&mut starts);
    let len = pfd_calls::slice_len(call, sum, values[keys::SLICE]);
    if texts.len() < len {
        return refusals::put_unmade(out, at, Answer::InputTooLong { length: len });
    }
    let is_brief = seen.has(keys::BRIEF);
    if call == Call::PRead {
        let payload = texts::part(texts, 0, len);
        return fields::put_payload(
            out,
            at,
            payload,
            is_brief,
            PfdContents::unmarshal(payload),
            PfdContents::marshal,
            fields::put_pfd_contents,
        );
    }
    let built = pfd_calls::built(line, call, values[keys::FLAGS], texts, len, &mut starts);
    let is_raw = calls::has_places(call);
    let slice = texts::part(texts, 0, len);
    put_built(out, at, built, slice, values[keys::ROOM], is_raw, is_brief)
}
