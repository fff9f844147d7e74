// Texts of a line, stored in a buffer. A text is `-` for the empty one, hex, or hex and how often it comes. What doesn't fit is
// counted and not stored.
use crate::numbers::Given;
use words::part;

// The most bytes that a text has.
const MOST: usize = 300000;

// How often a text's digits come.
fn times(value: &[u8], star: usize) -> Option<usize> {
    if star == value.len() {
        return Some(1);
    }
    let times = words::decimal(part(value, star.saturating_add(1), value.len()))?;
    Some(times as usize)
}

// How long a text is whose digits made n bytes, so many times these, where that is one.
fn text_len(digits: usize, n: usize, times: usize) -> Option<usize> {
    if digits % 2 != 0 {
        return None;
    }
    if digits / 2 != n {
        return None;
    }
    let len = n.checked_mul(times)?;
    if len == 0 {
        return None;
    }
    if MOST < len {
        return None;
    }
    Some(len)
}

// Puts the bytes of digits at a place, or at the front, only to see whether they are digits.
fn put_digits(out: &mut [u8], at: usize, digits: &[u8]) -> usize {
    if out.len().saturating_sub(at) < digits.len() / 2 {
        return hex_text::parse(digits, out);
    }
    if out.len() < at {
        return 0;
    }
    hex_text::parse(digits, &mut out[at..])
}

// Copies the n bytes at a place behind themselves again and again, up to an end.
fn repeat(out: &mut [u8], at: usize, n: usize, end: usize) {
    for to in at.saturating_add(n)..end.min(out.len()) {
        out[to] = out[to - n];
    }
}

fn text(out: &mut [u8], at: usize, value: &[u8]) -> Option<Given> {
    if check::same(value, b"-") {
        return Some(Given {
            place: at,
            len: 0,
            count: 1,
        });
    }
    let star = slices::find(value, 0, value.len(), b'*');
    let digits = part(value, 0, star);
    let n = put_digits(out, at, digits);
    let len = text_len(digits.len(), n, times(value, star)?)?;
    repeat(out, at, n, at.saturating_add(len));
    Some(Given {
        place: at,
        len,
        count: 1,
    })
}

// A text, behind so many bytes that say its length.
pub(crate) fn entry(out: &mut [u8], at: usize, value: &[u8], head: usize) -> Option<Given> {
    let stored = text(out, at.saturating_add(head), value)?;
    octets::put_number(out, at, head, stored.len as u64);
    Some(Given {
        place: at,
        len: head.saturating_add(stored.len),
        count: 1,
    })
}

// Texts with commas between them, one behind the other.
fn entries(out: &mut [u8], at: usize, value: &[u8], head: usize) -> Option<Given> {
    let mut stored = Given {
        place: at,
        len: 0,
        count: 0,
    };
    for text in value.split(|b| *b == b',') {
        let last = entry(out, at.saturating_add(stored.len), text, head)?;
        stored.len = stored.len.saturating_add(last.len);
        stored.count = stored.count.saturating_add(1);
    }
    Some(stored)
}

// A list, in wire form; nothing is the empty one.
pub(crate) fn list(out: &mut [u8], at: usize, value: &[u8]) -> Option<Given> {
    if value.is_empty() {
        return Some(Given {
            place: at,
            len: 0,
            count: 0,
        });
    }
    entries(out, at, value, 2)
}

// A slice that all of the texts make, where it fits. Its length is its number.
pub(crate) fn slice(out: &mut [u8], value: &[u8]) -> Option<Given> {
    let stored = entries(out, 0, value, 0)?;
    if out.len() < stored.len {
        return None;
    }
    Some(Given {
        place: stored.len,
        len: 0,
        count: 0,
    })
}
