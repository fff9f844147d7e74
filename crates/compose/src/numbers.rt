// The numbers that a value gives.
use words::part;

// What a value gives: a text or a list, by its place, its length and its count of texts; or a number, as a place.
#[derive(Clone, Copy)]
pub(crate) struct Given {
    pub place: usize,
    pub len: usize,
    pub count: usize,
}

impl Given {
    // A number alone.
    fn number(x: u64) -> Given {
        Given {
            place: x as usize,
            len: 0,
            count: 0,
        }
    }
}

// What stands before the first such byte, and what stands behind it; the whole, and nothing, where there is none.
pub(crate) fn cut(value: &[u8], b: u8) -> (&[u8], &[u8]) {
    let place = slices::find(value, 0, value.len(), b);
    (
        part(value, 0, place),
        part(value, place.saturating_add(1), value.len()),
    )
}

// A number in decimal that isn't above another.
pub(crate) fn decimal(value: &[u8], most: u64) -> Option<Given> {
    let x = words::decimal(value)?;
    if most < x {
        return None;
    }
    Some(Given::number(x))
}

// A number in hex of one to eight bytes.
fn one_number(value: &[u8], width: usize) -> Option<Given> {
    let x = words::hexadecimal(value, width)?;
    Some(Given::number(x))
}

// A number in hex of sixteen bytes: the first eight stand in the place, and the last eight in the length.
fn two_halves(value: &[u8]) -> Option<Given> {
    let high = words::hexadecimal(part(value, 0, 16), 8)?;
    let low = words::hexadecimal(part(value, 16, value.len()), 8)?;
    Some(Given {
        place: high as usize,
        len: low as usize,
        count: 0,
    })
}

// A number in hex of so many bytes. Behind a key that has no number there is nothing.
pub(crate) fn hexadecimal(value: &[u8], width: usize) -> Option<Given> {
    match width {
        0 if value.is_empty() => Some(Given::number(0)),
        0 => None,
        16 => two_halves(value),
        _ => one_number(value, width),
    }
}

// An IPv4 address in the count, a comma, and an IPv6 address.
pub(crate) fn two_addresses(value: &[u8]) -> Option<Given> {
    let (first, second) = cut(value, b',');
    let ipv4 = one_number(first, 4)?;
    let ipv6 = two_halves(second)?;
    Some(Given {
        place: ipv6.place,
        len: ipv6.len,
        count: ipv4.place,
    })
}

// A place and a length, with a sign between them.
pub(crate) fn span(value: &[u8]) -> Option<Given> {
    let (place, len) = cut(value, b'+');
    Some(Given {
        place: words::decimal(place)? as usize,
        len: words::decimal(len)? as usize,
        count: 1,
    })
}

// A span, and behind a star a count.
pub(crate) fn counted_span(value: &[u8]) -> Option<Given> {
    let (first, second) = cut(value, b'*');
    let span = span(first)?;
    Some(Given {
        place: span.place,
        len: span.len,
        count: words::decimal(second)? as usize,
    })
}
