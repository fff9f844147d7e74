// What the words of a line give.
use crate::numbers::Given;
use crate::{keys, numbers, store};
use octets::{both, either};

// A number for each key: how many bytes the texts of a field take, or what the key gives. Behind these stand the last eight bytes
// of an IPv6 address, and the place of a name.
// An array by key and no map: a map needs the heap.
pub(crate) type Values = [usize; 32];

pub(crate) const V6_LOW: usize = 30;

pub(crate) const NAME_PLACE: usize = 31;

// The bits of the keys that a line has, and of those that it has again.
#[derive(Clone, Copy)]
pub(crate) struct Seen {
    pub keys: u32,
    pub again: u32,
    pub stag_first: bool,
}

fn bit_of(key: usize) -> u32 {
    if 31 < key {
        return 0;
    }
    1 << key
}

impl Seen {
    const NOTHING: Seen = Seen {
        keys: 0,
        again: 0,
        stag_first: false,
    };

    pub(crate) fn has(self, key: usize) -> bool {
        self.keys & bit_of(key) != 0
    }

    fn with(self, key: usize) -> Seen {
        let bit = bit_of(key);
        Seen {
            keys: self.keys | bit,
            again: self.again | (self.keys & bit),
            stag_first: either(
                self.stag_first,
                both(key == keys::STAG, !self.has(keys::CTAG)),
            ),
        }
    }
}

// The field of a key that has a text, a list or an entry; an entry is in the field of its list.
fn field_of(key: usize) -> usize {
    if key < keys::ENTRIES {
        return key;
    }
    key.saturating_sub(3)
}

// Texts with the line, stored at a place.
fn stored(key: usize, value: &[u8], texts: &mut [u8], at: usize) -> Option<Given> {
    if key < keys::LISTS {
        return store::entry(texts, at, value, 0);
    }
    if key < keys::ENTRIES {
        return store::list(texts, at, value);
    }
    store::entry(texts, at, value, 2)
}

// Texts by their places in a slice.
fn placed(key: usize, value: &[u8]) -> Option<Given> {
    if key < keys::LISTS {
        return numbers::span(value);
    }
    if key < keys::ENTRIES {
        return numbers::counted_span(value);
    }
    numbers::decimal(value, u64::MAX)
}

// The number of a key that has no text.
pub(crate) fn number(key: usize, value: &[u8]) -> Option<Given> {
    match key {
        keys::ROOM => numbers::decimal(value, 65535),
        keys::DUAL => numbers::two_addresses(value),
        _ => numbers::hexadecimal(value, keys::width_of(key)),
    }
}

// What a value gives. Texts that the line has with it are stored at a place.
pub(crate) fn given(
    key: usize,
    value: &[u8],
    has_places: bool,
    texts: &mut [u8],
    at: usize,
) -> Option<Given> {
    if key == keys::SLICE {
        return store::slice(texts, value);
    }
    if keys::FIELDS <= key {
        return number(key, value);
    }
    if has_places {
        return placed(key, value);
    }
    stored(key, value, texts, at)
}

// Where the next text of a key's field starts.
pub(crate) fn start_of(starts: &Values, key: usize) -> usize {
    let field = field_of(key);
    if 31 < field {
        return 0;
    }
    starts[field]
}

pub(crate) fn grow(values: &mut Values, key: usize, n: usize) {
    let field = field_of(key);
    if 31 < field {
        return;
    }
    values[field] = values[field].saturating_add(n);
}

fn note(values: &mut Values, key: usize, given: Given) {
    match key {
        keys::NAME => values[NAME_PLACE] = given.place,
        keys::V6 => values[V6_LOW] = given.len,
        _ => {}
    }
    if key < keys::FIELDS {
        grow(values, key, given.len);
        return;
    }
    if key < keys::UNKNOWN {
        values[key] = given.place;
    }
}

// Sees all words behind a line's first, where each of them is good.
pub(crate) fn look(
    line: &[u8],
    has_places: bool,
    texts: &mut [u8],
    values: &mut Values,
) -> Option<Seen> {
    let mut seen = Seen::NOTHING;
    for word in line.split(|b| *b == b' ').skip(1) {
        let key = keys::key_of(word);
        let given = given(key, words::value(word), has_places, texts, 0)?;
        note(values, key, given);
        seen = seen.with(key);
    }
    Some(seen)
}
