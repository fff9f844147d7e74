// All IEs of a message body: words that set the table's length and the list of types, and the body in hex.
use crate::fields::Fields;
use ie::{Ie, IesRead, Row};

const KEYS: [u8; 11] = *b"rows= zero=";

// A key stays a number, which is no less plain than an enum here: it is the key's place in that list, and its bit in the set of a line.
const ROWS: usize = 0;

const ZERO: usize = 1;

// The most bytes of a body in a line, and of the words before it.
pub(crate) const LONGEST: usize = 65600;

pub(crate) const WORDS: usize = 1000;

// More than the longest row has: of the longest body that is read each IE has 4 bytes at least, and those are shown in 20.
pub(crate) const ROW: usize = 330000;

// More rows than any body has.
pub(crate) fn table() -> [Row; 16384] {
    [[0; 4]; 16384]
}

// What the words before a body ask for: a table of so many rows, and so many types that are listed; and where the body begins.
#[derive(Clone, Copy)]
struct Asked {
    fields: Fields,
    room: usize,
    types: usize,
    body: usize,
}

impl Asked {
    // More room than any body needs, and no list of its own.
    const START: Asked = Asked {
        fields: Fields::NONE,
        room: 65535,
        types: 0,
        body: 0,
    };

    fn with_rows(mut self, text: &[u8]) -> Option<Asked> {
        self.fields = self.fields.with(ROWS)?;
        self.room = small(text)? as usize;
        Some(self)
    }

    fn with_types(mut self, text: &[u8], types: &mut [u16]) -> Option<Asked> {
        self.fields = self.fields.with(ZERO)?;
        self.types = fill(types, text)?;
        Some(self)
    }

    fn with_word(self, word: &[u8], types: &mut [u16]) -> Option<Asked> {
        let value = words::value(word);
        match words::index(&KEYS, words::key(word)) {
            ROWS => self.with_rows(value),
            ZERO => self.with_types(value, types),
            _ => None,
        }
    }
}

// A number of 16 bits.
fn small(text: &[u8]) -> Option<u16> {
    u16::try_from(words::decimal(text)?).ok()
}

// Puts the numbers of a list, commas between them, into memory, and says how many they are.
fn fill(types: &mut [u16], text: &[u8]) -> Option<usize> {
    if text.is_empty() {
        return Some(0);
    }
    let mut count = 0;
    for (i, number) in text.split(|b| *b == b',').enumerate() {
        *types.get_mut(i)? = small(number)?;
        count = i.saturating_add(1);
    }
    Some(count)
}

// Looks at the words before a body, where each of them is good. They end with a space each.
fn look(text: &[u8], types: &mut [u16]) -> Option<Asked> {
    let mut asked = Asked::START;
    let Some(last) = text.iter().rposition(|b| *b == b' ') else {
        return Some(asked);
    };
    for word in text[..last].split(|b| *b == b' ') {
        asked = asked.with_word(word, types)?;
    }
    asked.body = last + 1;
    Some(asked)
}

pub(crate) fn put(
    out: &mut [u8],
    at: usize,
    text: &[u8],
    payload: &mut [u8],
    table: &mut [Row],
) -> usize {
    let mut types = [0u16; 256];
    let Some(asked) = look(text, &mut types) else {
        return rows::put_other(out, at);
    };
    let Some(len) = words::payload(words::part(text, asked.body, text.len()), payload) else {
        return rows::put_other(out, at);
    };
    let body = texts::part(payload, 0, len);
    let room = asked.room.min(table.len());
    let read = read(asked, body, &types, &mut table[0..room]);
    put_read(out, at, read, table)
}

// With the list of the line where it has one, else with the published Rust's.
fn read(asked: Asked, body: &[u8], types: &[u16], table: &mut [Row]) -> IesRead {
    if asked.fields.has(ZERO) {
        return Ie::unmarshal_all(body, &types[..asked.types.min(types.len())], table);
    }
    Ie::unmarshal_body(body, table)
}

fn put_read(out: &mut [u8], at: usize, read: IesRead, table: &[Row]) -> usize {
    let answer = read.answer;
    if answer.number() != 0 {
        return put_refused(out, at, read);
    }
    let values = [rows::count(read.rows)];
    let end = rows::put(out, at, b"0 #", &values, b"");
    let end = put_rows(out, end, &table[..read.rows.min(table.len())]);
    rows::put(out, end, b"\n", &values, b"")
}

fn put_refused(out: &mut [u8], at: usize, read: IesRead) -> usize {
    let answer = read.answer;
    let details = answer.values();
    let values = [
        rows::count(answer.number() as usize),
        rows::count(read.place),
        rows::count(details.0),
        rows::count(details.1),
        rows::count(details.2),
    ];
    rows::put(out, at, b"# # # # #\n", &values, b"")
}

fn put_rows(out: &mut [u8], at: usize, table: &[Row]) -> usize {
    let mut end = at;
    for row in table {
        end = put_row(out, end, *row);
    }
    end
}

fn put_row(out: &mut [u8], at: usize, row: Row) -> usize {
    let values = [
        rows::count(row[0] as usize),
        rows::count(row[1] as usize),
        rows::count(row[2] as usize),
        rows::count(row[3] as usize),
    ];
    rows::put(out, at, b" #:#:#:#", &values, b"")
}
