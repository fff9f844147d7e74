// The IEs of a message body: the envelope of each, and all of them in a lent table.
#![tactic(auto)]

ghost use Rattle.std.specs.Prelude.{◌≡◌, ℕ, List, not, ◌||◌, ◌+◌, ◌≤◌, ◌<◌, eqb, length, MatchResult};
ghost use Rattle.ie.specs.Ie.{pair_at, is_vendor, listed, record_of, read, envelope, row_of, ies, ours, refused_at, read_all, all, tabled};
ghost use Rattle.ie.specs.Steps.{IsWhole, counted, HasRows};

use answer::{Answer, Read};

// An IE: its raw type and enterprise number, and the place, from the IE's start on, and length of its payload.
#[derive(Clone, Copy)]
pub struct Ie {
    pub raw_type: u16,
    pub enterprise_id: Option<u16>,
    pub place: usize,
    pub len: usize,
}

// A row of the table: raw type, enterprise number, place, from the body's start on, and length of the payload.
pub type Row = [u32; 4];

// What reading all IEs of a body answers: how many rows there are, and the place of the guilty IE where it is refused. K3 gives every
// answer both, 0 where there are none, so it is no `Result`.
#[derive(Clone, Copy)]
pub struct IesRead {
    pub answer: Answer,
    pub rows: usize,
    pub place: usize,
}

// The guilty IE of a body: where it begins, and why it is refused.
#[derive(Clone, Copy)]
struct Guilty {
    place: usize,
    answer: Answer,
}

// A refused read of a body.
fn refused_at(place: usize, answer: Answer) -> IesRead
    ensures { result ≡ refused_at place answer }
{
    IesRead {
        answer,
        rows: 0,
        place,
    }
}

// So many bytes are there, or the IE ends too early.
fn at_least(expected: usize, actual: usize) -> Result<(), Answer>
    ensures { MatchResult result (λ _. expected ≤ actual) (λ e. (actual < expected) × (e ≡ Answer.Short 0 expected actual)) }
{
    if actual < expected {
        return Err(Answer::Short {
            field: 0,
            expected,
            actual,
        });
    }
    Ok(())
}

// A two-byte number at a place.
fn pair(s: &[u8], at: usize) -> u16
    requires { at + 2 ≤ length s.now }
    ensures { result ≡ pair_at s.now at }
{
    u16::from_be_bytes([s[at], s[at + 1]])
}

// Whether a type is a vendor's: its top bit is set.
fn is_vendor(raw_type: u16) -> bool
    ensures { result ≡ is_vendor raw_type }
{
    raw_type / 32768 % 2 == 1
}

// Whether an IE of this type may have this length.
fn may_have(raw_type: u16, length: usize, zero_types: &[u16]) -> bool
    ensures { result ≡ not (eqb length 0) || listed raw_type zero_types.now }
{
    length != 0 || zero_types.contains(&raw_type)
}

// Where the IE at the front of a slice ends, or why it is refused: all tests, in their order.
fn end_of(s: &[u8], zero_types: &[u16]) -> Result<usize, Answer>
    ensures { result ≡ envelope zero_types.now s.now }
{
    let n = s.len();
    at_least(4, n)?;
    let raw_type = pair(s, 0);
    let length = pair(s, 2) as usize;
    if !may_have(raw_type, length, zero_types) {
        return Err(Answer::ZeroLength);
    }
    let extra = octets::if_set(is_vendor(raw_type), 2);
    at_least(4 + extra, n)?;
    // The two lengths that don't count from the IE's start: the Rust says them so.
    at_least(extra, length)?;
    at_least(4 + length, n)?;
    Ok(4 + length)
}

// The record of an IE that passed them.
fn record_of(s: &[u8]) -> Ie
    requires { IsWhole s.now }
    ensures { result ≡ record_of s.now }
{
    let raw_type = pair(s, 0);
    let length = pair(s, 2) as usize;
    if is_vendor(raw_type) {
        return Ie {
            raw_type,
            enterprise_id: Some(pair(s, 4)),
            place: 6,
            len: length - 2,
        };
    }
    Ie {
        raw_type,
        enterprise_id: None,
        place: 4,
        len: length,
    }
}

// The first way along a body: how many IEs, or which one is guilty.
fn count(body: &[u8], zero_types: &[u16]) -> Result<usize, Guilty>
    ensures { result ≡ counted 0 (ies zero_types.now 0 body.now) }
{
    let mut place = 0;
    let mut rows = 0;
    // No range counts these turns: the bytes at a place say where the next IE begins.
    while place < body.len() {
        let end = end_of(&body[place..], zero_types).map_err(|answer| Guilty { place, answer })?;
        place += end;
        rows += 1;
    }
    Ok(rows)
}

// The second way: the rows of a body that is good by some list of types, as many as are lent.
fn fill(body: &[u8], rows: &mut [Row])
    requires body_len_bound { length body.now ≤ 65535 }
    requires good { (zs : List ℕ) × HasRows zs body.now (length rows.old) }
    ensures { (zs : List ℕ) → HasRows zs body.now (length rows.old) → ies zs 0 body.now ≡ all rows.new }
{
    let mut at = 0;
    for row in rows.iter_mut() {
        let ie = record_of(&body[at..]);
        *row = ie.row(at);
        at += ie.place + ie.len;
    }
}

impl Ie {
    // In a row, in place of an enterprise number where there is none.
    // K3 has that number in a row (`shown`); an IE has an `Option`.
    pub const NO_ENTERPRISE: u32 = 65536;

    // The types that may have length zero in the published Rust.
    pub const ZERO_TYPES: [u16; 3] = [22, 41, 159];

    // The record of a refused read.
    const EMPTY: Ie = Ie {
        raw_type: 0,
        enterprise_id: None,
        place: 0,
        len: 0,
    };

    // The row of an IE at a place.
    fn row(self, at: usize) -> Row
        requires place_bound { at + self.place < 4294967296 }
        requires len_bound { self.len < 4294967296 }
        ensures { result ≡ row_of at self }
    {
        [
            self.raw_type as u32,
            self.enterprise_id.map_or(Ie::NO_ENTERPRISE, u32::from),
            (at + self.place) as u32,
            self.len as u32,
        ]
    }

    // The IE at the front of a slice.
    pub fn unmarshal(s: &[u8], zero_types: &[u16]) -> Read<Ie>
        ensures { result ≡ read zero_types.now s.now }
    {
        let n = s.len();
        if 65535 < n {
            return Read::refused(Answer::InputTooLong { length: n }, Ie::EMPTY);
        }
        match end_of(s, zero_types) {
            Err(answer) => Read::refused(answer, Ie::EMPTY),
            Ok(end) => Read {
                answer: Answer::Done,
                used: end,
                record: record_of(s),
            },
        }
    }

    // All IEs of a body into the first rows of a table.
    pub fn unmarshal_all(body: &[u8], zero_types: &[u16], table: &mut [Row]) -> IesRead
        ensures value { result ≡ read_all zero_types.now body.now (length table.old) }
        ensures table_after { table.new ≡ tabled zero_types.now body.now table.old }
    {
        let length = body.len();
        if 65535 < length {
            return refused_at(0, Answer::InputTooLong { length });
        }
        match count(body, zero_types) {
            Err(Guilty { place, answer }) => refused_at(place, answer),
            Ok(rows) => {
                if table.len() < rows {
                    return refused_at(0, Answer::NoRoom { needed: rows });
                }
                fill(body, &mut table[..rows]);
                IesRead {
                    answer: Answer::Done,
                    rows,
                    place: 0,
                }
            }
        }
    }

    // The same with the published Rust's list.
    pub fn unmarshal_body(body: &[u8], table: &mut [Row]) -> IesRead
        ensures value { result ≡ read_all ours body.now (length table.old) }
        ensures table_after { table.new ≡ tabled ours body.now table.old }
    {
        Ie::unmarshal_all(body, &Ie::ZERO_TYPES, table)
    }
}
