// What the programs share: rows of text and values.
#![tactic(auto)]

mod form;
pub mod stream;

ghost use Rattle.std.specs.Prelude.{◌≡◌, suc, ◌+◌, ◌≤◌, min, length, drop, get_or};
ghost use Rattle.slices.specs.Slices.{index_of};
ghost use Rattle.octets.specs.Octets.{pick, if_set};
ghost use Rattle.rows.specs.Values.{given, integer_value, hex_value, ipv4_value, ipv6_value, text_value};
ghost use Rattle.rows.specs.declared.Value.TheVariants.{Nothing, Count, Signed, Part, Listed};
ghost use Rattle.rows.specs.Row.{pieces, other, numbered, ends, puts};

use texts::Text;

// A value of a row, by how it is shown.
#[derive(Clone, Copy)]
pub enum Value {
    // What isn't given: a dash.
    Absent,
    // What isn't shown at all.
    Nothing,
    // A number in decimal.
    Count(u64),
    // A sign, and a number in decimal.
    Signed { sign: u8, n: u64 },
    // The last bytes of two numbers of eight bytes each, so many, in hex.
    Hex { width: usize, high: u64, low: u64 },
    // Bytes of the slice that goes with a row, in hex.
    Part { place: usize, len: usize },
    // A text of that slice, between quotes.
    Quoted { place: usize, len: usize },
    // So many texts from a place of that slice on, each behind its length.
    Listed { place: usize, count: usize },
}

pub fn count(n: usize) -> Value
    ensures { result ≡ Count n }
{
    Value::Count(n as u64)
}

pub fn flag(is_set: bool) -> Value
    ensures { result ≡ Count (if_set is_set 1) }
{
    count(octets::if_set(is_set, 1))
}

// A number in decimal behind a sign, where it is shown.
pub fn signed(is_shown: bool, sign: u8, n: usize) -> Value
    ensures { result ≡ pick is_shown (Signed sign n) Nothing }
{
    if !is_shown {
        return Value::Nothing;
    }
    Value::Signed { sign, n: n as u64 }
}

// A number in decimal, behind a minus sign where it is below 0. What is left of -1 without such a number can't overflow.
pub fn integer(x: i32) -> Value
    ensures { result ≡ integer_value x }
{
    if x < 0 {
        return Value::Signed {
            sign: b'-',
            n: (-1 - x) as u64 + 1,
        };
    }
    Value::Count(x as u64)
}

// A number of so many bytes, where there is one.
pub fn number(width: usize, x: Option<u64>) -> Value
    ensures { result ≡ given (hex_value width) x }
{
    x.map_or(
        Value::Absent,
        |low| Value::Hex {
            width,
            high: 0,
            low,
        },
    )
}

pub fn ipv4(address: Option<[u8; 4]>) -> Value
    ensures { result ≡ given ipv4_value address }
{
    match address {
        None => Value::Absent,
        Some(octets) => number(4, Some(octets::number(&octets))),
    }
}

pub fn ipv6(address: Option<[u8; 16]>) -> Value
    ensures { result ≡ given ipv6_value address }
{
    match address {
        None => Value::Absent,
        Some(octets) => Value::Hex {
            width: 16,
            high: octets::number(texts::part(&octets, 0, 8)),
            low: octets::number(texts::part(&octets, 8, 8)),
        },
    }
}

// So many bytes at the front of the slice that goes with a row, where they are given.
pub fn front(len: Option<usize>) -> Value
    ensures { result ≡ given (Part 0) len }
{
    len.map_or(Value::Absent, |len| Value::Part { place: 0, len })
}

// A text of that slice, where there is one.
pub fn text(text: Option<Text>) -> Value
    ensures { result ≡ given text_value text }
{
    text.map_or(
        Value::Absent,
        |text| Value::Quoted {
            place: text.place,
            len: text.len,
        },
    )
}

// So many texts, each behind its length, from a place of that slice on.
pub fn list(place: usize, count: usize) -> Value
    ensures { result ≡ Listed place count }
{
    Value::Listed { place, count }
}

// The place behind the end of the line that a place is in.
fn line_end(words: &[u8], from: usize) -> usize
    requires { from ≤ length words.now }
    ensures value { result ≡ min (from + suc (index_of 0x0A (drop from words.now))) (length words.now) }
    ensures upper_bound { result ≤ length words.now }
{
    slices::find(words, from, words.len(), b'\n')
        .saturating_add(1)
        .min(words.len())
}

// The words of a row, by its number, where those of several stand one behind the other, each with its end.
pub fn row(words: &[u8], number: usize) -> &[u8]
    ensures { result.now ≡ numbered number words.now }
{
    let mut from = 0;
    for _ in 0..number {
        from = line_end(words, from);
    }
    texts::part(words, from, line_end(words, from).saturating_sub(from))
}

fn value_at(values: &[Value], i: usize) -> Value
    ensures { result ≡ get_or values.now i Nothing }
{
    values.get(i).copied().unwrap_or(Value::Nothing)
}

// Puts a row at a place of the output, and returns the place behind it. Each `#` of the words stands for the next value. Behind the last
// part stands no value: a `for` over the parts would ask in each turn which one it has.
pub fn put(out: &mut [u8], at: usize, words: &[u8], values: &[Value], slice: &[u8]) -> usize
    ensures value { result ≡ ends at (pieces words.now values.now slice.now) }
    ensures out_after { out.new ≡ puts out.old at (pieces words.now values.now slice.now) }
{
    let mut end = at;
    let mut from = 0;
    let mut i = 0;
    loop {
        let to = slices::find(words, from, words.len(), b'#');
        end = form::words(out, end, texts::part(words, from, to - from));
        if to == words.len() {
            return end;
        }
        end = form::value(out, end, value_at(values, i), slice);
        from = to + 1;
        i += 1;
    }
}

// Puts the row of a line that is of no known form.
pub fn put_other(out: &mut [u8], at: usize) -> usize
    ensures value { result ≡ ends at other }
    ensures out_after { out.new ≡ puts out.old at other }
{
    form::words(out, at, b"? 0 -\n")
}
