// The forms of a value, put at a place of the output. Each function returns the place behind what it put.
ghost use Rattle.std.specs.Prelude.{◌≡◌, ◌∷◌, [], ◌++◌, ◌-◌, drop};
ghost use Rattle.octets.specs.Octets.{big_endian_bytes, put};
ghost use Rattle.hex_text.specs.Hex.{spelled, decimal};
ghost use Rattle.rows.specs.Row.{quoted, length_of, bracketed, shown, past, ends, puts};

use crate::Value;

pub(crate) fn words(out: &mut [u8], at: usize, bs: &[u8]) -> usize
    ensures value { result ≡ past at bs.now }
    ensures out_after { out.new ≡ put out.old at bs.now }
{
    octets::put_bytes(out, at, bs);
    at.saturating_add(bs.len())
}

fn byte(out: &mut [u8], at: usize, b: u8) -> usize
    ensures value { result ≡ past at (b ∷ []) }
    ensures out_after { out.new ≡ put out.old at (b ∷ []) }
{
    octets::put_byte(out, at, b);
    at.saturating_add(1)
}

fn digits(out: &mut [u8], at: usize, bs: &[u8]) -> usize
    ensures value { result ≡ past at (spelled bs.now) }
    ensures out_after { out.new ≡ put out.old at (spelled bs.now) }
{
    hex_text::put_hex(out, at, bs);
    at.saturating_add(bs.len()).saturating_add(bs.len())
}

fn decimal(out: &mut [u8], at: usize, n: u64) -> usize
    ensures value { result ≡ past at (decimal n) }
    ensures out_after { out.new ≡ put out.old at (decimal n) }
{
    hex_text::put_decimal(out, at, n);
    at.saturating_add(hex_text::decimal_len(n))
}

fn signed(out: &mut [u8], at: usize, sign: u8, n: u64) -> usize
    ensures value { result ≡ ends at ((sign ∷ []) ∷ decimal n ∷ []) }
    ensures out_after { out.new ≡ puts out.old at ((sign ∷ []) ∷ decimal n ∷ []) }
{
    let end = byte(out, at, sign);
    decimal(out, end, n)
}

fn number(out: &mut [u8], at: usize, width: usize, high: u64, low: u64) -> usize
    ensures value { result ≡ past at (spelled (drop (16 - width) (big_endian_bytes 8 high ++ big_endian_bytes 8 low))) }
    ensures out_after { out.new ≡ put out.old at (spelled (drop (16 - width) (big_endian_bytes 8 high ++ big_endian_bytes 8 low))) }
{
    let mut bs = [0u8; 16];
    octets::put_number(&mut bs, 0, 8, high);
    octets::put_number(&mut bs, 8, 8, low);
    digits(out, at, texts::part(&bs, 16usize.saturating_sub(width), 16))
}

fn text(out: &mut [u8], at: usize, bs: &[u8]) -> usize
    ensures value { result ≡ ends at (quoted bs.now) }
    ensures out_after { out.new ≡ puts out.old at (quoted bs.now) }
{
    let end = byte(out, at, b'"');
    let end = digits(out, end, bs);
    byte(out, end, b'"')
}

// A text of a list, behind its mark.
fn entry(out: &mut [u8], at: usize, mark: u8, bs: &[u8]) -> usize
    ensures value { result ≡ ends at ((mark ∷ []) ∷ quoted bs.now) }
    ensures out_after { out.new ≡ puts out.old at ((mark ∷ []) ∷ quoted bs.now) }
{
    let end = byte(out, at, mark);
    text(out, end, bs)
}

// The length that stands before a text.
fn length_at(slice: &[u8], at: usize) -> usize
    ensures { result ≡ length_of (drop at slice.now) }
{
    octets::number(texts::part(slice, at, 2)) as usize
}

fn list(out: &mut [u8], at: usize, slice: &[u8], place: usize, count: usize) -> usize
    ensures value { result ≡ ends at (bracketed count (drop place slice.now)) }
    ensures out_after { out.new ≡ puts out.old at (bracketed count (drop place slice.now)) }
{
    if count == 0 {
        return words(out, at, b"[]");
    }
    let mut end = at;
    let mut mark = b'[';
    let mut next = place;
    for _ in 0..count {
        let len = length_at(slice, next);
        let from = next.saturating_add(2);
        end = entry(out, end, mark, texts::part(slice, from, len));
        next = from.saturating_add(len);
        mark = b',';
    }
    byte(out, end, b']')
}

pub(crate) fn value(out: &mut [u8], at: usize, v: Value, slice: &[u8]) -> usize
    ensures value { result ≡ ends at (shown v slice.now) }
    ensures out_after { out.new ≡ puts out.old at (shown v slice.now) }
{
    match v {
        Value::Absent => words(out, at, b"-"),
        Value::Nothing => at,
        Value::Count(n) => decimal(out, at, n),
        Value::Signed { sign, n } => signed(out, at, sign, n),
        Value::Hex { width, high, low } => number(out, at, width, high, low),
        Value::Part { place, len } => digits(out, at, texts::part(slice, place, len)),
        Value::Quoted { place, len } => text(out, at, texts::part(slice, place, len)),
        Value::Listed { place, count } => list(out, at, slice, place, count),
    }
}
