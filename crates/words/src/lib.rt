// Words of a line, and what they say: keys, values, numbers, payloads.
#![tactic(auto)]

ghost use Rattle.std.specs.Prelude.{◌≡◌, [], suc, ◌-◌, ◌*◌, not, eqb, length, get_or, option_map};
ghost use Rattle.slices.specs.Slices.{index_of};
ghost use Rattle.octets.specs.Octets.{field, put};
ghost use Rattle.hex_text.specs.Hex.{pairs};
ghost use Rattle.words.specs.Words.{words_of, same, place_of, key_of, value_of, decimal_of, hexadecimal_of, payload_of};
ghost use Rattle.words.specs.Steps.{with_digit};

use octets::both;

// The bytes between two places, as far as they are there.
pub fn part(s: &[u8], from: usize, to: usize) -> &[u8]
    ensures { result.now ≡ field s.now from (to - from) }
{
    texts::part(s, from, to.saturating_sub(from))
}

// Whether a word isn't another.
fn differs(word: &[u8], other: &[u8]) -> bool
    ensures { result ≡ not (same word.now other.now) }
{
    !check::same(word, other)
}

// The place of a word in a list of words; how many these are where it isn't there.
pub fn index(list: &[u8], word: &[u8]) -> usize
    ensures { result ≡ place_of word.now (words_of list.now) }
{
    list.split(|b| *b == b' ')
        .take_while(|other| differs(other, word))
        .count()
}

// The first word of a line.
pub fn head(line: &[u8]) -> &[u8]
    ensures { result.now ≡ get_or (words_of line.now) 0 [] }
{
    part(line, 0, slices::find(line, 0, line.len(), b' '))
}

// The place behind a word's first `=`; one past its end where there is none.
// It is no `Option`: `index_of`, of which `key_of` speaks, is the length where there is none.
fn behind_sign(word: &[u8]) -> usize
    ensures { result ≡ suc (index_of 0x3D word.now) }
{
    slices::find(word, 0, word.len(), b'=') + 1
}

// A word up to its first `=`, that sign too.
pub fn key(word: &[u8]) -> &[u8]
    ensures { result.now ≡ key_of word.now }
{
    texts::part(word, 0, behind_sign(word))
}

// What stands behind that sign.
pub fn value(word: &[u8]) -> &[u8]
    ensures { result.now ≡ value_of word.now }
{
    texts::part(word, behind_sign(word), word.len())
}

// A number with a further digit, where the character is one and the number still fits.
fn with_digit(n: u64, b: u8) -> Option<u64>
    ensures { result ≡ with_digit n b }
{
    if !b.is_ascii_digit() {
        return None;
    }
    n.checked_mul(10)?.checked_add((b - b'0') as u64)
}

// A number in decimal.
pub fn decimal(text: &[u8]) -> Option<u64>
    ensures { result ≡ decimal_of text.now }
{
    if text.is_empty() {
        return None;
    }
    let mut n = 0;
    for b in text {
        n = with_digit(n, *b)?;
    }
    Some(n)
}

// Whether a text of so many characters is just so many pairs.
fn is_whole(len: usize, count: usize) -> bool
    ensures { result ≡ eqb (2 * count) len }
{
    both(len % 2 == 0, len / 2 == count)
}

// A number in hex of so many digit pairs, one to eight.
pub fn hexadecimal(text: &[u8], width: usize) -> Option<u64>
    ensures { result ≡ hexadecimal_of width text.now }
{
    let mut bs = [0u8; 8];
    let n = hex_text::parse(text, &mut bs);
    if !both(0 < width, both(n == width, is_whole(text.len(), n))) {
        return None;
    }
    Some(octets::number(texts::part(&bs, 0, n)))
}

// Puts the bytes of the digit pairs that a text begins with at the start of an output, and says how many of these are its payload,
// where it is one: a dash is the empty one.
pub fn payload(text: &[u8], out: &mut [u8]) -> Option<usize>
    ensures value { result ≡ option_map length (payload_of (length out.old) text.now) }
    ensures out_after { out.new ≡ put out.old 0 (pairs (length out.old) text.now) }
{
    let len = hex_text::parse(text, out);
    if check::same(text, b"-") {
        return Some(0);
    }
    if !both(0 < text.len(), is_whole(text.len(), len)) {
        return None;
    }
    Some(len)
}
