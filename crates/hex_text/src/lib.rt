// Bytes in hex, and numbers in decimal, as ASCII text. Every call is total: text that doesn't fit isn't put.
#![tactic(auto)]

mod worths;

ghost use Rattle.std.specs.Prelude.{◌≡◌, ◌/◌, ◌<◌, ◌≤◌, min, length};
ghost use Rattle.octets.specs.Octets.{put};
ghost use Rattle.hex_text.specs.Hex.{digit, spelled, pairs, decimal};

use worths::WORTHS;

const DIGITS: [u8; 16] = *b"0123456789ABCDEF";

fn digit_of(n: u8) -> u8
    requires { n < 16 }
    ensures { result ≡ digit n }
{
    DIGITS[n as usize]
}

// Puts the bytes of the digit pairs that a text begins with at the start of an output, as far as it has room, and answers how many
// they are.
pub fn parse(text: &[u8], out: &mut [u8]) -> usize
    ensures value { result ≡ length (pairs (length out.old) text.now) }
    ensures out_after { out.new ≡ put out.old 0 (pairs (length out.old) text.now) }
    ensures upper_bound { result ≤ length out.old }
{
    // The table is laid out once a call, not once a digit.
    let worths = WORTHS;
    let n = out.len().min(text.len() / 2);
    for i in 0..n {
        let b = worths[text[2 * i] as usize] * 16 + worths[text[2 * i + 1] as usize];
        if 255 < b {
            return i;
        }
        out[i] = b as u8;
    }
    n
}

// Puts bytes at a place, in upper-case hex.
pub fn put_hex(out: &mut [u8], at: usize, bs: &[u8])
    ensures { out.new ≡ put out.old at (spelled bs.now) }
{
    if out.len() / 2 < bs.len() {
        return;
    }
    if out.len() - 2 * bs.len() < at {
        return;
    }
    for (i, b) in bs.iter().enumerate() {
        out[at + 2 * i] = digit_of(b / 16);
        out[at + 2 * i + 1] = digit_of(b % 16);
    }
}

// How many decimal digits a number has.
pub fn decimal_len(n: u64) -> usize
    ensures value { result ≡ length (decimal n) }
    ensures upper_bound { result ≤ 20 }
{
    n.max(1).ilog10() as usize + 1
}

// Puts a number at a place, in decimal.
pub fn put_decimal(out: &mut [u8], at: usize, n: u64)
    ensures { out.new ≡ put out.old at (decimal n) }
{
    let len = decimal_len(n);
    if out.len() < len {
        return;
    }
    if out.len() - len < at {
        return;
    }
    let mut rest = n;
    for i in (0..len).rev() {
        out[at + i] = digit_of((rest % 10) as u8);
        rest /= 10;
    }
}
