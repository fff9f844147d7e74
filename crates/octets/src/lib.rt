// Bytes as flags, numbers and addresses, and bytes put into an output. Every call is total: bytes that don't fit aren't put.
#![tactic(auto)]

ghost use Rattle.std.specs.Prelude.{◌≡◌, ◌∷◌, [], true, ◌&&◌, ◌||◌, ◌+◌, ◌-◌, ◌*◌, ◌/◌, ◌%◌, ◌≤◌, ◌<◌, ◌^◌, length, get_or, replicate, leb, IfSome, None, option_map};
ghost use Rattle.octets.specs.Octets.{pick, bit, if_set, flag_byte, big_endian, big_endian_bytes, is_number, address_of, number_of, bytes_if, number_if, put};

// Whether bit k of a byte is set; a byte has no bit above 7.
pub fn bit(b: u8, k: u8) -> bool
    ensures { result ≡ bit k b }
{
    if 7 < k {
        return false;
    }
    (b >> k) % 2 == 1
}

// A number where a flag is set, 0 where it isn't.
pub fn if_set(flag: bool, n: usize) -> usize
    ensures value { result ≡ if_set flag n }
    ensures upper_bound { result ≤ n }
{
    if flag { n } else { 0 }
}

// Two flags joined, in calls of their own, so that a function doesn't branch where it asks.
pub fn both(a: bool, b: bool) -> bool
    ensures { result ≡ a && b }
{
    a && b
}

pub fn either(a: bool, b: bool) -> bool
    ensures { result ≡ a || b }
{
    a || b
}

// A byte of eight flags, bit 0 first.
pub fn flag_byte(
    f0: bool,
    f1: bool,
    f2: bool,
    f3: bool,
    f4: bool,
    f5: bool,
    f6: bool,
    f7: bool,
) -> u8
    ensures { result ≡ flag_byte (f0 ∷ f1 ∷ f2 ∷ f3 ∷ f4 ∷ f5 ∷ f6 ∷ f7 ∷ []) }
{
    let low = if_set(f0, 1) + if_set(f1, 2) + if_set(f2, 4) + if_set(f3, 8);
    let high = if_set(f4, 16) + if_set(f5, 32) + if_set(f6, 64) + if_set(f7, 128);
    (low + high) as u8
}

// The number of four bytes from a place on.
fn load_big_endian(bs: &[u8], at: usize) -> u32
    requires { at + 4 ≤ length bs.now }
    ensures { result ≡ ((get_or bs.now at 0 * 256 + get_or bs.now (at + 1) 0) * 256 + get_or bs.now (at + 2) 0) * 256 + get_or bs.now (at + 3) 0 }
{
    u32::from_be_bytes([bs[at], bs[at + 1], bs[at + 2], bs[at + 3]])
}

// The number of any bytes, one after the other.
fn fold_big_endian(bs: &[u8]) -> u64
    ensures value { result ≡ pick (leb (length bs.now) 8) (big_endian bs.now) 0 }
    ensures upper_bound { result < 256 ^ length bs.now }
{
    if 8 < bs.len() {
        return 0;
    }
    let mut x: u64 = 0;
    for b in bs {
        x = x * 256 + *b as u64;
    }
    x
}

// The number whose bytes these are, 0 where they are more than eight.
// It could never fail, and its clause `value` has 0 there; `number_of` is the one with an `Option`.
pub fn number(bs: &[u8]) -> u64
    ensures value { result ≡ pick (leb (length bs.now) 8) (big_endian bs.now) 0 }
    ensures upper_bound { result < 256 ^ length bs.now }
{
    if bs.len() == 8 {
        return load_big_endian(bs, 0) as u64 * 4294967296 + load_big_endian(bs, 4) as u64;
    }
    if bs.len() == 4 {
        return load_big_endian(bs, 0) as u64;
    }
    fold_big_endian(bs)
}

// The address of just these bytes: there are as many as it has.
pub fn address<const N: usize>(bs: &[u8]) -> Option<[u8; N]>
    ensures { result ≡ address_of N bs.now }
{
    <[u8; N]>::try_from(bs).ok()
}

// Whether there are one to w bytes.
fn is_number(bs: &[u8], w: usize) -> bool
    ensures { result ≡ is_number w bs.now }
{
    if bs.len() == 0 {
        return false;
    }
    bs.len() <= w
}

// The number of these bytes, where there are one to W.
pub fn number_of<const W: usize>(bs: &[u8]) -> Option<u64>
    ensures value { result ≡ pick (leb W 8) (number_of W bs.now) None }
    ensures upper_bound { IfSome result (λ x. x < 256 ^ W) }
{
    if 8 < W {
        return None;
    }
    if !is_number(bs, W) {
        return None;
    }
    Some(number(bs))
}

// The same as a number of one, of two or of four bytes. A generic function over `TryFrom<u64>` could say its answer only through
// `try_from_gives`, which each caller would have to open.
pub fn u8_of(bs: &[u8]) -> Option<u8>
    ensures { result ≡ number_of 1 bs.now }
{
    let x = number_of::<1>(bs)?;
    Some(x as u8)
}

pub fn u16_of(bs: &[u8]) -> Option<u16>
    ensures { result ≡ number_of 2 bs.now }
{
    let x = number_of::<2>(bs)?;
    Some(x as u16)
}

pub fn u32_of(bs: &[u8]) -> Option<u32>
    ensures { result ≡ number_of 4 bs.now }
{
    let x = number_of::<4>(bs)?;
    Some(x as u32)
}

// Puts bytes at a place.
pub fn put_bytes(out: &mut [u8], at: usize, bs: &[u8])
    ensures { out.new ≡ put out.old at bs.now }
{
    if out.len() < bs.len() {
        return;
    }
    if out.len() - bs.len() < at {
        return;
    }
    slices::copy(bs, &mut out[at..]);
}

// Puts a byte at a place.
pub fn put_byte(out: &mut [u8], at: usize, b: u8)
    ensures { out.new ≡ put out.old at (b ∷ []) }
{
    if at < out.len() {
        out[at] = b;
    }
}

// Puts zeros from a place on, up to another.
pub fn put_zeros(out: &mut [u8], at: usize, end: usize)
    ensures { out.new ≡ put out.old at (replicate (end - at) 0) }
{
    if out.len() < end {
        return;
    }
    for i in at..end {
        out[i] = 0;
    }
}

// Puts a number at a place, as w bytes.
pub fn put_number(out: &mut [u8], at: usize, w: usize, x: u64)
    ensures { out.new ≡ put out.old at (big_endian_bytes w x) }
{
    if out.len() < w {
        return;
    }
    if out.len() - w < at {
        return;
    }
    let mut rest = x;
    for i in (0..w).rev() {
        out[at + i] = (rest % 256) as u8;
        rest = rest / 256;
    }
}

// Puts the bytes of a field at a place, where there are any.
pub fn put_given(out: &mut [u8], at: usize, bs: Option<&[u8]>)
    ensures { out.new ≡ put out.old at (bytes_if (option_map (λ b. b.now) bs.entry)) }
{
    if let Some(bs) = bs {
        put_bytes(out, at, bs);
    }
}

// Every address that is written is put here, byte by byte: handed on as a slice it would have to stand on the stack. So it would by a loop
// over single bytes, which the compiler makes a copy of memory: where they are fours, four go at a time.

// Whether w bytes have room from a place on.
fn has_room(room: usize, at: usize, w: usize) -> bool
    ensures { result ≡ leb (at + w) room }
{
    if room < w {
        return false;
    }
    at <= room - w
}

// Puts an address at a place, where there is one.
pub fn put_address<const N: usize>(out: &mut [u8], at: usize, address: Option<[u8; N]>)
    ensures { out.new ≡ put out.old at (bytes_if address.entry) }
{
    let Some(octets) = address else {
        return;
    };
    if !has_room(out.len(), at, N) {
        return;
    }
    if N % 4 != 0 {
        for i in 0..N {
            out[at + i] = octets[i];
        }
        return;
    }
    for k in 0..N / 4 {
        let i = 4 * k;
        out[at + i] = octets[i];
        out[at + i + 1] = octets[i + 1];
        out[at + i + 2] = octets[i + 2];
        out[at + i + 3] = octets[i + 3];
    }
}

// Puts a number at a place, as w bytes, where there is one.
pub fn put_number_if(out: &mut [u8], at: usize, w: usize, x: Option<u64>)
    ensures { out.new ≡ put out.old at (number_if w x) }
{
    if let Some(x) = x {
        put_number(out, at, w, x);
    }
}
