// Record images: what a read or a write hands over to C and Rust, in lent bytes of a fixed layout. Every number takes eight bytes,
// least significant first, which the compiler joins into one store.
#![tactic(auto)]

ghost use Rattle.std.specs.Prelude.{◌≡◌, ◌<◌, ◌^◌, ◌∷◌, [], ◌&&◌, ◌+◌, ◌*◌, get_or, leb, unwrap_or, None};
ghost use Rattle.answer.specs.declared.Answer.TheVariants.{Short, Flags};
ghost use Rattle.answer.specs.Paper.{number_of};
ghost use Rattle.octets.specs.Octets.{pick, if_set, field, put, address_of, number_of as number_in};
ghost use Rattle.image.specs.Image.{little_endian_bytes, number_at, head_size, head, refusal_image, report, address_bytes};

use answer::{Answer, Written};

// Where the numbers of a head stand, each of eight bytes; and how long a head, and a report, is.
const ANSWER: usize = 0;

const VALUE_0: usize = ANSWER + 8;

const VALUE_1: usize = VALUE_0 + 8;

const VALUE_2: usize = VALUE_1 + 8;

const COUNT: usize = VALUE_2 + 8;

pub const HEAD: usize = COUNT + 8;

// Puts a number at a place.
pub fn put_u64(out: &mut [u8], at: usize, x: u64)
    ensures { out.new ≡ put out.old at (little_endian_bytes 8 x) }
{
    let x1 = x / 256;
    let x2 = x1 / 256;
    let x3 = x2 / 256;
    let x4 = x3 / 256;
    let x5 = x4 / 256;
    let x6 = x5 / 256;
    let x7 = x6 / 256;
    let bs = [
        (x % 256) as u8,
        (x1 % 256) as u8,
        (x2 % 256) as u8,
        (x3 % 256) as u8,
        (x4 % 256) as u8,
        (x5 % 256) as u8,
        (x6 % 256) as u8,
        (x7 % 256) as u8,
    ];
    octets::put_bytes(out, at, &bs);
}

// The number of eight bytes.
fn from_little_endian(b0: u8, b1: u8, b2: u8, b3: u8, b4: u8, b5: u8, b6: u8, b7: u8) -> u64
    ensures { result ≡ b0 + 256 * (b1 + 256 * (b2 + 256 * (b3 + 256 * (b4 + 256 * (b5 + 256 * (b6 + 256 * b7)))))) }
{
    let x6 = b6 as u64 + 256 * b7 as u64;
    let x5 = b5 as u64 + 256 * x6;
    let x4 = b4 as u64 + 256 * x5;
    let x3 = b3 as u64 + 256 * x4;
    let x2 = b2 as u64 + 256 * x3;
    let x1 = b1 as u64 + 256 * x2;
    b0 as u64 + 256 * x1
}

// The number at a place; bytes that aren't there count as 0.
pub fn u64_at(image: &[u8], at: usize) -> u64
    ensures { result ≡ number_at image.now at }
{
    let mut bs = [0u8; 8];
    slices::copy(texts::part(image, at, 8), &mut bs);
    from_little_endian(bs[0], bs[1], bs[2], bs[3], bs[4], bs[5], bs[6], bs[7])
}

// The byte at a place, 0 where there is none.
// Images are read whole, so that none is missing; `get_or` has 0 for one.
pub fn byte_at(image: &[u8], at: usize) -> u8
    ensures { result ≡ get_or image.now at 0 }
{
    if image.len() <= at {
        return 0;
    }
    image[at]
}

// The address at a place of an image or of a payload, where it is given.
pub fn address_at<const N: usize>(bytes: &[u8], at: usize, given: bool) -> Option<[u8; N]>
    ensures { result ≡ address_of N (field bytes.now at (if_set given N)) }
{
    octets::address(texts::part(bytes, at, octets::if_set(given, N)))
}

// Puts an address at a place, zeros where there is none.
pub fn put_address<const N: usize>(out: &mut [u8], at: usize, address: Option<[u8; N]>)
    ensures { out.new ≡ put out.old at (address_bytes N address.entry) }
{
    octets::put_bytes(out, at, &address.unwrap_or([0; N]));
}

// The number at a place of a payload, as wide as is said and W bytes at most, 0 where it isn't given.
// `octets::number_of` is the one with an `Option`; images have 0 in an absent field.
pub fn number_or_zero<const W: usize>(bytes: &[u8], at: usize, width: usize, given: bool) -> u64
    ensures value { result ≡ unwrap_or (pick (leb W 8) (number_in W (field bytes.now at (if_set given width))) None) 0 }
    ensures upper_bound { result < 256 ^ W }
{
    octets::number_of::<W>(texts::part(bytes, at, octets::if_set(given, width))).unwrap_or(0)
}

// Puts what an image begins with: the answer's number and values, and a count. From the back to the front, as all of an image.
#[inline(always)]
pub fn put_head(out: &mut [u8], answer: Answer, count: usize)
    ensures { out.new ≡ put out.old 0 (head answer count) }
{
    if out.len() < HEAD {
        return;
    }
    let values = answer.values();
    put_u64(out, COUNT, count as u64);
    put_u64(out, VALUE_2, values.2 as u64);
    put_u64(out, VALUE_1, values.1 as u64);
    put_u64(out, VALUE_0, values.0 as u64);
    put_u64(out, ANSWER, answer.number() as u64);
}

// Puts what a write answered, and returns the answer's number.
// What C calls answers by the paper's number, 0 where all is done and 8 where a lent slice is too short: C has no `Result`.
pub fn put_report(out: &mut [u8], written: Written) -> u64
    ensures value { result ≡ number_of written.answer }
    ensures out_after { out.new ≡ put out.old 0 (report written) }
{
    let answer = written.answer;
    put_head(out, answer, written.len);
    answer.number() as u64
}

// Puts the image of a refused read, and returns the answer's number: the head, then the empty record's zeros up to the size that is
// given.
pub fn put_refused(out: &mut [u8], size: usize, answer: Answer) -> u64
    ensures value { result ≡ number_of answer }
    ensures out_after { out.new ≡ put out.old 0 (refusal_image size answer) }
{
    if out.len() < size {
        return answer.number() as u64;
    }
    octets::put_zeros(out, HEAD, size);
    put_report(out, Written { answer, len: 0 })
}

// Puts the refusal of a payload that ends before a needed field.
// Public, with a promise of its own: it spares its callers an answer of three fields.
pub fn put_short(out: &mut [u8], size: usize, field: u8, expected: usize, actual: usize) -> u64
    ensures value { result ≡ number_of (Short field expected actual) }
    ensures out_after { out.new ≡ put out.old 0 (refusal_image size (Short field expected actual)) }
{
    put_refused(
        out,
        size,
        Answer::Short {
            field,
            expected,
            actual,
        },
    )
}

// Puts the refusal of flags that break a rule.
pub fn put_flags(out: &mut [u8], size: usize, byte: u8, rule: u8) -> u64
    ensures value { result ≡ number_of (Flags byte rule) }
    ensures out_after { out.new ≡ put out.old 0 (refusal_image size (Flags byte rule)) }
{
    put_refused(out, size, Answer::Flags { byte, rule })
}

// Whether an image and a report have their bytes.
pub fn long_enough(size: usize, image_len: usize, report_len: usize) -> bool
    ensures { result ≡ leb size image_len && leb head_size report_len }
{
    if image_len < size {
        return false;
    }
    HEAD <= report_len
}
