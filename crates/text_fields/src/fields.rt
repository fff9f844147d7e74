// Fields in wire form, a two-byte length and UTF-8 text each, and the lists that can be.
ghost use Rattle.std.specs.Prelude.{◌≡◌, ◌+◌, ◌≤◌, length};
ghost use Rattle.text_fields.specs.Fields.{field_at, entries, is_empty, is_list};

use crate::{Fault, TextList};
use texts::Text;

// The fields from a place on: how many, and the place behind the last.
#[derive(Clone, Copy)]
pub struct Run {
    pub count: usize,
    pub next: usize,
}

// The field at a place that has its two length bytes.
#[inline(always)]
fn whole_field(s: &[u8], at: usize) -> Result<Option<Text>, Fault>
    requires { at + 2 ≤ length s.now }
    ensures { result ≡ field_at s.now at }
{
    let n = s.len();
    let place = at + 2;
    let len = octets::number(&s[at..place]) as usize;
    let end = place + len;
    if n < end {
        return Err(Fault::Past { end, len: n });
    }
    let text = &s[place..end];
    let good = text::well_formed(text);
    if good < len {
        let place = place + good;
        let bad = text::bad_length(text, good);
        return Err(Fault::Garbled { place, bad });
    }
    Ok(Some(Text { place, len }))
}

// The text of the field at a place, where there is one. That there is none is asked where it is called: the absent fields of a record
// cost no call.
#[inline(always)]
pub(crate) fn field_at(s: &[u8], at: usize) -> Result<Option<Text>, Fault>
    ensures { result ≡ field_at s.now at }
{
    let n = s.len();
    if n < 2 {
        return Ok(None);
    }
    if n - 2 < at {
        return Ok(None);
    }
    whole_field(s, at)
}

// The fields from a place on while there are any, at most `most`.
#[inline(always)]
pub(crate) fn entries_at(s: &[u8], at: usize, most: usize) -> Result<Run, Fault>
    ensures { result ≡ entries most s.now at 0 }
{
    let mut next = at;
    for count in 0..most {
        let Some(text) = field_at(s, next)? else {
            return Ok(Run { count, next });
        };
        next = text.place + text.len;
    }
    Ok(Run { count: most, next })
}

impl TextList {
    pub fn is_empty(self) -> bool
        ensures { result ≡ is_empty self }
    {
        octets::both(self.count == 0, self.len == 0)
    }
}

// A list that is empty, or a run of the slice that is just so many good fields and just so many bytes. It has a walk of
// its own: by way of `entries_at` the compiler makes a slower writer.
pub(crate) fn is_list(texts: &[u8], x: TextList) -> bool
    ensures { result ≡ is_list texts.now x }
{
    let place = x.place;
    let len = x.len;
    let count = x.count;
    if x.is_empty() {
        return true;
    }
    let mut next = place;
    for _ in 0..count {
        match field_at(texts, next) {
            Ok(Some(text)) => next = text.place + text.len,
            Ok(None) => return false,
            Err(_) => return false,
        }
    }
    next - place == len
}
