// One step of a writer: whether a text or a list can be written, and its bytes put at a place.
ghost use Rattle.std.specs.Prelude.{◌≡◌, ℕ, List, Bool, length};
ghost use Rattle.octets.specs.Octets.{put};
ghost use Rattle.text_fields.specs.Fields.{is_maybe, is_list};
ghost use Rattle.text_fields.specs.Steps.{behind_put, run_bytes, text_bytes, first_bad};

use crate::TextList;
use texts::Text;

// A field of a record: a text that may be absent, or a list of texts.
pub trait TextField: Copy {
    // Whether it can be, and its written form.
    ghost can_be: { List ℕ → Self → Bool };

    ghost bytes: { List ℕ → Self → List ℕ };

    fn is_good(self, texts: &[u8]) -> bool
        ensures { result ≡ can_be texts.now self };

    // Puts the written form, and returns the place behind it: the same place where it doesn't fit.
    fn put(self, texts: &[u8], out: &mut [u8], at: usize) -> usize
        ensures value { result ≡ behind_put (length out.old) at (bytes texts.now self) }
        ensures out_after { out.new ≡ put out.old at (bytes texts.now self) };
}

// The number of the first field that can't be: the one found before, or this one's.
pub fn first_bad<T: TextField>(x: T, before: Option<u8>, texts: &[u8], field: u8) -> Option<u8>
    ensures { result ≡ first_bad before (T.can_be texts.now x) field }
{
    match before {
        Some(_) => before,
        None if x.is_good(texts) => None,
        None => Some(field),
    }
}

impl TextField for Option<Text> {
    ghost can_be = { is_maybe };

    ghost bytes = { text_bytes };

    fn is_good(self, texts: &[u8]) -> bool {
        match self {
            Some(text) => text.is_good(texts),
            None => true,
        }
    }

    // A two-byte length and the text's bytes; nothing where it is absent.
    fn put(self, texts: &[u8], out: &mut [u8], at: usize) -> usize {
        let Some(text) = self else {
            return at;
        };
        let bytes = text.of(texts);
        if out.len() < 2 {
            return at;
        }
        if out.len() - 2 < at {
            return at;
        }
        let start = at + 2;
        if out.len() - start < bytes.len() {
            return at;
        }
        octets::put_number(out, at, 2, bytes.len() as u64);
        octets::put_bytes(out, start, bytes);
        start + bytes.len()
    }
}

impl TextField for TextList {
    ghost can_be = { is_list };

    ghost bytes = { run_bytes };

    fn is_good(self, texts: &[u8]) -> bool {
        crate::fields::is_list(texts, self)
    }

    // The run as it stands. A run of no bytes is passed over at once, since most records have no list.
    fn put(self, texts: &[u8], out: &mut [u8], at: usize) -> usize {
        let place = self.place;
        let len = self.len;
        let run = texts::part(texts, place, len);
        if run.len() == 0 {
            return at;
        }
        if out.len() < run.len() {
            return at;
        }
        if out.len() - run.len() < at {
            return at;
        }
        octets::put_bytes(out, at, run);
        at + run.len()
    }
}
