// One step of a reader, a text or a list under its flag, from a place on.
ghost use Rattle.std.specs.Prelude.{◌≡◌};
ghost use Rattle.octets.specs.Octets.{bit, pick};
ghost use Rattle.text_fields.specs.Fields.{text, list};

use crate::{Fault, Step, TextList};
use texts::Text;

// A text under bit k of the flags.
#[inline(always)]
pub fn read_text(s: &[u8], at: usize, flags: u8, k: u8) -> Result<Step<Option<Text>>, Fault>
    ensures { result ≡ text s.now (bit k flags) at }
{
    if !octets::bit(flags, k) {
        return Ok(Step {
            taken: None,
            next: at,
        });
    }
    let Some(text) = crate::fields::field_at(s, at)? else {
        return Ok(Step {
            taken: None,
            next: at,
        });
    };
    Ok(Step {
        taken: Some(text),
        next: text.place + text.len,
    })
}

// How many fields a list may take: one where a later list is flagged too.
fn most_of(later: bool, n: usize) -> usize
    ensures { result ≡ pick later 1 n }
{
    if later { 1 } else { n }
}

impl TextList {
    // A list under bit k of the flags; `later` says whether a later list is flagged too.
    #[inline(always)]
    pub fn read(s: &[u8], at: usize, flags: u8, k: u8, later: bool) -> Result<Step<TextList>, Fault>
        ensures { result ≡ list s.now (bit k flags) later at }
    {
        if !octets::bit(flags, k) {
            return Ok(Step {
                taken: TextList::EMPTY,
                next: at,
            });
        }
        let run = crate::fields::entries_at(s, at, most_of(later, s.len()))?;
        let next = run.next;
        let taken = TextList {
            place: at,
            len: next - at,
            count: run.count,
        };
        Ok(Step { taken, next })
    }
}
