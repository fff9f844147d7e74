// A list with one entry more, which stands in wire form directly behind the list's run.
ghost use Rattle.std.specs.Prelude.{◌≡◌};
ghost use Rattle.text_fields.specs.Fields.{entry_end, is_behind, added};

use crate::TextList;
use answer::Answer;

// What adding an entry answers; the list is as before where it is refused.
// By `added` the list is as before where it is refused, which an error alone wouldn't say, so it is no `Result`.
#[derive(Clone, Copy)]
pub struct ListAdded {
    pub answer: Answer,
    pub list: TextList,
}

// The place behind the whole good field at a place.
fn entry_end(texts: &[u8], at: usize) -> Option<usize>
    ensures { result ≡ entry_end texts.now at }
{
    match crate::fields::field_at(texts, at) {
        Ok(Some(text)) => Some(text.place + text.len),
        Ok(None) => None,
        Err(_) => None,
    }
}

// Whether a place is the end of the list's run; every place is behind an empty list.
fn is_behind(list: TextList, at: usize) -> bool
    ensures { result ≡ is_behind list at }
{
    let start = list.place;
    let len = list.len;
    if list.is_empty() {
        return true;
    }
    if at < start {
        return false;
    }
    at - start == len
}

impl TextList {
    // The list with the entry at a place; the list's field number goes into a refusal.
    pub fn with_entry(self, texts: &[u8], field: u8, at: usize) -> ListAdded
        ensures { result ≡ added field texts.now self at }
    {
        let n = texts.len();
        if 65535 < n {
            return ListAdded {
                answer: Answer::InputTooLong { length: n },
                list: self,
            };
        }
        let answer = Answer::BadText { field };
        let refused = ListAdded { answer, list: self };
        if !octets::both(crate::fields::is_list(texts, self), is_behind(self, at)) {
            return refused;
        }
        let Some(end) = entry_end(texts, at) else {
            return refused;
        };
        let start = self.place;
        let count = self.count;
        let list = if self.is_empty() {
            TextList {
                place: at,
                len: end - at,
                count: 1,
            }
        } else {
            TextList {
                place: start,
                len: end - start,
                count: count + 1,
            }
        };
        ListAdded {
            answer: Answer::Done,
            list,
        }
    }
}
