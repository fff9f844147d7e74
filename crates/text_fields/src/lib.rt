// Text fields, a two-byte length and UTF-8 text each, and runs of them: one step of a reader, one of a writer, one entry more.
#![tactic(auto)]

mod add;
mod fields;
mod read;
mod write;

ghost use Rattle.std.specs.Prelude.{◌≡◌};
ghost use Rattle.text_fields.specs.Fields.{answer_of};

pub use add::ListAdded;
use answer::Answer;
pub use read::read_text;
pub use write::{TextField, first_bad};

// A list of texts: the place and the byte length of a run of fields in wire form, and how many they are.
#[derive(Clone, Copy)]
pub struct TextList {
    pub place: usize,
    pub len: usize,
    pub count: usize,
}

// What is wrong with a field: it ends past the end, or its text isn't UTF-8 from a place on, where so many bytes are bad.
#[derive(Clone, Copy)]
pub enum Fault {
    Past { end: usize, len: usize },
    Garbled { place: usize, bad: usize },
}

// What a step of a reader took, and the place behind it.
#[derive(Clone, Copy)]
pub struct Step<T> {
    pub taken: T,
    pub next: usize,
}

impl TextList {
    pub const EMPTY: TextList = TextList {
        place: 0,
        len: 0,
        count: 0,
    };
}

// The answer to a payload that has it.
impl From<Fault> for Answer {
    ghost from_gives = { λ fault answer. answer ≡ answer_of fault };

    fn from(fault: Fault) -> Answer {
        match fault {
            Fault::Past { end, len } => Answer::Short {
                field: 10,
                expected: end,
                actual: len,
            },
            Fault::Garbled { place, bad } => Answer::NotUtf8 { place, bad },
        }
    }
}
