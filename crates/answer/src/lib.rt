// What a call answers: done, or the refusal with its values.
#![tactic(auto)]

ghost use Rattle.std.specs.Prelude.{◌≡◌};
ghost use Rattle.answer.specs.Paper.{number_of, values_of};

#[derive(Clone, Copy)]
pub enum Answer {
    // 0
    Done,
    // 1: the payload ends before a needed field; lengths count from its start.
    Short {
        field: u8,
        expected: usize,
        actual: usize,
    },
    // 2: forbidden flags.
    Flags {
        byte: u8,
        rule: u8,
    },
    // 3: a Node ID of no known type.
    NodeType {
        byte: u8,
    },
    // 4: a text that isn't UTF-8, on reading: where its good beginning ends, and how many bytes there are bad, 0 where the text ends
    // inside a sequence that more bytes could complete.
    NotUtf8 {
        place: usize,
        bad: usize,
    },
    // 5: a payload or a lent text slice above 65,535 bytes.
    InputTooLong {
        length: usize,
    },
    // 6: a record's text or list that can't exist.
    BadText {
        field: u8,
    },
    // 7: the written form would pass 65,535 bytes.
    OutputTooLong,
    // 8: the output is shorter than the written form.
    NoRoom {
        needed: usize,
    },
    // 9: a builder refuses.
    Unbuilt {
        rule: u8,
    },
    // 10: a number that is no sequence number, in a distance.
    NoSequenceNumber,
    // 11: an IE of length zero whose type may not have it.
    ZeroLength,
}

// The values that the paper gives with an answer, in its order; those that it doesn't name are 0.
#[derive(Clone, Copy)]
pub struct Values(pub usize, pub usize, pub usize);

// What reading a payload answers; by the definition `refused` of each kind a refused read has the empty record and
// used 0, so it is no `Result`.
#[derive(Clone, Copy)]
pub struct Read<T> {
    pub answer: Answer,
    pub used: usize,
    pub record: T,
}

// What a build answers; by `built` a refused one has the empty record, so it is no `Result`.
#[derive(Clone, Copy)]
pub struct Built<T> {
    pub answer: Answer,
    pub record: T,
}

// What a write answers, with the written length.
// By `answered` a refused write has the length 0 beside its answer, so it is no `Result`.
#[derive(Clone, Copy)]
pub struct Written {
    pub answer: Answer,
    pub len: usize,
}

impl<T> Read<T> {
    // A read that is refused: its record is the empty one.
    pub fn refused(answer: Answer, empty: T) -> Read<T>
        ensures { result ≡ record { answer = answer; used = 0; «record» = empty } }
    {
        Read {
            answer,
            used: 0,
            record: empty,
        }
    }
}

impl Answer {
    // The answer's number on paper.
    // No `From`: the number and the values are named by what they are, `number_of` and `values_of`.
    pub fn number(self) -> u8
        ensures { result ≡ number_of self }
    {
        match self {
            Answer::Done => 0,
            Answer::Short {
                field: _,
                expected: _,
                actual: _,
            } => 1,
            Answer::Flags { byte: _, rule: _ } => 2,
            Answer::NodeType { byte: _ } => 3,
            Answer::NotUtf8 { place: _, bad: _ } => 4,
            Answer::InputTooLong { length: _ } => 5,
            Answer::BadText { field: _ } => 6,
            Answer::OutputTooLong => 7,
            Answer::NoRoom { needed: _ } => 8,
            Answer::Unbuilt { rule: _ } => 9,
            Answer::NoSequenceNumber => 10,
            Answer::ZeroLength => 11,
        }
    }

    // The answer's values on paper.
    pub fn values(self) -> Values
        ensures { result ≡ values_of self }
    {
        match self {
            Answer::Done => Values(0, 0, 0),
            Answer::Short {
                field,
                expected,
                actual,
            } => Values(field as usize, expected, actual),
            Answer::Flags { byte, rule } => Values(byte as usize, rule as usize, 0),
            Answer::NodeType { byte } => Values(byte as usize, 0, 0),
            Answer::NotUtf8 { place, bad } => Values(place, bad, 0),
            Answer::InputTooLong { length } => Values(length, 0, 0),
            Answer::BadText { field } => Values(field as usize, 0, 0),
            Answer::OutputTooLong => Values(0, 0, 0),
            Answer::NoRoom { needed } => Values(needed, 0, 0),
            Answer::Unbuilt { rule } => Values(rule as usize, 0, 0),
            Answer::NoSequenceNumber => Values(0, 0, 0),
            Answer::ZeroLength => Values(0, 0, 0),
        }
    }
}
