// Identifiers and sequence numbers, each a type of its own: one is never given where another is wanted.
#![tactic(auto)]

ghost use Rattle.std.specs.Prelude.{◌≡◌, ◌%◌, ◌^◌, true};

// A tunnel endpoint identifier.
// Three types and no generic one: rs-pfcp has these names, and one is never given where another is wanted.
#[derive(Clone, Copy)]
pub struct Teid(pub u32);

// A session endpoint identifier.
#[derive(Clone, Copy)]
pub struct Seid(pub u64);

// A message's sequence number: 24 bits, held in 32.
#[derive(Clone, Copy)]
pub struct SequenceNumber(pub u32);

impl Teid {
    pub fn new(value: u32) -> Teid
        ensures { result ≡ record { 0 = value } }
    {
        Teid(value)
    }

    pub fn value(self) -> u32
        ensures { result ≡ self.0 }
    {
        self.0
    }
}

impl Seid {
    pub fn new(value: u64) -> Seid
        ensures { result ≡ record { 0 = value } }
    {
        Seid(value)
    }

    pub fn value(self) -> u64
        ensures { result ≡ self.0 }
    {
        let value = self.0;
        value
    }
}

impl SequenceNumber {
    pub const MAX: u32 = 16777215;

    // The low 24 bits.
    pub fn new(value: u32) -> SequenceNumber
        ensures { result ≡ record { 0 = value % 2 ^ 24 } }
    {
        SequenceNumber(value % (SequenceNumber::MAX + 1))
    }

    pub fn value(self) -> u32
        ensures { result ≡ self.0 }
    {
        let number = self.0;
        number
    }
}
