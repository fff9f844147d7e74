// Texts as places in a lent slice.
#![tactic(auto)]

ghost use Rattle.std.specs.Prelude.{◌≡◌, take, drop};
ghost use Rattle.texts.specs.Texts.{is_text, bytes_of_text};

// A text: its place and its length in a slice that goes with it.
#[derive(Clone, Copy)]
pub struct Text {
    pub place: usize,
    pub len: usize,
}

impl Text {
    // The bytes of a text, as far as the slice has them.
    pub fn of(self, texts: &[u8]) -> &[u8]
        ensures { result.now ≡ bytes_of_text texts.now self }
    {
        part(texts, self.place, self.len)
    }

    // Whether the slice has the text whole, and it is good UTF-8.
    #[tactic(auto, unfolding(crate::specs::Texts::is_text))]
    pub fn is_good(self, texts: &[u8]) -> bool
        ensures { result ≡ is_text texts.now self }
    {
        let Some(rest) = texts.get(self.place..) else {
            return false;
        };
        let Some(text) = rest.get(..self.len) else {
            return false;
        };
        text::is_good(text)
    }
}

// So many bytes from a place on, as far as there are any.
pub fn part(s: &[u8], place: usize, len: usize) -> &[u8]
    ensures { result.now ≡ take len (drop place s.now) }
{
    let rest = &s[place.min(s.len())..];
    &rest[..len.min(rest.len())]
}
