// The fields that the words of a line give: each a key alone, or a key and a number.
// How the number of a key is written: not at all, for a key alone; in decimal; or in so many bytes of hex.
#[derive(Clone, Copy)]
pub(crate) enum Form {
    Alone,
    Decimal,
    Hex(usize),
}

impl Form {
    fn number(self, text: &[u8]) -> Option<u64> {
        match self {
            Form::Alone => Some(0),
            Form::Decimal => words::decimal(text),
            Form::Hex(width) => words::hexadecimal(text, width),
        }
    }
}

// The numbers of a line's keys, each at the place of its key in the list of all.
pub(crate) type Values = [u64; 16];

// The bits of the keys that a line has.
#[derive(Clone, Copy)]
pub(crate) struct Fields {
    keys: u32,
}

fn bit_of(key: usize) -> u32 {
    if 31 < key {
        return 0;
    }
    1 << key
}

impl Fields {
    pub(crate) const NONE: Fields = Fields { keys: 0 };

    pub(crate) fn has(self, key: usize) -> bool {
        self.keys & bit_of(key) != 0
    }

    // A line has a key once at most.
    pub(crate) fn with(self, key: usize) -> Option<Fields> {
        if self.has(key) {
            return None;
        }
        Some(Fields {
            keys: self.keys | bit_of(key),
        })
    }
}

fn note(values: &mut Values, key: usize, x: u64) {
    if key < 16 {
        values[key] = x;
    }
}

// Looks at all words of a text, by a list of keys and how the number of each is written. Each has to be good.
pub(crate) fn look(
    text: &[u8],
    keys: &[u8],
    forms: &[Form],
    values: &mut Values,
) -> Option<Fields> {
    let mut fields = Fields::NONE;
    for word in text.split(|b| *b == b' ') {
        let key = words::index(keys, words::key(word));
        let form = forms.get(key).copied()?;
        let x = form.number(words::value(word))?;
        note(values, key, x);
        fields = fields.with(key)?;
    }
    Some(fields)
}
