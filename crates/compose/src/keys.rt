// The keys of record lines. A key stays a number, which is no less plain than an enum here: it is the key's place in the list of all,
// its bit in the set of a line, and, compared with LISTS, ENTRIES and FIELDS, its kind.

// Texts come first, then lists, then entries that are added to a list; FIELDS keys are of these.
pub(crate) const FD: usize = 0;

pub(crate) const URL: usize = 1;

pub(crate) const DN: usize = 2;

pub(crate) const CP: usize = 3;

pub(crate) const DNP: usize = 4;

pub(crate) const NAME: usize = 5;

pub(crate) const LISTS: usize = AFD;

pub(crate) const AFD: usize = 6;

pub(crate) const AURL: usize = 7;

pub(crate) const ADNP: usize = 8;

pub(crate) const ENTRIES: usize = AFD_ENTRY;

pub(crate) const AFD_ENTRY: usize = 9;

pub(crate) const AURL_ENTRY: usize = 10;

pub(crate) const ADNP_ENTRY: usize = 11;

pub(crate) const FIELDS: usize = 12;

pub(crate) const SLICE: usize = 12;

pub(crate) const ROOM: usize = 13;

pub(crate) const BRIEF: usize = 14;

pub(crate) const FLAGS: usize = 15;

pub(crate) const SEID: usize = 16;

pub(crate) const TEID: usize = 17;

pub(crate) const V4: usize = 18;

pub(crate) const V6: usize = 19;

pub(crate) const PORT: usize = 20;

pub(crate) const CTAG: usize = 21;

pub(crate) const STAG: usize = 22;

pub(crate) const DB: usize = 23;

pub(crate) const PL: usize = 24;

pub(crate) const CID: usize = 25;

pub(crate) const CH4: usize = 26;

pub(crate) const CH6: usize = 27;

pub(crate) const CHDUAL: usize = 28;

pub(crate) const DUAL: usize = 29;

pub(crate) const UNKNOWN: usize = 30;

// The number of a word's key.
pub(crate) fn key_of(word: &[u8]) -> usize {
    words::index(
        b"fd= url= dn= cp= dnp= name= afd= aurl= adnp= afd+= aurl+= adnp+= slice= room= brief flags= seid= teid= v4= v6= port= ctag= stag= db= pl= cid= ch4 ch6 chdual dual=",
        words::key(word),
    )
}

// How many bytes the value of a key has that is a number.
pub(crate) fn width_of(key: usize) -> usize {
    match key {
        FLAGS | DB | PL | CID => 1,
        PORT => 2,
        TEID | V4 | CTAG | STAG => 4,
        SEID => 8,
        V6 => 16,
        _ => 0,
    }
}
