// UTF-8, checked against the table of its well-formed sequences.
#![tactic(auto)]

ghost use Rattle.std.specs.Prelude.{◌≡◌, true, cond, [], ◌+◌, ◌-◌, ◌<◌, ◌≤◌, max, length, drop, find, take_while, zip, eqb, IfSome, MatchOption};
ghost use Rattle.std.specs.List.{list_all};
ghost use Rattle.text.specs.Utf8.{within, rows, agree, seq_len, good_len, best, bad_len, checked};
ghost use Rattle.text.specs.Steps.{range_of, ranges, allowed, leads, led_by, row_for, Ascii, Passed};

// The bytes from the first to the second.
#[derive(Clone, Copy)]
struct Bytes(u8, u8);

impl Bytes {
    fn contains(self, b: u8) -> bool
        ensures { result ≡ within (range_of self) b }
    {
        (self.0..=self.1).contains(&b)
    }
}

// What a third and a fourth byte may be.
const TRAIL: Bytes = Bytes(0x80, 0xBF);

// Table 3-7 of the Unicode Standard: a row for each kind of sequence, and in it what each byte may be.
const ROWS: [&[Bytes]; 9] = [
    &[Bytes(0x00, 0x7F)],
    &[Bytes(0xC2, 0xDF), Bytes(0x80, 0xBF)],
    &[Bytes(0xE0, 0xE0), Bytes(0xA0, 0xBF), TRAIL],
    &[Bytes(0xE1, 0xEC), Bytes(0x80, 0xBF), TRAIL],
    &[Bytes(0xED, 0xED), Bytes(0x80, 0x9F), TRAIL],
    &[Bytes(0xEE, 0xEF), Bytes(0x80, 0xBF), TRAIL],
    &[Bytes(0xF0, 0xF0), Bytes(0x90, 0xBF), TRAIL, TRAIL],
    &[Bytes(0xF1, 0xF3), Bytes(0x80, 0xBF), TRAIL, TRAIL],
    &[Bytes(0xF4, 0xF4), Bytes(0x80, 0x8F), TRAIL, TRAIL],
];

// How many bytes are tested for ASCII at once, and how many where fewer are left.
const BLOCK: usize = 32;

const WORD: usize = 8;

// Whether a row has `b` as its first byte.
fn leads(row: &[Bytes], b: u8) -> bool
    ensures { result ≡ leads row.now b }
{
    row.first().is_some_and(|bytes| bytes.contains(b))
}

// The first row of a table that `b` leads.
fn first_led(table: &[&'static [Bytes]], b: u8) -> Option<&'static [Bytes]>
    ensures { result ≡ find (led_by b) table.now }
{
    table.iter().copied().find(|row| leads(row, b))
}

// The row that a text starting with `lead` can agree with.
fn row_of(lead: u8) -> Option<&'static [Bytes]>
    ensures { MatchOption result (row_for rows lead ≡ []) (λ row. (0 < length row.now) × (ranges row.now ≡ row_for rows lead)) }
{
    first_led(&ROWS, lead)
}

// How many bytes of `text`, from its first on, agree with a row.
fn agreeing(row: &[Bytes], text: &[u8]) -> usize
    ensures { result ≡ length (take_while allowed (zip row.now text.now)) }
{
    row.iter()
        .zip(text)
        .take_while(|(bytes, b)| bytes.contains(**b))
        .count()
}

// The length of the sequence at a place, where a whole one stands there.
fn sequence(text: &[u8], at: usize) -> Option<usize>
    ensures { MatchOption result (seq_len rows (drop at text.now) ≡ 0) (λ n. (0 < n) × (at + n ≤ length text.now) × (n ≡ seq_len rows (drop at text.now))) }
{
    let lead = *text.get(at)?;
    if lead < 0x80 {
        return Some(1);
    }
    let row = row_of(lead)?;
    if agreeing(row, &text[at..]) < row.len() {
        return None;
    }
    Some(row.len())
}

// Where the whole sequences from a place on end: at the text's end, or at a bad one. Here and below the steps differ in length, so that no
// `for` takes them; and a text and a place in it stay two parameters, since a struct of both would be taken apart in each loop.
fn walk(text: &[u8], from: usize) -> usize
    requires { from ≤ length text.now }
    ensures { result ≡ from + good_len (drop from text.now) }
{
    let mut at = from;
    while let Some(n) = sequence(text, at) {
        at += n;
    }
    at
}

// Whether all of a row agrees with `text`. Where the row is a constant, its bounds are constants too.
fn agrees(row: &[Bytes], text: &[u8]) -> bool
    requires { length row.now ≤ length text.now }
    ensures { result ≡ list_all allowed (zip row.now text.now) }
{
    row.iter().zip(text).all(|(bytes, b)| bytes.contains(*b))
}

// The length of the sequence that `four` begins with, where there is a whole one. The rows of many first bytes come before those of one.
// Tried as a loop over the rows' numbers: the proof that a row is the table's of that number didn't close.
fn whole(four: &[u8]) -> Option<usize>
    requires { length four.now ≡ 4 }
    ensures { IfSome result (λ n. (0 < n) × (n ≤ 4) × (n ≡ seq_len rows four.now)) }
{
    if four[0] < 0x80 {
        return Some(1);
    }
    if agrees(ROWS[1], four) {
        return Some(2);
    }
    if agrees(ROWS[3], four) {
        return Some(3);
    }
    if agrees(ROWS[5], four) {
        return Some(3);
    }
    if agrees(ROWS[7], four) {
        return Some(4);
    }
    if agrees(ROWS[2], four) {
        return Some(3);
    }
    if agrees(ROWS[4], four) {
        return Some(3);
    }
    if agrees(ROWS[6], four) {
        return Some(4);
    }
    if agrees(ROWS[8], four) {
        return Some(4);
    }
    None
}

// Passes whole sequences as far as `end`, and stops before the text's last three bytes.
fn stride(text: &[u8], from: usize, end: usize) -> usize
    requires { from ≤ length text.now }
    ensures { Passed text.now from result }
{
    let Some(before_last) = text.len().checked_sub(3) else {
        return from;
    };
    let last = end.min(before_last);
    let mut at = from;
    while at < last {
        let Some(n) = whole(&text[at..at + 4]) else {
            return at;
        };
        at += n;
    }
    at
}

// Whether the text has so many bytes from `at` on, all of them ASCII.
fn ascii_at(text: &[u8], at: usize, width: usize) -> bool
    requires { (at ≤ length text.now) × (width ≤ 32) }
    ensures { result ≡ true → Ascii text.now at (at + width) }
{
    // With `get` a block of ASCII would cost an instruction more.
    if text.len() < at + width {
        return false;
    }
    text[at..at + width].iter().fold(0, |bits, b| bits | *b) < 0x80
}

// Passes blocks of ASCII. A `for` over `chunks_exact` would keep the same place beside each block.
fn ascii_end(text: &[u8], from: usize, width: usize) -> usize
    requires from_in_bounds { from ≤ length text.now }
    requires width_nonzero { (0 < width) × (width ≤ 32) }
    ensures { Passed text.now from result }
{
    let mut at = from;
    while ascii_at(text, at, width) {
        at += width;
    }
    at
}

// Whether what is left is shorter than a word, and the text's last word is ASCII.
fn ascii_rest(text: &[u8], from: usize) -> bool
    requires { from ≤ length text.now }
    ensures { result ≡ true → Passed text.now from (length text.now) }
{
    // With `checked_sub` a text would cost eleven instructions more.
    if text.len() < WORD {
        return false;
    }
    let at = text.len() - WORD;
    from >= at && ascii_at(text, at, WORD)
}

// The same, faster. As many bytes as a block has are passed by their sequences before ASCII is tried again, so
// that the time is linear.
fn scan_from(text: &[u8], from: usize) -> usize
    requires { from ≤ length text.now }
    ensures { result ≡ from + good_len (drop from text.now) }
{
    let n = text.len();
    let mut at = from;
    while at < n {
        let end = n.min(at + BLOCK);
        at = stride(text, at, end);
        if at < end {
            return walk(text, at);
        }
        at = ascii_end(text, at, BLOCK);
    }
    at
}

// Where the longest well-formed beginning ends. A text of ASCII alone ends before the sequences.
fn scan(text: &[u8]) -> usize
    ensures value { result ≡ good_len text.now }
    ensures upper_bound { result ≤ length text.now }
{
    let blocks = ascii_end(text, 0, BLOCK);
    let words = ascii_end(text, blocks, WORD);
    if ascii_rest(text, words) {
        return text.len();
    }
    scan_from(text, words)
}

// The length of the longest beginning of `text` that is well formed. What it hands on is a part, and not its parameter, so that the
// compiler passes a text in registers: four instructions fewer for a name.
pub fn well_formed(text: &[u8]) -> usize
    ensures value { result ≡ good_len text.now }
    ensures upper_bound { result ≤ length text.now }
{
    scan(&text[..])
}

// Whether all of `text` is well formed.
pub fn is_good(text: &[u8]) -> bool
    ensures { result ≡ eqb (good_len text.now) (length text.now) }
{
    well_formed(text) == text.len()
}

// Of bytes that follow a good beginning, `most` of which begin a sequence: how many are bad.
fn bad_of(most: usize, left: usize) -> usize
    ensures { result ≡ cond (eqb most left) 0 (max 1 most) }
{
    if most == left {
        return 0;
    }
    most.max(1)
}

// How many bytes of `text` begin a sequence.
fn begun(text: &[u8]) -> usize
    ensures { result ≡ best rows text.now }
{
    let Some(lead) = text.first() else {
        return 0;
    };
    let Some(row) = row_of(*lead) else {
        return 0;
    };
    agreeing(row, text)
}

// How many bytes of `text` are bad behind its good beginning: none where nothing follows that, or where more bytes
// could complete what follows. Whoever refuses a text asks it, and nobody else.
pub fn bad_length(text: &[u8], good: usize) -> usize
    ensures { result ≡ bad_len (drop good text.now) }
{
    if text.len() <= good {
        return bad_of(0, 0);
    }
    bad_of(begun(&text[good..]), text.len() - good)
}

// What is good of a text, and how many bytes after that are bad: none where the text is good, or
// ends inside a sequence.
#[derive(Clone, Copy)]
pub struct Checked {
    pub good: usize,
    pub bad: usize,
}

pub fn examine(text: &[u8]) -> Checked
    ensures { result ≡ checked text.now }
{
    let good = well_formed(text);
    let bad = bad_length(text, good);
    Checked { good, bad }
}
