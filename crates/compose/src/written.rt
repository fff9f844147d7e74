// The rows of records with texts, as they are written where there is so much room.
ghost use Rattle.std.specs.Prelude.{◌≡◌, length};

use answer::Written;
use octets::both;

// Room for the longest written form.
pub(crate) fn buffer() -> [u8; 65535]
    ensures { 65535 ≡ length result }
{
    [0; 65535]
}

// A raw line has no fields. Those of a record that would be too long can still be shown.
fn has_fields(number: u8, is_raw: bool) -> bool {
    match number {
        0 | 7 => !is_raw,
        _ => false,
    }
}

// Writes a record where there is so much room. Puts the answer, what it counts, and the written form, but where that is left out; and
// behind these the fields, where the row has them.
pub(crate) fn put<
    T: Copy,
    W: FnOnce(T, &[u8], &mut [u8]) -> Written,
    F: FnOnce(&mut [u8], usize, &[u8], T, bool) -> usize,
>(
    out: &mut [u8],
    at: usize,
    record: T,
    texts: &[u8],
    room: usize,
    is_raw: bool,
    is_brief: bool,
    marshal: W,
    put_fields: F,
) -> usize
    requires marshal { W.IsAlwaysCallable marshal }
    requires put_fields { F.IsAlwaysCallable put_fields }
{
    let mut wire = buffer();
    let room = room.min(65535);
    let written = marshal(record, texts, &mut wire[0..room]);
    let answer = written.answer;
    let number = answer.number();
    let values = answer.values();
    let row = [
        rows::count(number as usize),
        rows::count(if number == 0 { written.len } else { values.0 }),
        rows::front(both(number == 0, !is_brief).then_some(written.len)),
    ];
    if !has_fields(number, is_raw) {
        return rows::put(out, at, b"# # #\n", &row, &wire);
    }
    let end = rows::put(out, at, b"# # # | ", &row, &wire);
    put_fields(out, end, texts, record, false)
}
