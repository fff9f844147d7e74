// Lines answered by a closure. For `answer_rows` a type answers them; no type can hold the fact that its closure may be called, so the
// walk over the lines stands here once more, of the same steps but for the call.

ghost use Rattle.std.specs.Prelude.{◌≡◌, ◌+◌, ◌<◌, ◌≤◌, length, take, IfOk};

use super::{line_end, make_room, move_pending, read_behind};
use std::io;

// Answers the lines, read by read, and what is pending at the end of the input.
pub(super) fn answer_input<R: Input + Print, F: FnMut(&[u8], &mut [u8]) -> usize>(
    rt: &R,
    input: &mut [u8],
    output: &mut [u8],
    longest: usize,
    row: usize,
    answer: &mut F,
) -> io::Result<()>
    requires longest { longest < length input.old }
    requires row { row ≤ length output.old }
    requires answer { (state : F) (line : _) (room : _) → row ≤ length room.now → F.pre state line room }
    ensures input_len { length input.new ≡ length input.old }
    ensures output_len { length output.new ≡ length output.old }
{
    let mut pending = 0;
    // No run uses up so many turns.
    for _ in 0..u64::MAX {
        let end = read_behind(rt, input, pending)?;
        if end == pending {
            break;
        }
        let start = answer_ended(rt, &input[..end], pending, output, row, answer)?;
        pending = move_pending(input, start, end, longest);
    }
    if pending == 0 {
        return Ok(());
    }
    let last = answer_one(answer, &input[..pending], output, 0);
    Print::write_all(rt, &output[..last])
}

// Answers the lines that have an end, and returns where the first without one starts. There is none in the first `searched` bytes.
fn answer_ended<R: Print, F: FnMut(&[u8], &mut [u8]) -> usize>(
    rt: &R,
    input: &[u8],
    searched: usize,
    output: &mut [u8],
    row: usize,
    answer: &mut F,
) -> io::Result<usize>
    requires searched { searched ≤ length input.now }
    requires room { row ≤ length output.old }
    requires answer { (state : F) (line : _) (room : _) → row ≤ length room.now → F.pre state line room }
    ensures value { IfOk result (λ start. start ≤ length input.now) }
    ensures output_len { length output.new ≡ length output.old }
{
    let mut start = 0;
    let mut ready = 0;
    let mut at = line_end(input, searched);
    while at < input.len() {
        ready = make_room(rt, output, ready, row)?;
        ready = answer_one(answer, &input[start..at], output, ready);
        start = at + 1;
        at = line_end(input, start);
    }
    Print::write_all(rt, &output[..ready])?;
    Ok(start)
}

// Has a line answered behind what is ready, which stays, and returns where what is ready ends.
fn answer_one<F: FnMut(&[u8], &mut [u8]) -> usize>(
    answer: &mut F,
    line: &[u8],
    output: &mut [u8],
    ready: usize,
) -> usize
    requires ready { ready ≤ length output.old }
    requires answer { (state : F) (line : _) (room : _) → length output.old ≤ ready + length room.now → F.pre state line room }
    ensures value { (ready ≤ result) × (result ≤ length output.old) }
    ensures stays { take ready output.new ≡ take ready output.old }
    ensures output_len { length output.new ≡ length output.old }
{
    let room = &mut output[ready..];
    let most = room.len();
    ready + answer(line, room).min(most)
}
