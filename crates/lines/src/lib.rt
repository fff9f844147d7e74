// Lines of the standard input, in a buffer that is read into piece by piece, and what answers them.
#![tactic(auto)]

ghost use Rattle.std.specs.Prelude.{◌≡◌, ◌+◌, ◌<◌, ◌≤◌, ℕ, length, IfOk, ◌∷◌, [], ◌&&◌, eqb, ltb};
ghost use Rattle.octets.specs.Octets.{field, pick, put};
ghost use Rattle.slices.specs.Slices.{slice, index_of};

mod by_closure;

use std::io;
use std::io::Read;

// Moves n bytes from a place on to the front of a buffer, as many as are there, and answers how many they are.
pub fn to_front(buffer: &mut [u8], from: usize, n: usize) -> usize
    ensures value { result ≡ length (field buffer.old from n) }
    ensures buffer_after { buffer.new ≡ put buffer.old 0 (field buffer.old from n) }
    ensures upper_bound { result ≤ n }
{
    let start = from.min(buffer.len());
    let count = n.min(buffer.len() - start);
    buffer.copy_within(start..start + count, 0);
    count
}

// What answers lines, each by a row of so many bytes at most.
pub trait AnswersLines {
    ghost row_len: { ℕ };

    fn row_len(&self) -> usize
        ensures { result ≡ row_len };

    // Puts what answers a line behind what is ready of an output, and returns where it ends. `answer_rows` calls it, where there is room.
    fn answer(&mut self, line: &[u8], output: &mut [u8], ready: usize) -> usize
        requires { ready + row_len ≤ length output.old };
}

// Answers the lines of the standard input on the standard output, in constant memory. A line's end isn't part of it, and the end of the
// input ends a last line. Of a line that no read ends, no more than `longest` bytes count. What can't be read or written is the end. An
// output shorter than a row is refused, and so is an input with no byte to read into beside what counts. Input and output are lent memory
// with what stands in it beside them: constant memory allows no `Vec`.
pub fn answer_rows<R: Input + Print, A: AnswersLines>(
    rt: &R,
    input: &mut [u8],
    output: &mut [u8],
    longest: usize,
    answer: &mut A,
) -> io::Result<()>
    ensures input_len { length input.new ≡ length input.old }
    ensures output_len { length output.new ≡ length output.old }
{
    if input.len() <= longest {
        return Err(io::Error::from(io::ErrorKind::InvalidInput));
    }
    if output.len() < answer.row_len() {
        return Err(io::Error::from(io::ErrorKind::InvalidInput));
    }
    answer_input(rt, input, output, longest, answer)
}

// The same by a closure: `answer` puts what answers a line at the front of a room, `row` bytes long at least, and returns how many bytes
// that takes. It asks that the closure may be called at any such room, which only who hands it in can show.
pub fn answer_all<R: Input + Print, F: FnMut(&[u8], &mut [u8]) -> usize>(
    rt: &R,
    input: &mut [u8],
    output: &mut [u8],
    longest: usize,
    row: usize,
    mut answer: F,
) -> io::Result<()>
    requires answer { (state : F) (line : _) (room : _) → row ≤ length room.now → F.pre state line room }
    ensures input_len { length input.new ≡ length input.old }
    ensures output_len { length output.new ≡ length output.old }
{
    if longest >= input.len() {
        return Err(io::Error::from(io::ErrorKind::InvalidInput));
    }
    if row > output.len() {
        return Err(io::Error::from(io::ErrorKind::InvalidInput));
    }
    by_closure::answer_input(rt, input, output, longest, row, &mut answer)
}

// Answers the lines, read by read.
fn answer_input<R: Input + Print, A: AnswersLines>(
    rt: &R,
    input: &mut [u8],
    output: &mut [u8],
    longest: usize,
    answer: &mut A,
) -> io::Result<()>
    requires { (longest < length input.old) × (A.row_len ≤ length output.old) }
    ensures input_len { length input.new ≡ length input.old }
    ensures output_len { length output.new ≡ length output.old }
{
    let mut pending = 0;
    // A proved loop has to end, and nothing says that an input does: no run uses up so many turns.
    for _ in 0..u64::MAX {
        let read = read_behind(rt, input, pending)?;
        let end = end_last(input, pending, read);
        let start = answer_ended(rt, &input[..end], pending, output, answer)?;
        if read == pending {
            break;
        }
        pending = move_pending(input, start, end, longest);
    }
    Ok(())
}

// Ends a last line where nothing more was read, and returns where the input ends then. So a line is answered in one place alone, which
// spares the programs a call for each.
fn end_last(input: &mut [u8], pending: usize, read: usize) -> usize
    requires { (pending < length input.old) × (pending ≤ read) × (read ≤ length input.old) }
    ensures value { result ≡ pick (ltb 0 pending && eqb read pending) (pending + 1) read }
    ensures input_after { input.new ≡ pick (ltb 0 pending && eqb read pending) (put input.old pending (10 ∷ [])) input.old }
    ensures within { (read ≤ result) × (result ≤ length input.old) }
    ensures input_len { length input.new ≡ length input.old }
{
    if pending == 0 {
        return read;
    }
    if pending < read {
        return read;
    }
    octets::put_byte(input, pending, b'\n');
    pending + 1
}

// Reads once behind the bytes of an unfinished line, where there is room, and returns where the input ends then.
fn read_behind<R: Input>(rt: &R, input: &mut [u8], pending: usize) -> io::Result<usize>
    requires { pending < length input.old }
    ensures { IfOk result (λ end. (pending ≤ end) × (end ≤ length input.old)) }
{
    let n = rt.reader().read(&mut input[pending..])?;
    Ok(pending + n)
}

// Moves the unfinished line to the front of the input, as much of it as counts, and returns how much that is.
fn move_pending(input: &mut [u8], start: usize, end: usize, longest: usize) -> usize
    requires { (start ≤ end) × (end ≤ length input.old) }
    ensures value { result ≤ longest }
    ensures input_len { length input.new ≡ length input.old }
{
    to_front(input, start, longest.min(end - start))
}

// Answers the lines that have an end, and returns where the first without one starts. There is none in the first `searched` bytes.
// A walk from end to end: a `for` over parts would take the last one, which has no end, for a line, and search those bytes again.
fn answer_ended<R: Print, A: AnswersLines>(
    rt: &R,
    input: &[u8],
    searched: usize,
    output: &mut [u8],
    answer: &mut A,
) -> io::Result<usize>
    requires { (searched ≤ length input.now) × (A.row_len ≤ length output.old) }
    ensures value { IfOk result (λ start. start ≤ length input.now) }
    ensures output_len { length output.new ≡ length output.old }
{
    let mut start = 0;
    let mut ready = 0;
    let mut at = line_end(input, searched);
    while at < input.len() {
        ready = make_room(rt, output, ready, answer.row_len())?;
        ready = answer_one(answer, &input[start..at], output, ready);
        start = at + 1;
        at = line_end(input, start);
    }
    Print::write_all(rt, &output[..ready])?;
    Ok(start)
}

// Where the first line that ends from a place on has its end, or the input's length. A call of its own: within a program's loop the compiler
// makes a slower search of it.
#[inline(never)]
fn line_end(input: &[u8], from: usize) -> usize
    requires { from ≤ length input.now }
    ensures value { result ≡ from + index_of 10 (slice from (length input.now) input.now) }
    ensures within { (from ≤ result) × (result ≤ length input.now) }
{
    slices::find(input, from, input.len(), b'\n')
}

// Makes room for a row: writes the output where the longest one doesn't fit behind what is ready, and returns what is ready then.
fn make_room<R: Print>(rt: &R, output: &[u8], ready: usize, row: usize) -> io::Result<usize>
    requires { (ready ≤ length output.now) × (row ≤ length output.now) }
    ensures { IfOk result (λ ready. ready + row ≤ length output.now) }
{
    if output.len() - ready < row {
        Print::write_all(rt, &output[..ready])?;
        return Ok(0);
    }
    Ok(ready)
}

// Has a line answered where there is room for a row, and returns where what is ready ends.
fn answer_one<A: AnswersLines>(
    answer: &mut A,
    line: &[u8],
    output: &mut [u8],
    ready: usize,
) -> usize
    requires { ready + A.row_len ≤ length output.old }
    ensures value { result ≤ length output.old }
    ensures output_len { length output.new ≡ length output.old }
{
    let most = output.len();
    answer.answer(line, output, ready).min(most)
}
