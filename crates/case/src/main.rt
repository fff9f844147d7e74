// Answers each line of the standard input by a row on the standard output. Input of any length takes constant memory.
#![tactic(auto)]

ghost use Rattle.std.specs.Prelude.{◌≡◌, ◌+◌, ◌≤◌, length};
ghost use Rattle.octets.specs.Octets.{put};
ghost use Rattle.case_line.specs.Line.{printed};

use lines::AnswersLines;

// A letter, a space and 4,096 digit pairs, and a byte more: a line that goes on past these is another line, whatever follows.
const LONGEST: usize = 8195;

// What the longest row takes, by the promise of `answer_line`.
const ROW: usize = 8218;

// Puts what is printed for a line behind what is ready of the output, all of it, and answers where it ends.
fn answer(line: &[u8], output: &mut [u8], ready: usize) -> usize
    requires { ready + 8218 ≤ length output.old }
    ensures value { result ≡ ready + length (printed line.now) }
    ensures output_after { output.new ≡ put output.old ready (printed line.now) }
    ensures upper_bound { result ≤ length output.old }
{
    ready + case_line::answer_line(line, &mut output[ready..])
}

// A row for each line.
#[derive(Clone, Copy)]
struct Rows;

impl AnswersLines for Rows {
    ghost row_len = { 8218 };

    fn row_len(&self) -> usize {
        ROW
    }

    fn answer(&mut self, line: &[u8], output: &mut [u8], ready: usize) -> usize {
        answer(line, output, ready)
    }
}

// A failed read or write is the end of a filter, with nobody left to tell.
fn main(rt: HostRuntime) {
    let mut input = [0u8; 65536];
    let mut output = [0u8; 65536];
    // No more of a line is held than counts; that leaves room to read, and the longest row has room.
    prove!(LONGEST <= 8195);
    prove!(LONGEST < input.len());
    prove!(ROW <= output.len());
    let _ = lines::answer_rows(&rt, &mut input, &mut output, LONGEST, &mut Rows);
}
