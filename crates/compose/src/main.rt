// Answers each line of the standard input, a record by its fields, a constructor or a builder's calls, by a row with every detail.
#![tactic(auto)]

mod calls;
mod f_teid_calls;
mod f_teid_line;
mod fields;
mod fixed;
mod fixed_rows;
mod keys;
mod line;
mod node_id_line;
mod numbers;
mod pfd_calls;
mod pfd_line;
mod seen;
mod store;
mod written;

use lines::AnswersLines;
use rows::stream;

// More than any row has. The longest has texts of 65,535 bytes in hex twice, as they are written and in their fields.
const ROW: usize = 300000;

// A row for each line; its texts are put together in lent memory.
#[derive(Drop)]
struct Rows<'a> {
    texts: &'a mut [u8],
}

impl AnswersLines for Rows<'_> {
    ghost row_len = { 300000 };

    fn row_len(&self) -> usize {
        ROW
    }

    fn answer(&mut self, line: &[u8], output: &mut [u8], ready: usize) -> usize {
        line::put(output, ready, line, self.texts)
    }
}

// A failed read or write is the end of a filter, with nobody left to tell.
fn main(rt: HostRuntime) {
    let mut input = stream::buffer();
    let mut texts = [0u8; 131072];
    let mut output = stream::buffer();
    let longest = line::LONGEST + 1;
    // What is pending of a line leaves room to read, and the longest row has room.
    prove!(longest < input.len());
    prove!(ROW <= output.len());
    let mut rows = Rows { texts: &mut texts };
    let _ = lines::answer_rows(&rt, &mut input, &mut output, longest, &mut rows);
}
