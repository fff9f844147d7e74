// Answers each line of the standard input, a letter and a payload in hex, by a row with every detail.
#![tactic(auto)]

mod line;

use lines::AnswersLines;
use rows::stream;

// More than any row has. The longest has a payload of 65,535 bytes in hex twice, as it is written and in its fields.
const ROW: usize = 300000;

// A row for each line; its payload is put together in lent memory.
#[derive(Drop)]
struct Rows<'a> {
    payload: &'a mut [u8],
}

impl AnswersLines for Rows<'_> {
    ghost row_len = { 300000 };

    fn row_len(&self) -> usize {
        ROW
    }

    fn answer(&mut self, line: &[u8], output: &mut [u8], ready: usize) -> usize {
        line::put(output, ready, line, self.payload)
    }
}

// A failed read or write is the end of a filter, with nobody left to tell.
fn main(rt: HostRuntime) {
    let mut input = stream::buffer();
    let mut payload = [0u8; line::PAYLOAD];
    let mut output = stream::buffer();
    let longest = line::LONGEST + 1;
    // What is pending of a line leaves room to read, and the longest row has room.
    prove!(longest < input.len());
    prove!(ROW <= output.len());
    let mut rows = Rows {
        payload: &mut payload,
    };
    let _ = lines::answer_rows(&rt, &mut input, &mut output, longest, &mut rows);
}
