// Answers each line of the standard input, what a desk asks beyond one payload, by a row with every detail.
#![tactic(auto)]

mod body_line;
mod distance_line;
mod fields;
mod header_line;
mod line;

use ie::Row;
use lines::AnswersLines;
use rows::stream;

// A row for each line; its payload and its list are put together in lent memory.
#[derive(Drop)]
struct Rows<'a> {
    payload: &'a mut [u8],
    table: &'a mut [Row],
}

impl AnswersLines for Rows<'_> {
    ghost row_len = { 330000 };

    fn row_len(&self) -> usize {
        body_line::ROW
    }

    fn answer(&mut self, line: &[u8], output: &mut [u8], ready: usize) -> usize {
        line::put(output, ready, line, self.payload, self.table)
    }
}

// A failed read or write is the end of a filter, with nobody left to tell.
fn main(rt: HostRuntime) {
    let mut input = stream::buffer();
    let mut payload = [0u8; body_line::LONGEST];
    let mut table = body_line::table();
    let mut output = stream::buffer();
    let longest = line::LONGEST + 1;
    // What is pending of a line leaves room to read, and the longest row has room.
    prove!(longest < input.len());
    prove!(body_line::ROW <= output.len());
    let mut rows = Rows {
        payload: &mut payload,
        table: &mut table,
    };
    let _ = lines::answer_rows(&rt, &mut input, &mut output, longest, &mut rows);
}
