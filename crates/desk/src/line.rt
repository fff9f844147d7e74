// The row of a line: a letter, a space, and what the letter asks for.
use crate::{body_line, distance_line, header_line};
use ie::Row;

// How many bytes a good line has at most: a letter, a space and 65,600 digit pairs; where it is a body's, words before these too.
const PLAIN: usize = 131202;

pub(crate) const LONGEST: usize = PLAIN + body_line::WORDS;

pub(crate) fn put(
    out: &mut [u8],
    at: usize,
    line: &[u8],
    payload: &mut [u8],
    table: &mut [Row],
) -> usize {
    let text = words::part(line, 2, line.len());
    match letter_of(line) {
        b'B' => body_line::put(out, at, text, payload, table),
        b'H' => header_line::put(out, at, text, payload),
        b'D' => distance_line::put(out, at, text),
        _ => rows::put_other(out, at),
    }
}

// The letter of a line that has a space behind it and isn't too long; 0 for any other line.
fn letter_of(line: &[u8]) -> u8 {
    if line.len() < 2 {
        return 0;
    }
    if longest_of(line[0]) < line.len() {
        return 0;
    }
    if line[1] != b' ' {
        return 0;
    }
    line[0]
}

fn longest_of(letter: u8) -> usize {
    match letter {
        b'B' => LONGEST,
        _ => PLAIN,
    }
}
