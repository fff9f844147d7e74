// Answers each line of the standard input by the last digit of its number and by itself, through a closure. The gate runs it: no other
// program calls `lines::answer_all`.
#![tactic(auto)]

ghost use Rattle.std.specs.Prelude.{◌≤◌, length};

use std::io;

// As many bytes of a line count.
const LONGEST: usize = 9;

// A byte more, so that a longer line is cut at its ninth byte, however it is read.
const INPUT: usize = 10;

// A digit, a space, the longest line, and its end.
const ROW: usize = 12;

// Puts a line behind its number at the front of a room, and answers where its row ends.
fn answer(line: &[u8], room: &mut [u8], number: &mut u8) -> usize
    requires { 12 ≤ length room.old }
{
    *number = number.wrapping_add(1);
    room[0] = b'0' + *number % 10;
    room[1] = b' ';
    octets::put_bytes(room, 2, line);
    octets::put_byte(room, 2 + line.len(), b'\n');
    3 + line.len()
}

// Answers the lines that are left, each by the next number.
fn answer_lines(
    rt: &HostRuntime,
    input: &mut [u8],
    output: &mut [u8],
    number: &mut u8,
) -> io::Result<()> {
    lines::answer_all(
        rt,
        input,
        output,
        LONGEST,
        ROW,
        |line, room| -> usize
            requires { 12 ≤ length room.now }
        { answer(line, room, number) },
    )
}

// Says of four calls whether they were done. The first two read nothing: their input has no byte beside what counts, or their output is
// shorter than a row. The third answers all lines, with more than one row in its output. The last comes at the end of the input, with an
// output of one row.
fn main(rt: HostRuntime) {
    let mut input = [0u8; INPUT];
    let mut output = [0u8; 2 * ROW];
    let mut number = 0;
    let short_input = answer_lines(&rt, &mut [0u8; LONGEST], &mut output, &mut number).is_ok();
    let short_output = answer_lines(&rt, &mut input, &mut [0u8; ROW - 1], &mut number).is_ok();
    let all = answer_lines(&rt, &mut input, &mut output, &mut number).is_ok();
    let at_end = answer_lines(&rt, &mut input, &mut [0u8; ROW], &mut number).is_ok();
    let _ = println!(rt; "{short_input} {short_output} {all} {at_end}");
}
