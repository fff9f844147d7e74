// The lines of the case program: a payload in hex is read, written again, and answered by a row.
#![tactic(auto)]

ghost use Rattle.std.specs.Prelude.{◌≡◌, ◌∷◌, [], ◌++◌, ◌+◌, ◌*◌, ◌<◌, ◌≤◌, length, take};
ghost use Rattle.std.specs.Prelude.{None, Some, IfSome, option_map};
ghost use Rattle.octets.specs.Octets.{pick, put};
ghost use Rattle.hex_text.specs.Hex.{decimal};
ghost use Rattle.case_line.specs.Line.{row, row_for, payload, line_row, hex_or_dash, shown, printed, taken};
ghost use Rattle.case_line.specs.Steps.{row_in, WroteRow};

use answer::{Read, Written};
use f_teid::Fteid;
use fseid::Fseid;
use node_id::NodeId;
use outer_header_creation::OuterHeaderCreation;
use pfd_contents::PfdContents;
use ue_ip_address::UeIpAddress;

// Puts `? 0 -`.
fn put_other(out: &mut [u8]) -> usize
    ensures value { result ≡ taken (length (shown None)) (length out.old) }
    ensures out_after { out.new ≡ put out.old 0 (shown None) }
{
    if out.len() < 6 {
        return 0;
    }
    octets::put_bytes(out, 0, b"? 0 -\n");
    6
}

// Puts a number and a space.
fn put_count(out: &mut [u8], at: usize, n: u64)
    requires { at + (length (decimal n) + 1) ≤ length out.old }
    ensures { out.new ≡ put out.old at (decimal n ++ (0x20 ∷ [])) }
{
    hex_text::put_decimal(out, at, n);
    octets::put_byte(out, at + hex_text::decimal_len(n), b' ');
}

// Puts bytes in hex, a dash for none, and the end of the line.
fn put_written(out: &mut [u8], at: usize, bs: &[u8])
    requires { at + (length (hex_or_dash bs.now) + 1) ≤ length out.old }
    ensures { out.new ≡ put out.old at (hex_or_dash bs.now ++ (0x0A ∷ [])) }
{
    if bs.len() == 0 {
        octets::put_bytes(out, at, b"-\n");
        return;
    }
    hex_text::put_hex(out, at, bs);
    octets::put_byte(out, at + 2 * bs.len(), b'\n');
}

// Puts a row.
fn put_row(out: &mut [u8], number: u8, used: usize, bs: &[u8]) -> usize
    ensures value { result ≡ taken (length (shown (Some (row number used bs.now)))) (length out.old) }
    ensures out_after { out.new ≡ put out.old 0 (shown (Some (row number used bs.now))) }
{
    if out.len() / 2 < bs.len() {
        return 0;
    }
    let used_at = hex_text::decimal_len(number as u64) + 1;
    let written_at = used_at + hex_text::decimal_len(used as u64) + 1;
    let dash = octets::if_set(bs.len() == 0, 1);
    let end = written_at + 2 * bs.len() + dash + 1;
    if out.len() < end {
        return 0;
    }
    put_count(out, 0, number as u64);
    put_count(out, used_at, used as u64);
    put_written(out, written_at, bs);
    end
}

// The row of a line, whose bytes are the first `len` of a lent buffer.
#[derive(Clone, Copy)]
struct LineRow {
    number: u8,
    used: usize,
    len: usize,
}

// The row of a payload that was read, once `write` has put the written form of its record into `bytes`.
fn row_of<T: Copy, W: FnOnce(T, &mut [u8]) -> Written>(
    read: Read<T>,
    bytes: &mut [u8],
    write: W,
) -> LineRow
    requires { W.IsAlwaysCallable write }
    ensures { WroteRow W.FnOnce write read bytes.old result bytes.new }
{
    let number = read.answer.number();
    let written = write(read.record, bytes);
    LineRow {
        number,
        used: read.used,
        len: octets::if_set(number == 0, written.len),
    }
}

// The row of a payload, by the letter of its kind. The texts of a Node ID and of a PFD Contents are in the payload.
fn row_for(letter: u8, payload: &[u8], bytes: &mut [u8]) -> Option<LineRow>
    requires { length payload.now ≤ length bytes.old }
    ensures bytes_after { option_map (row_in bytes.new) result ≡ row_for letter payload.now }
    ensures len_in_bounds { IfSome result (λ row. row.len ≤ length bytes.old) }
{
    match letter {
        b'U' => Some(row_of(UeIpAddress::unmarshal(payload), bytes, UeIpAddress::marshal)),
        b'F' => Some(row_of(Fteid::unmarshal(payload), bytes, Fteid::marshal)),
        b'S' => Some(row_of(Fseid::unmarshal(payload), bytes, Fseid::marshal)),
        b'N' => Some(row_of(
            NodeId::unmarshal(payload),
            bytes,
            |r, out| r.marshal(payload, out),
        )),
        b'O' => Some(row_of(
            OuterHeaderCreation::unmarshal(payload),
            bytes,
            OuterHeaderCreation::marshal,
        )),
        b'P' => Some(row_of(
            PfdContents::unmarshal(payload),
            bytes,
            |r, out| r.marshal(payload, out),
        )),
        _ => None,
    }
}

// Reads the payload of a line's text into `bytes`, and answers its length, where the text gives one.
fn find_payload(text: &[u8], bytes: &mut [u8]) -> Option<usize>
    requires { length bytes.old ≡ 4096 }
    ensures text_value { payload text.now ≡ option_map (λ len. take len bytes.new) result }
    ensures len_bound { IfSome result (λ len. len ≤ 4096) }
{
    let n = text.len();
    if n == 0 {
        return None;
    }
    if n == 1 {
        return (text[0] == b'-').then_some(0);
    }
    let len = hex_text::parse(text, bytes);
    (2 * len == n).then_some(len)
}

// The row of a line, given without its 0A.
fn row_of_line(line: &[u8], bytes: &mut [u8]) -> Option<LineRow>
    requires { length bytes.old ≡ 4096 }
    ensures bytes_after { option_map (row_in bytes.new) result ≡ line_row line.now }
    ensures len_bound { IfSome result (λ row. row.len ≤ 4096) }
{
    if line.len() < 2 {
        return None;
    }
    if line[1] != b' ' {
        return None;
    }
    let mut payload = [0u8; 4096];
    let len = find_payload(&line[2..], &mut payload)?;
    row_for(line[0], &payload[..len], bytes)
}

// Puts what is printed for a line, given without its 0A, at the start of an output, and answers how many bytes that is: none where
// they don't all fit. A row has a number of three digits at most, a count of twenty, 4,096 bytes in hex, two spaces and its end.
pub fn answer_line(line: &[u8], out: &mut [u8]) -> usize
    ensures value { result ≡ taken (length (printed line.now)) (length out.old) }
    ensures out_after { out.new ≡ put out.old 0 (printed line.now) }
    ensures upper_bound { result ≤ length out.old }
    ensures line_len_bound { length (printed line.now) ≤ 8218 }
{
    let mut bytes = [0u8; 4096];
    match row_of_line(line, &mut bytes) {
        Some(row) => put_row(out, row.number, row.used, &bytes[..row.len]),
        None => put_other(out),
    }
}
