// The row of a payload line: a letter, a space, and the payload in hex, a dash for the empty one. With `V` before it a line asks for
// the strict verdict instead.
use answer::{Read, Written};
use details::{fixed, refusals, texted};
use f_teid::Fteid;
use fseid::Fseid;
use node_id::NodeId;
use outer_header_creation::OuterHeaderCreation;
use pfd_contents::PfdContents;
use rows::Value;
use std::convert::AsSlice;
use ue_ip_address::UeIpAddress;

// How many bytes a payload has at most, more than any that is read.
pub(crate) const PAYLOAD: usize = 65600;

// How many bytes a good line has at most: a letter, a space and so many digit pairs.
const PLAIN: usize = 2 + 2 * PAYLOAD;

// The same with `V` before them.
pub(crate) const LONGEST: usize = PLAIN + 1;

// The letter of a line, and how many bytes its payload has.
#[derive(Clone, Copy)]
struct Asked {
    letter: u8,
    len: usize,
}

pub(crate) fn put(out: &mut [u8], at: usize, line: &[u8], payload: &mut [u8]) -> usize {
    let is_verdict = check::same(words::part(line, 0, 1), b"V");
    let plain = words::part(line, octets::if_set(is_verdict, 1), line.len());
    let Some(asked) = take(plain, payload) else {
        return rows::put_other(out, at);
    };
    let bytes = texts::part(payload, 0, asked.len);
    if is_verdict {
        return put_verdict(out, at, asked.letter, bytes);
    }
    put_row(out, at, asked.letter, bytes)
}

// Takes a line without its `V` apart, and its payload into memory, where it has the form of one.
fn take(line: &[u8], payload: &mut [u8]) -> Option<Asked> {
    if line.len() < 3 {
        return None;
    }
    if PLAIN < line.len() {
        return None;
    }
    if line[1] != b' ' {
        return None;
    }
    let len = words::payload(&line[2..], payload)?;
    Some(Asked {
        letter: line[0],
        len,
    })
}

// The strict verdict on a payload, by its letter.
fn put_verdict(out: &mut [u8], at: usize, letter: u8, payload: &[u8]) -> usize {
    match letter {
        b'U' => put_yes_or_no(out, at, strict::ue_ip_address(payload)),
        b'F' => put_yes_or_no(out, at, strict::f_teid(payload)),
        b'S' => put_yes_or_no(out, at, strict::fseid(payload)),
        b'N' => put_yes_or_no(out, at, strict::node_id(payload)),
        b'O' => put_yes_or_no(out, at, strict::outer_header_creation(payload)),
        b'P' => put_yes_or_no(out, at, strict::pfd_contents(payload)),
        _ => rows::put_other(out, at),
    }
}

fn put_yes_or_no(out: &mut [u8], at: usize, is_yes: bool) -> usize {
    let words = *b"no\nyes\n";
    let row = rows::row(&words, octets::if_set(is_yes, 1));
    rows::put(out, at, row, &[], b"")
}

// The row of a payload, by its letter.
fn put_row(out: &mut [u8], at: usize, letter: u8, payload: &[u8]) -> usize {
    match letter {
        b'U' => put_fixed(
            out,
            at,
            UeIpAddress::unmarshal(payload),
            UeIpAddress::marshal,
            &fixed::UE_IP_ADDRESS,
            fixed::ue_ip_address,
        ),
        b'F' => put_fixed(
            out,
            at,
            Fteid::unmarshal(payload),
            Fteid::marshal,
            &fixed::F_TEID,
            fixed::f_teid,
        ),
        b'S' => put_fixed(
            out,
            at,
            Fseid::unmarshal(payload),
            Fseid::marshal,
            &fixed::FSEID,
            fixed::fseid,
        ),
        b'N' => put_texted(
            out,
            at,
            payload,
            NodeId::unmarshal(payload),
            NodeId::marshal,
            put_node_id,
        ),
        b'O' => put_fixed(
            out,
            at,
            OuterHeaderCreation::unmarshal(payload),
            OuterHeaderCreation::marshal,
            &fixed::OUTER_HEADER_CREATION,
            fixed::outer_header_creation,
        ),
        b'P' => put_texted(
            out,
            at,
            payload,
            PfdContents::unmarshal(payload),
            PfdContents::marshal,
            put_pfd_contents,
        ),
        b'T' => put_text(out, at, payload),
        _ => rows::put_other(out, at),
    }
}

// The row of a payload of fixed fields. `compose` and `desk` have functions of this kind of their own: a public one for all may ask
// nothing of the closures that it is given.
fn put_fixed<
    T: Copy,
    W: FnOnce(T, &mut [u8]) -> Written,
    A: AsSlice<Value> + Copy,
    V: FnOnce(T, usize, usize) -> A,
>(out: &mut [u8], at: usize, read: Read<T>, marshal: W, words: &[u8], values: V) -> usize
    requires marshal { W.IsAlwaysCallable marshal }
    requires values { V.IsAlwaysCallable values }
{
    let answer = read.answer;
    if answer.number() != 0 {
        return refusals::put_unread(out, at, answer);
    }
    let mut wire = [0u8; 64];
    let written = marshal(read.record, &mut wire);
    let values = values(read.record, read.used, written.len);
    rows::put(out, at, words, values.as_slice(), &wire)
}

// The row up to the bar before the fields.
fn put_written(out: &mut [u8], at: usize, used: usize, wire: &[u8]) -> usize {
    let values = [rows::count(used), rows::front(Some(wire.len()))];
    rows::put(out, at, b"0 # # | ", &values, wire)
}

// The row of a payload with texts, whose fields are put behind what is written.
fn put_texted<
    T: Copy,
    W: FnOnce(T, &[u8], &mut [u8]) -> Written,
    F: FnOnce(&mut [u8], usize, &[u8], T) -> usize,
>(out: &mut [u8], at: usize, payload: &[u8], read: Read<T>, marshal: W, put_fields: F) -> usize
    requires marshal { W.IsAlwaysCallable marshal }
    requires put_fields { F.IsAlwaysCallable put_fields }
{
    let answer = read.answer;
    if answer.number() != 0 {
        return refusals::put_unread(out, at, answer);
    }
    let mut wire = [0u8; 65535];
    let written = marshal(read.record, payload, &mut wire);
    let end = put_written(out, at, read.used, texts::part(&wire, 0, written.len));
    put_fields(out, end, payload, read.record)
}

fn put_node_id(out: &mut [u8], at: usize, payload: &[u8], record: NodeId) -> usize {
    let words = texted::NODE_ID;
    let row = rows::row(&words, texted::node_id_type(record));
    rows::put(out, at, row, &texted::node_id(record, true), payload)
}

fn put_pfd_contents(out: &mut [u8], at: usize, payload: &[u8], record: PfdContents) -> usize {
    let values = texted::pfd_contents(record, true);
    rows::put(out, at, &texted::PFD_CONTENTS, &values, payload)
}

// What is good of a text, and how many bytes behind that are bad.
fn put_text(out: &mut [u8], at: usize, text: &[u8]) -> usize {
    let checked = text::examine(text);
    let values = [rows::count(checked.good), rows::count(checked.bad)];
    rows::put(out, at, b"# #\n", &values, b"")
}
