// Message headers: one that is read, in hex, or the fields of one that is written.
use crate::fields;
use crate::fields::{Fields, Form, Values};
use answer::Written;
use details::{fixed, refusals};
use header::Header;
use types::{Seid, SequenceNumber};

// The keys of a record, and how the number of each is written.
const KEYS: [u8; 46] = *b"ver= fo mp s type= len= seid= seq= prio= room=";

const FORMS: [Form; 10] = [
    Form::Hex(1),
    Form::Alone,
    Form::Alone,
    Form::Alone,
    Form::Hex(1),
    Form::Hex(2),
    Form::Hex(8),
    Form::Hex(4),
    Form::Hex(1),
    Form::Decimal,
];

// A key stays a number, which is no less plain than an enum here: it is the key's place in both lists, and its bit in the set of a line.
const VER: usize = 0;

const FO: usize = 1;

const MP: usize = 2;

const S: usize = 3;

const TYPE: usize = 4;

const LEN: usize = 5;

const SEID: usize = 6;

const SEQ: usize = 7;

const PRIO: usize = 8;

const ROOM: usize = 9;

// A line that is no header in hex is a record.
pub(crate) fn put(out: &mut [u8], at: usize, text: &[u8], payload: &mut [u8]) -> usize {
    if let Some(len) = words::payload(text, payload) {
        return put_read(out, at, texts::part(payload, 0, len));
    }
    let mut values = [0u64; 16];
    values[ROOM] = 65535;
    let Some(fields) = fields::look(text, &KEYS, &FORMS, &mut values) else {
        return rows::put_other(out, at);
    };
    if 65535 < values[ROOM] {
        return rows::put_other(out, at);
    }
    put_written(out, at, record_of(fields, &values), values[ROOM] as usize)
}

// `probe` has a function of this kind of its own: a public one for both may ask nothing of the closures that it is given.
fn put_read(out: &mut [u8], at: usize, payload: &[u8]) -> usize {
    let read = Header::unmarshal(payload);
    let answer = read.answer;
    if answer.number() != 0 {
        return refusals::put_unread(out, at, answer);
    }
    let mut wire = [0u8; 64];
    let written = read.record.marshal(&mut wire);
    let values = fixed::header(read.record, read.used, written.len);
    rows::put(out, at, &fixed::HEADER, &values, &wire)
}

fn record_of(fields: Fields, values: &Values) -> Header {
    Header {
        version: (values[VER] % 256) as u8,
        has_fo: fields.has(FO),
        has_mp: fields.has(MP),
        has_seid: fields.has(S),
        message_type: (values[TYPE] % 256) as u8,
        length: (values[LEN] % 65536) as u16,
        seid: Seid(values[SEID]),
        sequence_number: SequenceNumber((values[SEQ] % 4294967296) as u32),
        message_priority: (values[PRIO] % 256) as u8,
    }
}

// Writes a record where there is so much room. No header is longer than the output here, so that more room changes nothing.
fn write(record: Header, wire: &mut [u8], room: usize) -> Written {
    let room = room.min(wire.len());
    record.marshal(&mut wire[0..room])
}

fn put_written(out: &mut [u8], at: usize, record: Header, room: usize) -> usize {
    let mut wire = [0u8; 64];
    let written = write(record, &mut wire, room);
    let answer = written.answer;
    if answer.number() != 0 {
        return refusals::put_unmade(out, at, answer);
    }
    let values = fixed::header(record, written.len, written.len);
    rows::put(out, at, &fixed::HEADER, &values, &wire)
}
