// PFD Contents: what the calls of a line give. Once the words were seen, they are walked again, to store texts so that the entries of
// a list stand one behind the other, and to make the builder's calls in the order of the line.
use crate::calls::Call;
use crate::numbers::Given;
use crate::seen::Values;
use crate::{calls, fixed, keys, seen};
use answer::{Answer, Built};
use pfd_contents::{PfdContents, PfdContentsAdded, PfdContentsBuilder};
use text_fields::TextList;
use texts::Text;

// A builder after some calls, the answer of the last, and the record whose fields are as the keys have them.
#[derive(Clone, Copy)]
struct Calls {
    answer: Answer,
    builder: PfdContentsBuilder,
    record: PfdContents,
}

fn with_text(mut record: PfdContents, key: usize, text: Text) -> PfdContents {
    match key {
        keys::FD => record.flow_description = Some(text),
        keys::URL => record.url = Some(text),
        keys::DN => record.domain_name = Some(text),
        keys::CP => record.custom_pfd_content = Some(text),
        _ => record.domain_name_protocol = Some(text),
    }
    record
}

fn with_list(mut record: PfdContents, key: usize, list: TextList) -> PfdContents {
    match key {
        keys::AFD => record.additional_flow_description = list,
        keys::AURL => record.additional_url = list,
        _ => record.additional_domain_name_and_protocol = list,
    }
    record
}

fn set_text(b: PfdContentsBuilder, key: usize, place: usize, len: usize) -> PfdContentsBuilder {
    match key {
        keys::FD => b.flow_description(place, len),
        keys::URL => b.url(place, len),
        keys::DN => b.domain_name(place, len),
        keys::CP => b.custom_pfd_content(place, len),
        _ => b.domain_name_protocol(place, len),
    }
}

fn set_list(b: PfdContentsBuilder, key: usize, list: TextList) -> PfdContentsBuilder {
    match key {
        keys::AFD => b.additional_flow_descriptions(list),
        keys::AURL => b.additional_urls(list),
        _ => b.additional_domain_names_and_protocols(list),
    }
}

fn add(b: PfdContentsBuilder, key: usize, texts: &[u8], place: usize) -> PfdContentsAdded {
    match key {
        keys::AFD_ENTRY => b.add_additional_flow_description(texts, place),
        keys::AURL_ENTRY => b.add_additional_url(texts, place),
        _ => b.add_additional_domain_name_and_protocol(texts, place),
    }
}

fn called(calls: Calls, key: usize, given: Given, texts: &[u8]) -> Calls {
    let builder = calls.builder;
    let record = calls.record;
    if key < keys::LISTS {
        let text = Text {
            place: given.place,
            len: given.len,
        };
        return Calls {
            answer: Answer::Done,
            builder: set_text(builder, key, given.place, given.len),
            record: with_text(record, key, text),
        };
    }
    if key < keys::ENTRIES {
        let list = TextList {
            place: given.place,
            len: given.len,
            count: given.count,
        };
        return Calls {
            answer: Answer::Done,
            builder: set_list(builder, key, list),
            record: with_list(record, key, list),
        };
    }
    let added = add(builder, key, texts, given.place);
    let answer = added.answer;
    let builder = added.builder;
    Calls {
        answer,
        builder,
        record,
    }
}

// A further call. Behind a refused one, and for a key that is no field, there is none.
fn with_word(
    calls: Calls,
    word: &[u8],
    has_places: bool,
    texts: &mut [u8],
    len: usize,
    starts: &mut Values,
) -> Calls {
    let answer = calls.answer;
    if answer.number() != 0 {
        return calls;
    }
    let key = keys::key_of(word);
    if keys::FIELDS <= key {
        return calls;
    }
    let start = seen::start_of(starts, key);
    let Some(given) = seen::given(key, words::value(word), has_places, texts, start) else {
        return calls;
    };
    seen::grow(starts, key, given.len);
    called(calls, key, given, texts::part(texts, 0, len))
}

// Makes all calls. A field's start moves behind each text that is stored for it.
fn all_calls(
    line: &[u8],
    has_places: bool,
    texts: &mut [u8],
    len: usize,
    starts: &mut Values,
) -> Calls {
    let mut calls = Calls {
        answer: Answer::Done,
        builder: PfdContents::builder(),
        record: PfdContents::EMPTY,
    };
    for word in line.split(|b| *b == b' ').skip(1) {
        calls = with_word(calls, word, has_places, texts, len, starts);
    }
    calls
}

// Turns the lengths of fields into starts, each behind the one before, and returns where the last ends.
pub(crate) fn to_starts(values: &mut Values) -> usize {
    let mut sum: usize = 0;
    for start in values[..keys::ENTRIES].iter_mut() {
        let len = *start;
        *start = sum;
        sum = sum.saturating_add(len);
    }
    sum
}

// The text that a constructor is given, which is empty where the line has none.
fn or_empty(text: Option<Text>) -> Text {
    text.unwrap_or(Text { place: 0, len: 0 })
}

// The record of a constructor.
fn constructed(record: PfdContents, call: Call, texts: &[u8]) -> Built<PfdContents> {
    let flow = or_empty(record.flow_description);
    let url = or_empty(record.url);
    let domain = or_empty(record.domain_name);
    let protocol = or_empty(record.domain_name_protocol);
    match call {
        Call::PFlowDescription => PfdContents::flow_description(texts, flow.place, flow.len),
        Call::PUrl => PfdContents::url(texts, url.place, url.len),
        Call::PDomainName => PfdContents::domain_name(texts, domain.place, domain.len),
        Call::PFlowAndUrl => PfdContents::flow_and_url(
            texts, flow.place, flow.len, url.place, url.len,
        ),
        _ => PfdContents::domain_and_protocol(
            texts,
            domain.place,
            domain.len,
            protocol.place,
            protocol.len,
        ),
    }
}

fn made(calls: Calls, call: Call, flags: usize, texts: &[u8]) -> Built<PfdContents> {
    let answer = calls.answer;
    let builder = calls.builder;
    let mut record = calls.record;
    if answer.number() != 0 {
        return Built { answer, record };
    }
    record.flags = fixed::to_u8(flags);
    match call {
        Call::P | Call::PRaw => Built { answer, record },
        Call::PBuild | Call::PRawBuild => builder.build(texts),
        _ => constructed(record, call, texts),
    }
}

// What the calls of a line give, whose texts are stored in so many bytes.
pub(crate) fn built(
    line: &[u8],
    call: Call,
    flags: usize,
    texts: &mut [u8],
    len: usize,
    starts: &mut Values,
) -> Built<PfdContents> {
    let calls = all_calls(line, calls::has_places(call), texts, len, starts);
    made(calls, call, flags, texts::part(texts, 0, len))
}

// The slice is that of a line with places, or what the texts of all fields make.
pub(crate) fn slice_len(call: Call, texts: usize, slice: usize) -> usize {
    match call {
        Call::PRaw | Call::PRawBuild | Call::PRead => slice,
        _ => texts,
    }
}
