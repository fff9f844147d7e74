// PFD Contents in a record image.
#![tactic(auto)]

ghost use Rattle.std.specs.Prelude.{◌≡◌, ◌≤◌, ◌+◌, length, ◌++◌};
ghost use Rattle.answer.specs.declared.Answer.TheVariants.{Done};
ghost use Rattle.answer.specs.Paper.{number_of};
ghost use Rattle.octets.specs.Octets.{put};
ghost use Rattle.image.specs.Image.{number_at, head, read_number, read_image, long_enough, write_number, write_output, write_report};
ghost use Rattle.pfd_contents.specs.PfdContents.{read};
ghost use Rattle.pfd_contents_image.specs.PfdContentsImage.{flow_at, flows_at, size, text_image, list_image, texts_image, lists_image, record_image, image_of, text_at, list_at, record_at, writes, stores};

use answer::Answer;
use pfd_contents::PfdContents;
use text_fields::TextList;
use texts::Text;

// Where each field of an image stands, and how long an image is: a text is a place and a length, a list those and a count.
const FLAGS: usize = image::HEAD;

const GIVEN: usize = FLAGS + 1;

const FLOW: usize = GIVEN + 1;

const URL: usize = FLOW + 16;

const DOMAIN: usize = URL + 16;

const CUSTOM: usize = DOMAIN + 16;

const PROTOCOL: usize = CUSTOM + 16;

const FLOWS: usize = PROTOCOL + 16;

const URLS: usize = FLOWS + 24;

const NAMES: usize = URLS + 24;

pub const SIZE: usize = NAMES + 24;

// Puts a text's place and length, zeros where it is absent.
fn put_text(out: &mut [u8], at: usize, text: Option<Text>)
    requires { at + 16 ≤ length out.old }
    ensures { out.new ≡ put out.old at (text_image text) }
{
    let shown = text.unwrap_or(Text { place: 0, len: 0 });
    image::put_u64(out, at + 8, shown.len as u64);
    image::put_u64(out, at, shown.place as u64);
}

// Puts a run's place, its length and its count.
fn put_list(out: &mut [u8], at: usize, list: TextList)
    requires { at + 24 ≤ length out.old }
    ensures { out.new ≡ put out.old at (list_image list) }
{
    image::put_u64(out, at + 16, list.count as u64);
    image::put_u64(out, at + 8, list.len as u64);
    image::put_u64(out, at, list.place as u64);
}

// Puts the five texts.
fn put_texts(out: &mut [u8], record: PfdContents)
    ensures { out.new ≡ put out.old flow_at (texts_image «record») }
{
    if out.len() < FLOWS {
        return;
    }
    put_text(out, PROTOCOL, record.domain_name_protocol);
    put_text(out, CUSTOM, record.custom_pfd_content);
    put_text(out, DOMAIN, record.domain_name);
    put_text(out, URL, record.url);
    put_text(out, FLOW, record.flow_description);
}

// Puts the three lists.
fn put_lists(out: &mut [u8], record: PfdContents)
    ensures { out.new ≡ put out.old flows_at (lists_image «record») }
{
    if out.len() < SIZE {
        return;
    }
    put_list(out, NAMES, record.additional_domain_name_and_protocol);
    put_list(out, URLS, record.additional_url);
    put_list(out, FLOWS, record.additional_flow_description);
}

// Puts the image of a read that is done, from the back to the front. The test tells the compiler that there is room, so that no put
// tests it again.
fn put_image(out: &mut [u8], used: usize, record: PfdContents)
    ensures { out.new ≡ put out.old 0 (head Done used ++ record_image «record») }
{
    if out.len() < SIZE {
        return;
    }
    let given = octets::flag_byte(
        record.flow_description.is_some(),
        record.url.is_some(),
        record.domain_name.is_some(),
        record.custom_pfd_content.is_some(),
        record.domain_name_protocol.is_some(),
        false,
        false,
        false,
    );
    put_lists(out, record);
    put_texts(out, record);
    octets::put_byte(out, GIVEN, given);
    octets::put_byte(out, FLAGS, record.flags);
    image::put_head(out, Answer::Done, used);
}

// The number at a place whose eight bytes are there: one load.
fn number_at(image: &[u8], at: usize) -> u64
    requires { at + 8 ≤ length image.now }
    ensures { result ≡ number_at image.now at }
{
    image::u64_at(&image[at..at + 8], 0)
}

// The text at a place, where it is given.
fn text_at(image: &[u8], at: usize, given: bool) -> Option<Text>
    requires { at + 16 ≤ length image.now }
    ensures { result ≡ text_at image.now at given }
{
    let place = number_at(image, at);
    let len = number_at(image, at + 8);
    given.then_some(Text {
        place: place as usize,
        len: len as usize,
    })
}

// The list at a place.
fn list_at(image: &[u8], at: usize) -> TextList
    requires { at + 24 ≤ length image.now }
    ensures { result ≡ list_at image.now at }
{
    let place = number_at(image, at);
    let len = number_at(image, at + 8);
    let count = number_at(image, at + 16);
    TextList {
        place: place as usize,
        len: len as usize,
        count: count as usize,
    }
}

// The record that stands in an image.
fn record_at(image: &[u8]) -> PfdContents
    requires { size ≤ length image.now }
    ensures { result ≡ record_at image.now }
{
    let flags = image::byte_at(image, FLAGS);
    let given = image::byte_at(image, GIVEN);
    PfdContents {
        flags,
        flow_description: text_at(image, FLOW, octets::bit(given, 0)),
        url: text_at(image, URL, octets::bit(given, 1)),
        domain_name: text_at(image, DOMAIN, octets::bit(given, 2)),
        custom_pfd_content: text_at(image, CUSTOM, octets::bit(given, 3)),
        domain_name_protocol: text_at(image, PROTOCOL, octets::bit(given, 4)),
        additional_flow_description: list_at(image, FLOWS),
        additional_url: list_at(image, URLS),
        additional_domain_name_and_protocol: list_at(image, NAMES),
    }
}

pub fn read(payload: &[u8], image: &mut [u8]) -> u64
    ensures value { result ≡ read_number size image.old (read payload.now).answer }
    ensures image_after { image.new ≡ read_image size image.old (image_of (read payload.now)) }
{
    if image.len() < SIZE {
        return 8;
    }
    let n = payload.len();
    if 65535 < n {
        return image::put_refused(image, SIZE, Answer::InputTooLong { length: n });
    }
    if n < 2 {
        return image::put_short(image, SIZE, 0, 2, n);
    }
    match pfd_contents::read_fields(payload, payload[0]) {
        Ok(step) => {
            put_image(image, step.next, step.taken);
            0
        }
        Err(fault) => image::put_refused(image, SIZE, Answer::from(fault)),
    }
}

pub fn write(image: &[u8], texts: &[u8], out: &mut [u8], report: &mut [u8]) -> u64
    ensures value { result ≡ write_number (long_enough size image.now report.old) (writes image.now texts.now out.old) }
    ensures out_after { out.new ≡ write_output (long_enough size image.now report.old) (stores image.now texts.now out.old) out.old }
    ensures report_after { report.new ≡ write_report (long_enough size image.now report.old) report.old (writes image.now texts.now out.old) }
{
    if !image::long_enough(SIZE, image.len(), report.len()) {
        return 8;
    }
    let record = record_at(image);
    image::put_report(report, record.marshal(texts, out))
}
