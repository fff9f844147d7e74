// The writer: every test first, then a row of eight stores, each behind the one before it.
ghost use Rattle.std.specs.Prelude.{◌≡◌, ◌≤◌, length};
ghost use Rattle.octets.specs.Octets.{put};
ghost use Rattle.kind.specs.Write.{answered, stored};
ghost use Rattle.text_fields.specs.Steps.{run_bytes, text_bytes};
ghost use Rattle.pfd_contents.specs.PfdContents.{tested, write_refusal, meaning, wire};
ghost use Rattle.pfd_contents.specs.Steps.{wire_by_runs, as_refusal};

use crate::PfdContents;
use answer::{Answer, Written};
use text_fields::{TextField, TextList, first_bad};
use texts::Text;

// The number of the first field that can't be, in wire order.
pub(crate) fn bad_field(texts: &[u8], r: PfdContents) -> Option<u8>
    ensures { as_refusal result ≡ tested texts.now r }
{
    let by_flow = first_bad(r.flow_description, None, texts, 11);
    let by_url = first_bad(r.url, by_flow, texts, 12);
    let by_domain = first_bad(r.domain_name, by_url, texts, 13);
    let by_custom = first_bad(r.custom_pfd_content, by_domain, texts, 14);
    let by_protocol = first_bad(r.domain_name_protocol, by_custom, texts, 15);
    let by_flows = first_bad(r.additional_flow_description, by_protocol, texts, 16);
    let by_urls = first_bad(r.additional_url, by_flows, texts, 17);
    first_bad(r.additional_domain_name_and_protocol, by_urls, texts, 18)
}

// Texts that aren't too long: the sum of the widths is a number that fits.
#[derive(Clone, Copy)]
struct ShortTexts<'a> {
    bytes: &'a [u8],
    ghost len_bound: { length bytes.now ≤ 65535 },
}

// How many bytes a text is written as.
fn text_width(texts: ShortTexts, x: Option<Text>) -> usize
    ensures value { result ≡ length (text_bytes texts.entry.bytes.now x) }
    ensures upper_bound { result ≤ 65537 }
{
    match x {
        Some(text) => text.of(texts.bytes).len() + 2,
        None => 0,
    }
}

fn list_width(texts: ShortTexts, x: TextList) -> usize
    ensures value { result ≡ length (run_bytes texts.entry.bytes.now x) }
    ensures upper_bound { result ≤ 65535 }
{
    let place = x.place;
    let len = x.len;
    texts::part(texts.bytes, place, len).len()
}

// How many bytes a record is written as.
fn form_width(texts: ShortTexts, r: PfdContents) -> usize
    ensures { result ≡ length (wire_by_runs texts.entry.bytes.now r) }
{
    let end_flow = 2 + text_width(texts, r.flow_description);
    let end_url = end_flow + text_width(texts, r.url);
    let end_domain = end_url + text_width(texts, r.domain_name);
    let end_custom = end_domain + text_width(texts, r.custom_pfd_content);
    let end_protocol = end_custom + text_width(texts, r.domain_name_protocol);
    let end_flows = end_protocol + list_width(texts, r.additional_flow_description);
    let end_urls = end_flows + list_width(texts, r.additional_url);
    end_urls + list_width(texts, r.additional_domain_name_and_protocol)
}

// Puts the whole written form, for which there is room.
fn put_form(out: &mut [u8], texts: &[u8], r: PfdContents)
    requires { length (wire_by_runs texts.now r) ≤ length out.old }
    ensures { out.new ≡ put out.old 0 (wire_by_runs texts.now r) }
{
    let head = [r.flags, 0];
    octets::put_bytes(out, 0, &head);
    let at_url = r.flow_description.put(texts, out, 2);
    let at_domain = r.url.put(texts, out, at_url);
    let at_custom = r.domain_name.put(texts, out, at_domain);
    let at_protocol = r.custom_pfd_content.put(texts, out, at_custom);
    let at_flows = r.domain_name_protocol.put(texts, out, at_protocol);
    let at_urls = r.additional_flow_description.put(texts, out, at_flows);
    let at_names = r.additional_url.put(texts, out, at_urls);
    r.additional_domain_name_and_protocol
        .put(texts, out, at_names);
}

fn unwritten(answer: Answer) -> Written
    ensures { result ≡ record { answer = answer; len = 0 } }
{
    Written { answer, len: 0 }
}

impl PfdContents {
    pub fn marshal(self, texts: &[u8], out: &mut [u8]) -> Written
        ensures value { result ≡ answered (write_refusal texts.now self) (wire (meaning texts.now self)) (length out.old) }
        ensures out_after { out.new ≡ stored (write_refusal texts.now self) out.old (wire (meaning texts.now self)) }
    {
        let n = texts.len();
        if 65535 < n {
            return unwritten(Answer::InputTooLong { length: n });
        }
        if let Some(field) = bad_field(texts, self) {
            return unwritten(Answer::BadText { field });
        }
        let len = form_width(ShortTexts { bytes: texts }, self);
        if 65535 < len {
            return unwritten(Answer::OutputTooLong);
        }
        if out.len() < len {
            return unwritten(Answer::NoRoom { needed: len });
        }
        put_form(out, texts, self);
        Written {
            answer: Answer::Done,
            len,
        }
    }
}
