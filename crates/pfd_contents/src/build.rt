// The builder, and what is built by it.
ghost use Rattle.std.specs.Prelude.{◌≡◌};
ghost use Rattle.text_fields.specs.Fields.{text_of, added};
ghost use Rattle.pfd_contents.specs.Builder.{fresh, with_flow, with_url, with_domain, with_custom, with_protocol, with_flows, with_urls, with_names, built_record, unbuilt, built, added_to};

use crate::PfdContents;
use answer::{Answer, Built};
use text_fields::TextList;
use texts::Text;

// The fields of a record to be. Which of them are present makes its flags.
#[derive(Clone, Copy)]
pub struct PfdContentsBuilder {
    flow_description: Option<Text>,
    url: Option<Text>,
    domain_name: Option<Text>,
    custom_pfd_content: Option<Text>,
    domain_name_protocol: Option<Text>,
    additional_flow_description: TextList,
    additional_url: TextList,
    additional_domain_name_and_protocol: TextList,
}

// What adding an entry answers; the builder is as before where it is refused.
// By `added_to` a refused one hands the builder back as it was, so it is no `Result`.
#[derive(Clone, Copy)]
pub struct PfdContentsAdded {
    pub answer: Answer,
    pub builder: PfdContentsBuilder,
}

// The record of a builder: each flag where its field is present or its list has an entry.
fn with_flags(b: PfdContentsBuilder) -> PfdContents
    ensures { result ≡ built_record b }
{
    let flow_description = b.flow_description;
    let url = b.url;
    let domain_name = b.domain_name;
    let custom_pfd_content = b.custom_pfd_content;
    let domain_name_protocol = b.domain_name_protocol;
    let additional_flow_description = b.additional_flow_description;
    let additional_url = b.additional_url;
    let additional_domain_name_and_protocol = b.additional_domain_name_and_protocol;
    let flags = octets::flag_byte(
        flow_description.is_some(),
        url.is_some(),
        domain_name.is_some(),
        custom_pfd_content.is_some(),
        domain_name_protocol.is_some(),
        !additional_flow_description.is_empty(),
        !additional_url.is_empty(),
        !additional_domain_name_and_protocol.is_empty(),
    );
    PfdContents {
        flags,
        flow_description,
        url,
        domain_name,
        custom_pfd_content,
        domain_name_protocol,
        additional_flow_description,
        additional_url,
        additional_domain_name_and_protocol,
    }
}

fn unbuilt(answer: Answer) -> Built<PfdContents>
    ensures { result ≡ unbuilt answer }
{
    Built {
        answer,
        record: PfdContents::EMPTY,
    }
}

impl PfdContentsBuilder {
    pub fn new() -> PfdContentsBuilder
        ensures { result ≡ fresh }
    {
        PfdContentsBuilder {
            flow_description: None,
            url: None,
            domain_name: None,
            custom_pfd_content: None,
            domain_name_protocol: None,
            additional_flow_description: TextList::EMPTY,
            additional_url: TextList::EMPTY,
            additional_domain_name_and_protocol: TextList::EMPTY,
        }
    }

    // One setter a field, as rs-pfcp names them; the lists, the entries and the ready-made records below likewise.
    pub fn flow_description(mut self, place: usize, len: usize) -> PfdContentsBuilder
        ensures { result ≡ with_flow self (text_of place len) }
    {
        self.flow_description = Some(Text { place, len });
        self
    }

    pub fn url(mut self, place: usize, len: usize) -> PfdContentsBuilder
        ensures { result ≡ with_url self (text_of place len) }
    {
        self.url = Some(Text { place, len });
        self
    }

    pub fn domain_name(mut self, place: usize, len: usize) -> PfdContentsBuilder
        ensures { result ≡ with_domain self (text_of place len) }
    {
        self.domain_name = Some(Text { place, len });
        self
    }

    pub fn custom_pfd_content(mut self, place: usize, len: usize) -> PfdContentsBuilder
        ensures { result ≡ with_custom self (text_of place len) }
    {
        self.custom_pfd_content = Some(Text { place, len });
        self
    }

    pub fn domain_name_protocol(mut self, place: usize, len: usize) -> PfdContentsBuilder
        ensures { result ≡ with_protocol self (text_of place len) }
    {
        self.domain_name_protocol = Some(Text { place, len });
        self
    }

    pub fn additional_flow_descriptions(mut self, list: TextList) -> PfdContentsBuilder
        ensures { result ≡ with_flows self list }
    {
        self.additional_flow_description = list;
        self
    }

    pub fn additional_urls(mut self, list: TextList) -> PfdContentsBuilder
        ensures { result ≡ with_urls self list }
    {
        self.additional_url = list;
        self
    }

    pub fn additional_domain_names_and_protocols(mut self, list: TextList) -> PfdContentsBuilder
        ensures { result ≡ with_names self list }
    {
        self.additional_domain_name_and_protocol = list;
        self
    }

    // The entry stands in wire form at a place of the slice that is lent.
    pub fn add_additional_flow_description(self, texts: &[u8], place: usize) -> PfdContentsAdded
        ensures { result ≡ added_to (with_flows self) (added 16 texts.now self.additional_flow_description place) }
    {
        let before = self.additional_flow_description;
        let step = before.with_entry(texts, 16, place);
        let answer = step.answer;
        let list = step.list;
        let builder = self.additional_flow_descriptions(list);
        PfdContentsAdded { answer, builder }
    }

    pub fn add_additional_url(self, texts: &[u8], place: usize) -> PfdContentsAdded
        ensures { result ≡ added_to (with_urls self) (added 17 texts.now self.additional_url place) }
    {
        let before = self.additional_url;
        let step = before.with_entry(texts, 17, place);
        let answer = step.answer;
        let list = step.list;
        let builder = self.additional_urls(list);
        PfdContentsAdded { answer, builder }
    }

    pub fn add_additional_domain_name_and_protocol(
        self,
        texts: &[u8],
        place: usize,
    ) -> PfdContentsAdded
        ensures { result ≡ added_to (with_names self) (added 18 texts.now self.additional_domain_name_and_protocol place) }
    {
        let before = self.additional_domain_name_and_protocol;
        let step = before.with_entry(texts, 18, place);
        let answer = step.answer;
        let list = step.list;
        let builder = self.additional_domain_names_and_protocols(list);
        PfdContentsAdded { answer, builder }
    }

    pub fn build(self, texts: &[u8]) -> Built<PfdContents>
        ensures { result ≡ built texts.now self }
    {
        let n = texts.len();
        if 65535 < n {
            return unbuilt(Answer::InputTooLong { length: n });
        }
        let record = with_flags(self);
        if let Some(field) = crate::write::bad_field(texts, record) {
            return unbuilt(Answer::BadText { field });
        }
        if record.flags == 0 {
            return unbuilt(Answer::Unbuilt { rule: 6 });
        }
        Built {
            answer: Answer::Done,
            record,
        }
    }
}

impl PfdContents {
    pub fn builder() -> PfdContentsBuilder
        ensures { result ≡ fresh }
    {
        PfdContentsBuilder::new()
    }

    pub fn flow_description(texts: &[u8], place: usize, len: usize) -> Built<PfdContents>
        ensures { result ≡ built texts.now (with_flow fresh (text_of place len)) }
    {
        PfdContentsBuilder::new()
            .flow_description(place, len)
            .build(texts)
    }

    pub fn url(texts: &[u8], place: usize, len: usize) -> Built<PfdContents>
        ensures { result ≡ built texts.now (with_url fresh (text_of place len)) }
    {
        PfdContentsBuilder::new().url(place, len).build(texts)
    }

    pub fn domain_name(texts: &[u8], place: usize, len: usize) -> Built<PfdContents>
        ensures { result ≡ built texts.now (with_domain fresh (text_of place len)) }
    {
        PfdContentsBuilder::new()
            .domain_name(place, len)
            .build(texts)
    }

    pub fn flow_and_url(
        texts: &[u8],
        flow_place: usize,
        flow_len: usize,
        url_place: usize,
        url_len: usize,
    ) -> Built<PfdContents>
        ensures { result ≡ built texts.now (with_url (with_flow fresh (text_of flow_place flow_len)) (text_of url_place url_len)) }
    {
        PfdContentsBuilder::new()
            .flow_description(flow_place, flow_len)
            .url(url_place, url_len)
            .build(texts)
    }

    pub fn domain_and_protocol(
        texts: &[u8],
        domain_place: usize,
        domain_len: usize,
        protocol_place: usize,
        protocol_len: usize,
    ) -> Built<PfdContents>
        ensures { result ≡ built texts.now (with_protocol (with_domain fresh (text_of domain_place domain_len)) (text_of protocol_place protocol_len)) }
    {
        PfdContentsBuilder::new()
            .domain_name(domain_place, domain_len)
            .domain_name_protocol(protocol_place, protocol_len)
            .build(texts)
    }
}
