// The PFD Contents payload: texts that may be absent and lists of texts, each by its place in a lent slice, the payload itself
// after reading.
#![tactic(auto)]

mod build;
mod read;
mod write;

pub use build::{PfdContentsAdded, PfdContentsBuilder};
pub use read::read_fields;
pub use text_fields::TextList;
pub use texts::Text;

// The flags stand whole; what is present is said by the fields, not by the flags.
#[derive(Clone, Copy)]
pub struct PfdContents {
    pub flags: u8,
    pub flow_description: Option<Text>,
    pub url: Option<Text>,
    pub domain_name: Option<Text>,
    pub custom_pfd_content: Option<Text>,
    pub domain_name_protocol: Option<Text>,
    pub additional_flow_description: TextList,
    pub additional_url: TextList,
    pub additional_domain_name_and_protocol: TextList,
}

impl PfdContents {
    pub const EMPTY: PfdContents = PfdContents {
        flags: 0,
        flow_description: None,
        url: None,
        domain_name: None,
        custom_pfd_content: None,
        domain_name_protocol: None,
        additional_flow_description: TextList::EMPTY,
        additional_url: TextList::EMPTY,
        additional_domain_name_and_protocol: TextList::EMPTY,
    };
}
