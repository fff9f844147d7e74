// The reader: a row of eight steps, each from where the one before it came to.
ghost use Rattle.std.specs.Prelude.{◌≡◌};
ghost use Rattle.pfd_contents.specs.PfdContents.{refused, read};
ghost use Rattle.pfd_contents.specs.Steps.{eight_steps};

use crate::PfdContents;
use answer::{Answer, Read};
use text_fields::{Fault, Step, TextList, read_text};

// A refused read.
#[tactic(auto, unfolding(crate::specs::PfdContents::refused))]
fn refused(answer: Answer) -> Read<PfdContents>
    ensures { result ≡ refused answer }
{
    Read::refused(answer, PfdContents::EMPTY)
}

// The eight fields in wire order, behind the flags and the spare byte.
#[inline(always)]
pub fn read_fields(payload: &[u8], flags: u8) -> Result<Step<PfdContents>, Fault>
    ensures { result ≡ eight_steps payload.now flags }
{
    let urls_too = octets::bit(flags, 6);
    let names_too = octets::bit(flags, 7);
    let flows_later = octets::either(urls_too, names_too);
    let flow = read_text(payload, 2, flags, 0)?;
    let url = read_text(payload, flow.next, flags, 1)?;
    let domain = read_text(payload, url.next, flags, 2)?;
    let custom = read_text(payload, domain.next, flags, 3)?;
    let protocol = read_text(payload, custom.next, flags, 4)?;
    let flows = TextList::read(payload, protocol.next, flags, 5, flows_later)?;
    let urls = TextList::read(payload, flows.next, flags, 6, names_too)?;
    let names = TextList::read(payload, urls.next, flags, 7, false)?;
    let taken = PfdContents {
        flags,
        flow_description: flow.taken,
        url: url.taken,
        domain_name: domain.taken,
        custom_pfd_content: custom.taken,
        domain_name_protocol: protocol.taken,
        additional_flow_description: flows.taken,
        additional_url: urls.taken,
        additional_domain_name_and_protocol: names.taken,
    };
    Ok(Step {
        taken,
        next: names.next,
    })
}

impl PfdContents {
    // The time is linear: each byte of a text goes through the UTF-8 check once, and up to four of a broken one
    // are looked at again, to say how.
    pub fn unmarshal(payload: &[u8]) -> Read<PfdContents>
        ensures { result ≡ read payload.now }
    {
        let n = payload.len();
        if 65535 < n {
            return refused(Answer::InputTooLong { length: n });
        }
        if n < 2 {
            return refused(Answer::Short {
                field: 0,
                expected: 2,
                actual: n,
            });
        }
        match read_fields(payload, payload[0]) {
            Ok(step) => Read {
                answer: Answer::Done,
                used: step.next,
                record: step.taken,
            },
            Err(fault) => refused(Answer::from(fault)),
        }
    }
}
