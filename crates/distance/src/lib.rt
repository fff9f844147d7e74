// The signed distance from one sequence number to another, counted around 2 to the 24th.
#![tactic(auto)]

ghost use Rattle.std.specs.Prelude.{◌≡◌};
ghost use Rattle.distance.specs.Distance.{distance};

use answer::Answer;
use types::SequenceNumber;

// What a distance answers. The definition `distance` has the value 0 beside a refusal, so it is no `Result`.
#[derive(Clone, Copy)]
pub struct Distance {
    pub answer: Answer,
    pub value: i32,
}

// How many sequence numbers there are.
const CIRCLE: u32 = SequenceNumber::MAX + 1;

// The numbers are plain, so that one above the greatest sequence number can be refused.
pub fn signed_distance(from: u32, to: u32) -> Distance
    ensures { result ≡ distance from to }
{
    if SequenceNumber::MAX < from || SequenceNumber::MAX < to {
        return Distance {
            answer: Answer::NoSequenceNumber,
            value: 0,
        };
    }
    let forward = to.wrapping_sub(from) % CIRCLE;
    let value = forward as i32;
    if forward < CIRCLE / 2 {
        return Distance {
            answer: Answer::Done,
            value,
        };
    }
    Distance {
        answer: Answer::Done,
        value: value - CIRCLE as i32,
    }
}
