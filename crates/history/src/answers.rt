//! What a day answers. No `Result`: a history is a list of answers, refusals among them.
ghost use Rattle.std.specs.Prelude.{◌≡◌};
ghost use Rattle.history.specs.Faults.{refusal};

use super::faults::DayFault;

#[derive(Clone, Copy, PartialEq, Eq, Debug)]
pub enum Answer {
    /// The number of the contract that was listed.
    Listed(u64),
    Done,
    /// How many orders lapsed.
    Lapsed(u64),
    /// A price and its signed distance.
    Price(u64, i64),
    /// The number of an order, and of its partner, 0 while it waits: docs/DECISIONS.md, "Forms".
    Ordered(u64, u64),
    Refused(DayFault),
}

impl Answer {
    /// The number under which a call is refused, and its place; `None` where it is accepted.
    pub fn refusal(self) -> Option<(u64, u64)>
        ensures { result ≡ refusal self }
    {
        match self {
            Answer::Refused(fault) => Some((fault.number(), fault.place())),
            _ => None,
        }
    }
}
