//! An accepted order.
ghost use Rattle.std.specs.Prelude.{◌≡◌};
ghost use Rattle.history.specs.Orders.{counters};
ghost use Rattle.day.specs.State.{is_waiting};
ghost use Rattle.day.specs.Calls.{meets, is_due, clocked};

use history::Entry;

#[derive(Clone, Copy, PartialEq, Eq, Debug)]
pub enum Status {
    Lapsed,
    Withdrawn,
    Traded,
    Waiting,
}

#[derive(Clone, Copy, PartialEq, Eq, Debug)]
pub struct Order {
    pub entry: Entry,
    /// The minute at which the hours end in which the order came.
    pub until: u64,
    pub status: Status,
}

impl Order {
    pub(crate) fn waits(&self) -> bool
        ensures { result ≡ is_waiting self.now.status }
    {
        self.status == Status::Waiting
    }

    /// Whether it waits and counters an entry.
    pub(crate) fn meets(&self, entry: &Entry) -> bool
        ensures { result ≡ meets self.now entry.now }
    {
        self.waits() && counters(&self.entry, entry)
    }

    /// Whether it waits and its hours have ended by the minute `to`.
    pub(crate) fn is_due(&self, to: u64) -> bool
        ensures { result ≡ is_due to self.now }
    {
        self.waits() && self.until <= to
    }

    /// Lapses it if it is due by the minute `to`.
    pub(crate) fn clock(&mut self, to: u64)
        ensures { self.new ≡ clocked to self.old }
    {
        if self.is_due(to) {
            self.status = Status::Lapsed;
        }
    }
}

/// Whether two entries counter each other.
#[tactic(auto, unfolding(history::specs::Orders::counters))]
fn counters(one: &Entry, other: &Entry) -> bool
    ensures { result ≡ counters one.now other.now }
{
    one.contract == other.contract
        && one.price == other.price
        && one.quantity == other.quantity
        && one.side != other.side
        && one.counterparty == other.participant
        && other.counterparty == one.participant
}
