//! The calls of the order book: clock, withdraw and enter.
ghost use Rattle.std.specs.Prelude.{◌≡◌, suc, ◌<◌, length, is_ok, if◌then◌else◌, OnOk};
ghost use Rattle.history.specs.declared.Answer.TheVariants.{Ordered};
ghost use Rattle.history.specs.declared.Call.TheVariants.{Clock, Enter, Withdraw};
ghost use Rattle.history.specs.declared.DayFault.TheVariants.{EntryOutsideLimits};
ghost use Rattle.rulebook.specs.Meaning.{hours_of};
ghost use Rattle.history.specs.Prices.{closing_in};
ghost use Rattle.history.specs.Rulings.{◌when◌, outside, ruled_on};
ghost use Rattle.day.specs.Calls.{as_done, as_lapsed, as_ordered, changed, partner_on, entered, after_entry, deny, within_limits, admitted_at, admitted_by_contract, admitted};
ghost use Rattle.day.specs.Following.{answered, left};
ghost use Rattle.day.specs.State.{terms, view, board_of};

use super::{Day, LAST_MINUTE};
use crate::contract::Contract;
use crate::ledger::MOST_ORDERS;
use crate::order::Status;
use crate::prices::{admissible_prices, admits};
use history::{DayFault, Entry, EntryField};
use rulebook::Rulebook;

impl<R: Rulebook> Day<R> {
    /// Sets the minute, and answers how many orders lapse by it.
    pub fn clock(&mut self, to: u64) -> Result<u64, DayFault>
        ensures answer { as_lapsed result ≡ ruled_on (R.Rulebook.meaning self.old.book) (board_of (view self.old)) (Clock to) }
        ensures after { view self.new ≡ (if is_ok result then changed (R.Rulebook.meaning self.old.book) (view self.old) (Clock to) else view self.old) }
        ensures leaves { view self.new ≡ left (R.Rulebook.meaning self.old.book) (view self.old) (Clock to) }
        ensures book { self.new.book ≡ self.old.book }
    {
        if to > LAST_MINUTE {
            return Err(DayFault::MinuteOverLimit);
        }
        if to < self.ledger.minute() {
            return Err(DayFault::MinuteBeforePresent);
        }
        let lapsed = self.ledger.due(to);
        self.ledger.lapse(to);
        self.ledger.set_minute(to);
        Ok(lapsed)
    }

    /// Withdraws an order that waits, for its participant.
    pub fn withdraw(&mut self, number: u64, participant: u64) -> Result<(), DayFault>
        ensures answer { as_done result ≡ ruled_on (R.Rulebook.meaning self.old.book) (board_of (view self.old)) (Withdraw number participant) }
        ensures after { view self.new ≡ (if is_ok result then changed (R.Rulebook.meaning self.old.book) (view self.old) (Withdraw number participant) else view self.old) }
        ensures leaves { view self.new ≡ left (R.Rulebook.meaning self.old.book) (view self.old) (Withdraw number participant) }
        ensures book { self.new.book ≡ self.old.book }
    {
        let order = self.ledger.order(number)?;
        if participant != order.entry.participant {
            return Err(DayFault::AnotherParticipants);
        }
        if !order.waits() {
            return Err(DayFault::NotWaiting);
        }
        self.ledger.mark(number, Status::Withdrawn);
        Ok(())
    }

    /// Takes an order, which trades with the earliest waiting order that counters it, or waits: its number and its
    /// partner's, 0 while it waits.
    pub fn enter(&mut self, entry: Entry) -> Result<(u64, u64), DayFault>
        ensures answer { as_ordered result ≡ entered (admitted (R.Rulebook.meaning self.old.book) (view self.old) entry) (Ordered (suc (length (view self.old).orders)) (partner_on (view self.old) entry)) }
        ensures after { view self.new ≡ after_entry (admitted (R.Rulebook.meaning self.old.book) (view self.old) entry) (view self.old) entry }
        ensures ruled { as_ordered result ≡ answered (R.Rulebook.meaning self.old.book) (view self.old) (Enter entry) }
        ensures leaves { view self.new ≡ left (R.Rulebook.meaning self.old.book) (view self.old) (Enter entry) }
        ensures book { self.new.book ≡ self.old.book }
    {
        let until = self.admit(&entry)?;
        Ok(self.ledger.pair(entry, until))
    }

    /// When the hours of a contract that hold the present minute end, `None` while it is closed.
    fn open_until(&self, contract: &Contract) -> Option<u64>
        ensures { result ≡ closing_in (hours_of (R.Rulebook.meaning self.now.book) contract.now.product) (view self.now).minute }
    {
        let class = self.book.hours(contract.product).ok()?;
        class.closing(self.ledger.minute())
    }

    /// The checks of an entry against its contract.
    fn admit_at(&self, contract: &Contract, entry: &Entry) -> Result<u64, DayFault>
        ensures { result ≡ admitted_at (R.Rulebook.meaning self.now.book) (view self.now) (terms contract.now) entry.now }
    {
        let prices = admissible_prices(&self.book, contract)?;
        let until = self.open_until(contract).ok_or(DayFault::NotOpen)?;
        if contract.halted && self.book.is_bound_by_halts() {
            return Err(DayFault::Halted);
        }
        if !admits(&prices, entry.price) {
            return Err(DayFault::PriceNotAdmissible);
        }
        Ok(until)
    }

    /// The checks of an entry against the contract that it names.
    fn admit_by_contract(&self, entry: &Entry) -> Result<u64, DayFault>
        ensures { result ≡ admitted_by_contract (R.Rulebook.meaning self.now.book) (view self.now) entry.now }
    {
        let found = self.ledger.find(entry.contract)?;
        self.admit_at(&found, entry)
    }

    /// All checks of an entry: the end of the hours in which it comes.
    fn admit(&self, entry: &Entry) -> Result<u64, DayFault>
        ensures value { result ≡ admitted (R.Rulebook.meaning self.now.book) (view self.now) entry.now }
        ensures room { OnOk result (length (view self.now).orders < 256) }
    {
        check_limits(entry)?;
        let until = self.admit_by_contract(entry)?;
        if self.ledger.accepted() >= MOST_ORDERS {
            return Err(DayFault::OrdersFull);
        }
        Ok(until)
    }
}

/// The checks of an entry's own fields.
fn check_limits(entry: &Entry) -> Result<(), DayFault>
    ensures { result ≡ within_limits entry.now }
{
    check_limit(entry.quantity, Entry::MOST_QUANTITY, EntryField::Quantity)?;
    check_limit(
        entry.participant,
        Entry::LAST_PARTICIPANT,
        EntryField::Participant,
    )?;
    check_limit(
        entry.counterparty,
        Entry::LAST_PARTICIPANT,
        EntryField::Counterparty,
    )
}

/// The check that a field is from 1 to its most.
fn check_limit(value: u64, most: u64, field: EntryField) -> Result<(), DayFault>
    ensures { result ≡ deny (EntryOutsideLimits field when outside most value) (Ok tt) }
{
    if (1..=most).contains(&value) {
        Ok(())
    } else {
        Err(DayFault::EntryOutsideLimits(field))
    }
}
