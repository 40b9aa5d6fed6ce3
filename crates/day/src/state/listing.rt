//! The calls that set up contracts: list, post, collar, halt and lift.
ghost use Rattle.std.specs.Prelude.{◌≡◌, is_ok, IfOk, if◌then◌else◌};
ghost use Rattle.history.specs.declared.Call.TheVariants.{List, Post, Collar as Collaring, Halt, Lift};
ghost use Rattle.rulebook.specs.Sheets.{posting};
ghost use Rattle.history.specs.Rulings.{ruled_on};
ghost use Rattle.day.specs.Calls.{as_listed, as_done, letter_for, halting, changed};
ghost use Rattle.day.specs.Following.{left};
ghost use Rattle.day.specs.State.{view, board_of};

use super::Day;
use crate::collar::Collar;
use crate::contract::Contract;
use crate::ledger::MOST_CONTRACTS;
use history::DayFault;
use rulebook::{FigureFault, Figures, Letter, Rulebook};

impl<R: Rulebook> Day<R> {
    /// Lists a product as the next contract, and answers the contract's number.
    pub fn list(&mut self, product: u64) -> Result<u64, DayFault>
        ensures answer { as_listed result ≡ ruled_on (R.Rulebook.meaning self.old.book) (board_of (view self.old)) (List product) }
        ensures after { view self.new ≡ (if is_ok result then changed (R.Rulebook.meaning self.old.book) (view self.old) (List product) else view self.old) }
        ensures leaves { view self.new ≡ left (R.Rulebook.meaning self.old.book) (view self.old) (List product) }
        ensures book { self.new.book ≡ self.old.book }
    {
        self.book.hours(product)?;
        let listed = self.ledger.listed();
        if listed >= MOST_CONTRACTS {
            return Err(DayFault::ContractsFull);
        }
        self.ledger.add(Contract {
            product,
            figures: Figures::blank(),
            collar: None,
            halted: false,
        });
        Ok(listed as u64 + 1)
    }

    /// Posts a figure of a contract, 0 to blank it.
    pub fn post(&mut self, contract: u64, letter: char, value: u64) -> Result<(), DayFault>
        ensures answer { as_done result ≡ ruled_on (R.Rulebook.meaning self.old.book) (board_of (view self.old)) (Post contract letter value) }
        ensures after { view self.new ≡ (if is_ok result then changed (R.Rulebook.meaning self.old.book) (view self.old) (Post contract letter value) else view self.old) }
        ensures leaves { view self.new ≡ left (R.Rulebook.meaning self.old.book) (view self.old) (Post contract letter value) }
        ensures book { self.new.book ≡ self.old.book }
    {
        let letter = figure_letter(letter, value)?;
        let mut found = self.ledger.find(contract)?;
        found.figures.post(letter, value).unwrap();
        self.ledger.put(contract, found);
        Ok(())
    }

    /// Sets a contract's collar in pips, 0 and 0 to remove it.
    pub fn collar(&mut self, contract: u64, low: u64, high: u64) -> Result<(), DayFault>
        ensures answer { as_done result ≡ ruled_on (R.Rulebook.meaning self.old.book) (board_of (view self.old)) (Collaring contract low high) }
        ensures after { view self.new ≡ (if is_ok result then changed (R.Rulebook.meaning self.old.book) (view self.old) (Collaring contract low high) else view self.old) }
        ensures leaves { view self.new ≡ left (R.Rulebook.meaning self.old.book) (view self.old) (Collaring contract low high) }
        ensures book { self.new.book ≡ self.old.book }
    {
        let collar = Collar::new(low, high)?;
        let mut found = self.ledger.find(contract)?;
        found.collar = collar;
        self.ledger.put(contract, found);
        Ok(())
    }

    /// Halts a contract.
    pub fn halt(&mut self, contract: u64) -> Result<(), DayFault>
        ensures answer { as_done result ≡ ruled_on (R.Rulebook.meaning self.old.book) (board_of (view self.old)) (Halt contract) }
        ensures after { view self.new ≡ (if is_ok result then changed (R.Rulebook.meaning self.old.book) (view self.old) (Halt contract) else view self.old) }
        ensures leaves { view self.new ≡ left (R.Rulebook.meaning self.old.book) (view self.old) (Halt contract) }
        ensures book { self.new.book ≡ self.old.book }
    {
        self.set_halt(contract, true)
    }

    /// Lifts the halt of a contract.
    pub fn lift(&mut self, contract: u64) -> Result<(), DayFault>
        ensures answer { as_done result ≡ ruled_on (R.Rulebook.meaning self.old.book) (board_of (view self.old)) (Lift contract) }
        ensures after { view self.new ≡ (if is_ok result then changed (R.Rulebook.meaning self.old.book) (view self.old) (Lift contract) else view self.old) }
        ensures leaves { view self.new ≡ left (R.Rulebook.meaning self.old.book) (view self.old) (Lift contract) }
        ensures book { self.new.book ≡ self.old.book }
    {
        self.set_halt(contract, false)
    }

    /// Halts a contract, or lifts its halt.
    fn set_halt(&mut self, contract: u64, halted: bool) -> Result<(), DayFault>
        ensures answer { as_done result ≡ ruled_on (R.Rulebook.meaning self.old.book) (board_of (view self.old)) (halting contract halted) }
        ensures after { view self.new ≡ (if is_ok result then changed (R.Rulebook.meaning self.old.book) (view self.old) (halting contract halted) else view self.old) }
        ensures leaves { view self.new ≡ left (R.Rulebook.meaning self.old.book) (view self.old) (halting contract halted) }
        ensures book { self.new.book ≡ self.old.book }
    {
        let mut found = self.ledger.find(contract)?;
        if found.halted == halted {
            return Err(DayFault::HaltUnchanged);
        }
        found.halted = halted;
        self.ledger.put(contract, found);
        Ok(())
    }
}

/// The letter of a character under which a value may be posted.
#[tactic(auto, unfolding(history::specs::History::letter_named, history::specs::History::takes))]
fn figure_letter(letter: char, value: u64) -> Result<Letter, DayFault>
    ensures value { result ≡ letter_for letter value }
    ensures fits { IfOk result (λ letter. posting letter value ≡ Ok tt) }
{
    let letter = Letter::try_from(letter)?;
    if value > letter.most() {
        return Err(FigureFault::ValueOverLimit.into());
    }
    Ok(letter)
}
