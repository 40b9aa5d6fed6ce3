//! Opening a day.
ghost use Rattle.std.specs.Prelude.{◌≡◌, IfOk};
ghost use Rattle.history.specs.History.{opened};
ghost use Rattle.day.specs.Following.{Brings};
ghost use Rattle.day.specs.State.{view, fresh};

use super::Day;
use crate::ledger::Ledger;
use rulebook::Rulebook;
use std::alloc::{AllocError, Global};

impl<R: Rulebook + Drop> Day<R> {
    /// A day under `book` at minute 0, with no contract and no order, or want of memory.
    #[tactic(auto, using(crate::proofs::Start::start))]
    pub fn open(heap: Global, book: R) -> Result<Day<R>, AllocError>
        ensures state { IfOk result (λ day. view day ≡ fresh) }
        ensures book { IfOk result (λ day. day.book ≡ book) }
        ensures history { IfOk result (λ day. Brings (R.Rulebook.meaning book) opened (view day)) }
    {
        let ledger = Ledger::empty(heap)?;
        Ok(Day { book, ledger })
    }
}
