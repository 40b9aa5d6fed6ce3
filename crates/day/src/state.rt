//! The day: its rulebook and its ledger.
use super::ledger::Ledger;
use rulebook::Rulebook;

mod asking;
mod listing;
mod opening;
mod trading;

/// The last minute that a day has.
const LAST_MINUTE: u64 = 1800;

/// All the memory that the day can need is there from its opening on.
#[derive(Drop)]
pub struct Day<R: Rulebook> {
    book: R,
    ledger: Ledger,
}
