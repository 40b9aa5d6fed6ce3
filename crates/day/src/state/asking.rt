//! The ask.
ghost use Rattle.std.specs.Prelude.{◌≡◌};
ghost use Rattle.history.specs.declared.Call.TheVariants.{Ask};
ghost use Rattle.history.specs.Rulings.{ruled_on};
ghost use Rattle.day.specs.Calls.{as_price};
ghost use Rattle.day.specs.State.{view, board_of};

use super::Day;
use crate::prices::asked;
use history::DayFault;
use price::Fraction;
use rulebook::Rulebook;

impl<R: Rulebook> Day<R> {
    /// The nearest admissible price of a contract to `n` over `d`, with its signed distance.
    pub fn ask(&self, contract: u64, n: u64, d: u64) -> Result<(u64, i64), DayFault>
        ensures { as_price result ≡ ruled_on (R.Rulebook.meaning self.now.book) (board_of (view self.now)) (Ask contract n d) }
    {
        let fraction = Fraction::new(n, d)?;
        let found = self.ledger.find(contract)?;
        asked(&self.book, &found, fraction)
    }
}
