//! A grid: a set of whole prices, and what can be asked of it.
ghost use Rattle.std.specs.Prelude.{◌≡◌, ℕ, Bool, cond, Ok, Err};
ghost use Rattle.price.specs.Makers.{from_to};
ghost use Rattle.price.specs.declared.faults.PriceFault.TheVariants.{GridOutOfBounds};
ghost use Rattle.price.specs.Questions.{GreatestAtOrBelow, LeastAtOrAbove};
ghost use Rattle.price.specs.Sets.{Prices};

use super::faults::PriceFault;
use super::fraction::Fraction;

/// The last price that any grid holds, in pips.
pub const LAST_PRICE: u64 = 500_000_000_000_000;

pub trait Grid {
    /// The set: whether a number is a price of this grid.
    ghost holds: { Self → ℕ → Bool };

    /// Whether `price` is in the set.
    fn has(&self, price: u64) -> bool
        ensures { result ≡ holds self.now price };

    /// The greatest price of the set at or below `fraction`.
    fn at_or_below(&self, fraction: Fraction) -> Option<u64>
        ensures { GreatestAtOrBelow (holds self.now) fraction.numerator fraction.divisor result };

    /// The least price of the set at or above `fraction`.
    fn at_or_above(&self, fraction: Fraction) -> Option<u64>
        ensures { LeastAtOrAbove (holds self.now) fraction.numerator fraction.divisor result };

    ghost within: { (grid : Self) → Prices (holds grid) };
}

/// `value`, refused where it is not from 1 to `most`.
pub(crate) fn from_one_to(most: u64, value: u64) -> Result<u64, PriceFault>
    ensures { result ≡ cond (from_to 1 most value) (Ok value) (Err GridOutOfBounds) }
{
    if (1..=most).contains(&value) {
        Ok(value)
    } else {
        Err(PriceFault::GridOutOfBounds)
    }
}
