//! A limit over a grid: its prices between two ends.
ghost use Rattle.std.specs.Prelude.{◌≡◌, ℕ, ◌≤◌};
ghost use Rattle.price.specs.Makers.{told, limit};
ghost use Rattle.price.specs.Rounding.{Lesser, Greater};
ghost use Rattle.price.specs.Sets.{between, last_end};
ghost use Rattle.std.proofs.lemmas.Bool.{and_parts};

use super::faults::PriceFault;
use super::fraction::Fraction;
use super::grid::Grid;

/// The last end that a limit may have, in thousandths of a pip.
pub const LAST_END: u64 = 220_000_000_000_000;

/// The prices of `grid` from `low` to `high` thousandths of a pip, none where `low` passes `high`.
#[derive(Drop)]
pub struct Limit<G> {
    grid: G,
    low: u64,
    high: u64,
    ghost low_small: { low ≤ last_end },
    ghost high_small: { high ≤ last_end },
}

impl<G: Drop> Limit<G> {
    /// A limit over `grid`, refused where an end is over 220,000,000,000,000.
    pub fn new(grid: G, low: u64, high: u64) -> Result<Limit<G>, PriceFault>
        ensures { told (λ l. (l.grid, l.low, l.high)) result ≡ limit grid low high }
    {
        if low <= LAST_END && high <= LAST_END {
            Ok(Limit { grid, low, high })
        } else {
            Err(PriceFault::GridOutOfBounds)
        }
    }
}

/// `fraction`, or `end` thousandths of a pip if that is less.
fn lesser(fraction: Fraction, end: u64) -> Fraction
    requires { end ≤ last_end }
    ensures { Lesser fraction.numerator fraction.divisor end result.numerator result.divisor }
{
    if fraction.numerator() * 1000 <= end * fraction.divisor() {
        fraction
    } else {
        Fraction::thousandths(end)
    }
}

/// `fraction`, or `end` thousandths of a pip if that is more.
fn greater(fraction: Fraction, end: u64) -> Fraction
    requires { end ≤ last_end }
    ensures { Greater fraction.numerator fraction.divisor end result.numerator result.divisor }
{
    if end * fraction.divisor() <= fraction.numerator() * 1000 {
        fraction
    } else {
        Fraction::thousandths(end)
    }
}

impl<G: Grid> Grid for Limit<G> {
    ghost holds = { λ l. between l.low l.high (G.Grid.holds l.grid) };

    ghost within = { λ limit.
        let prices = G.Grid.within limit.grid in
        record {
          positive = λ price in_set. prices.positive price (and_parts _ _ in_set).0;
          bounded = λ price in_set. prices.bounded price (and_parts _ _ in_set).0;
        } };

    fn has(&self, price: u64) -> bool {
        self.grid.has(price) && (self.low..=self.high).contains(&(1000 * price))
    }

    fn at_or_below(&self, fraction: Fraction) -> Option<u64> {
        match self.grid.at_or_below(lesser(fraction, self.high)) {
            Some(price) if self.low <= 1000 * price => Some(price),
            _ => None,
        }
    }

    fn at_or_above(&self, fraction: Fraction) -> Option<u64> {
        match self.grid.at_or_above(greater(fraction, self.low)) {
            Some(price) if 1000 * price <= self.high => Some(price),
            _ => None,
        }
    }
}
