//! The grid of one price.
ghost use Rattle.std.specs.Prelude.{◌≡◌, ℕ, ◌≤◌};
ghost use Rattle.price.specs.Makers.{told, single_price};
ghost use Rattle.price.specs.Sets.{last_price, single};
ghost use Rattle.std.proofs.Common.{rules};

use super::faults::PriceFault;
use super::fraction::Fraction;
use super::grid::{Grid, LAST_PRICE, from_one_to};

#[derive(Clone, Copy, PartialEq, Eq, Debug)]
pub struct SinglePrice {
    price: u64,
    ghost positive: { 1 ≤ price },
    ghost small: { price ≤ last_price },
}

impl SinglePrice {
    /// The grid of `price` alone, refused where that is no price.
    pub fn new(price: u64) -> Result<SinglePrice, PriceFault>
        ensures { told (λ grid. grid.price) result ≡ single_price price }
    {
        let price = from_one_to(LAST_PRICE, price)?;
        Ok(SinglePrice { price })
    }
}

impl Grid for SinglePrice {
    ghost holds = { λ grid. single grid.price };

    ghost within = { Prim.search rules };

    fn has(&self, price: u64) -> bool {
        price == self.price
    }

    fn at_or_below(&self, fraction: Fraction) -> Option<u64> {
        (self.price * fraction.divisor() <= fraction.numerator()).then_some(self.price)
    }

    fn at_or_above(&self, fraction: Fraction) -> Option<u64> {
        (fraction.numerator() <= self.price * fraction.divisor()).then_some(self.price)
    }
}
