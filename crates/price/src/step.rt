//! The grid of every positive multiple of one step.
ghost use Rattle.std.specs.Prelude.{◌≡◌, ℕ, ◌≤◌};
ghost use Rattle.price.specs.Makers.{told, step_grid};
ghost use Rattle.price.specs.Sets.{multiples};
ghost use Rattle.std.proofs.Common.{rules};

use super::faults::PriceFault;
use super::fraction::Fraction;
use super::grid::{Grid, LAST_PRICE, from_one_to};
use super::rounding::{first_multiple, last_multiple};

#[derive(Clone, Copy, PartialEq, Eq, Debug)]
pub struct StepGrid {
    step: u64,
    ghost positive: { 1 ≤ step },
    ghost small: { step ≤ 100_000 },
}

impl StepGrid {
    pub const MOST_STEP: u64 = 100_000;

    /// The multiples of `step` pips, refused where it is 0 or over 100,000.
    pub fn new(step: u64) -> Result<StepGrid, PriceFault>
        ensures { told (λ grid. grid.step) result ≡ step_grid step }
    {
        let step = from_one_to(Self::MOST_STEP, step)?;
        Ok(StepGrid { step })
    }
}

impl Grid for StepGrid {
    ghost holds = { λ grid. multiples grid.step };

    ghost within = { Prim.search rules };

    fn has(&self, price: u64) -> bool {
        (1..=LAST_PRICE).contains(&price) && price % self.step == 0
    }

    fn at_or_below(&self, fraction: Fraction) -> Option<u64> {
        let most = fraction.floor().min(LAST_PRICE);
        let price = last_multiple(self.step, most);
        (price > 0).then_some(price)
    }

    fn at_or_above(&self, fraction: Fraction) -> Option<u64> {
        let least = fraction.ceiling().max(1);
        let price = first_multiple(self.step, least);
        (price <= LAST_PRICE).then_some(price)
    }
}
