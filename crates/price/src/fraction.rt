//! An exact price that need not be a whole number of pips.
ghost use Rattle.std.specs.Prelude.{◌≡◌, ◌≤◌};
ghost use Rattle.price.specs.Makers.{told, fraction};

use super::faults::PriceFault;

mod arithmetic;

/// `numerator` over `divisor`, in pips.
#[derive(Clone, Copy)]
pub struct Fraction {
    numerator: u64,
    divisor: u64,
    ghost small: { numerator ≤ 1_000_000_000_000_000 },
    ghost positive: { 1 ≤ divisor },
    ghost short: { divisor ≤ 10_000 },
}

impl Fraction {
    pub const MOST_NUMERATOR: u64 = 1_000_000_000_000_000;

    pub const MOST_DIVISOR: u64 = 10_000;

    /// `n` over `d`, refused where one of them is outside its limits.
    pub fn new(n: u64, d: u64) -> Result<Fraction, PriceFault>
        ensures { told (λ f. (f.numerator, f.divisor)) result ≡ fraction n d }
    {
        if n <= Self::MOST_NUMERATOR && (1..=Self::MOST_DIVISOR).contains(&d) {
            Ok(Fraction {
                numerator: n,
                divisor: d,
            })
        } else {
            Err(PriceFault::FractionOutsideLimits)
        }
    }

    pub fn numerator(&self) -> u64
        ensures { result ≡ self.now.numerator }
    {
        self.numerator
    }

    pub fn divisor(&self) -> u64
        ensures { result ≡ self.now.divisor }
    {
        self.divisor
    }
}
