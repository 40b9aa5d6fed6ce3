//! Why a fraction or a grid is refused.
ghost use Rattle.std.specs.Prelude.{◌≡◌, Some};
ghost use Rattle.price.specs.Faults.{number, words};

use std::error::Error;
use std::fmt;

#[derive(Clone, Copy, PartialEq, Eq, Debug)]
pub enum PriceFault {
    /// A numerator or a divisor outside its limits.
    FractionOutsideLimits,
    /// A step, a single price or the end of a limit out of its bounds.
    GridOutOfBounds,
}

impl PriceFault {
    /// The number under which it is refused.
    pub fn number(self) -> u64
        ensures { result ≡ number self }
    {
        match self {
            PriceFault::FractionOutsideLimits => 11,
            PriceFault::GridOutOfBounds => 18,
        }
    }
}

// By hand: a derived one would not say what it writes.
impl fmt::Display for PriceFault {
    ghost output = { λ fault. Some (words fault) };

    fn fmt<W: fmt::Write>(&self, f: &mut fmt::Formatter<W>) -> fmt::Result {
        match *self {
            PriceFault::FractionOutsideLimits => f.write_str(
                "11: the fraction is outside its limits",
            ),
            PriceFault::GridOutOfBounds => f.write_str(
                "18: a step, a price or an end is out of its bounds",
            ),
        }
    }
}

impl Error for PriceFault {}
