//! What a broker asked for, and the answer.
ghost use Rattle.std.specs.Prelude.{◌≡◌, Some};
ghost use Rattle.gate.specs.Quotes.{quoted};
ghost use Rattle.gate.specs.Sentences.{pips, sentence};
ghost use Rattle.price.specs.Makers.{told};

use price::{Fraction, Grid, PriceFault, nearest};
use std::fmt;

/// Parts of a pip, so many to a pip as the divisor says.
#[derive(Clone, Copy)]
struct Pips {
    parts: u64,
    divisor: u64,
}

impl fmt::Display for Pips {
    ghost output = { λ p. Some (pips p.parts p.divisor) };

    fn fmt<W: fmt::Write>(&self, f: &mut fmt::Formatter<W>) -> fmt::Result {
        let parts = self.parts;
        let divisor = self.divisor;
        if divisor == 1 {
            write!(f, "{parts}")
        } else {
            write!(f, "{parts}/{divisor}")
        }
    }
}

#[derive(Clone, Copy)]
pub struct Quote {
    numerator: u64,
    divisor: u64,
    answer: Option<(u64, i64)>,
}

impl Quote {
    /// The nearest price of `grid` to `n` over `d`.
    pub fn new<G: Grid>(grid: &G, n: u64, d: u64) -> Result<Quote, PriceFault>
        ensures { told (λ q. (q.numerator, q.divisor, q.answer)) result ≡ quoted (G.Grid.holds grid.now) n d }
    {
        let answer = nearest(grid, Fraction::new(n, d)?);
        Ok(Quote {
            numerator: n,
            divisor: d,
            answer,
        })
    }
}

impl fmt::Display for Quote {
    ghost output = { λ q. Some (sentence q.numerator q.divisor q.answer) };

    fn fmt<W: fmt::Write>(&self, f: &mut fmt::Formatter<W>) -> fmt::Result {
        let divisor = self.divisor;
        let asked = Pips {
            parts: self.numerator,
            divisor,
        };
        let Some((price, distance)) = self.answer else {
            return write!(f, "Asked for {asked}: there is no price.");
        };
        let away = Pips {
            parts: distance.unsigned_abs(),
            divisor,
        };
        if distance < 0 {
            write!(f, "Asked for {asked}: the price is {price}, {away} below.")
        } else if distance == 0 {
            write!(f, "Asked for {asked}: the price is {price}.")
        } else {
            write!(f, "Asked for {asked}: the price is {price}, {away} above.")
        }
    }
}
