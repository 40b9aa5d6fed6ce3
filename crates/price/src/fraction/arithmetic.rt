//! What the grids work out with a fraction.
ghost use Rattle.std.specs.Prelude.{◌≡◌, ◌*◌, ◌≤◌};
ghost use Rattle.price.specs.Questions.{distance, signed_distance};
ghost use Rattle.price.specs.Rounding.{Floor, Ceiling};
ghost use Rattle.price.specs.Sets.{last_price};

use super::Fraction;

impl Fraction {
    /// So many thousandths of a pip.
    pub(crate) fn thousandths(count: u64) -> Fraction
        requires { count ≤ 1_000_000_000_000_000 }
        ensures { (result.numerator ≡ count) × (result.divisor ≡ 1000) }
    {
        Fraction {
            numerator: count,
            divisor: 1000,
        }
    }

    /// The greatest whole number at or below the fraction.
    pub(crate) fn floor(&self) -> u64
        ensures { Floor self.now.numerator self.now.divisor result }
    {
        self.numerator / self.divisor
    }

    /// The least whole number at or above the fraction.
    pub(crate) fn ceiling(&self) -> u64
        ensures value { Ceiling self.now.numerator self.now.divisor result }
        ensures bound { result ≤ 1_000_000_000_000_000 }
    {
        self.numerator.div_ceil(self.divisor)
    }

    /// `price` in parts of the divisor.
    fn parts(&self, price: u64) -> u64
        requires { price ≤ last_price }
        ensures value { result ≡ price * self.now.divisor }
        ensures bound { result ≤ 5_000_000_000_000_000_000 }
    {
        price * self.divisor
    }

    /// How far `price` is from the fraction, in parts of the divisor.
    pub(crate) fn distance(&self, price: u64) -> u64
        requires { price ≤ last_price }
        ensures { result ≡ distance self.now.numerator self.now.divisor price }
    {
        self.parts(price).abs_diff(self.numerator)
    }

    /// How far `price` is above the fraction, in parts of the divisor.
    pub(crate) fn signed_distance(&self, price: u64) -> i64
        requires { price ≤ last_price }
        ensures { result ≡ signed_distance self.now.numerator self.now.divisor price }
    {
        self.parts(price) as i64 - self.numerator as i64
    }
}
