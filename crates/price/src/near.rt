//! The nearest price of a grid.
ghost use Rattle.std.specs.Prelude.{◌≡◌};
ghost use Rattle.price.specs.Closest.{closest, nearer, Bounded, NearestBeside};

use super::fraction::Fraction;
use super::grid::Grid;

/// The price of `grid` nearest to `fraction`, the higher of two equally near, with its signed distance:
/// how far it is above `fraction`, in parts of the divisor. `None` where the grid has no price.
pub fn nearest<G: Grid>(grid: &G, fraction: Fraction) -> Option<(u64, i64)>
    ensures { result ≡ closest (G.Grid.holds grid.now) fraction.numerator fraction.divisor }
{
    beside(
        fraction,
        grid.at_or_below(fraction),
        grid.at_or_above(fraction),
    )
}

/// The nearest price of every grid whose prices beside `fraction` are these.
fn beside(fraction: Fraction, below: Option<u64>, above: Option<u64>) -> Option<(u64, i64)>
    requires below { Bounded below }
    requires above { Bounded above }
    ensures { NearestBeside fraction.numerator fraction.divisor below above result }
{
    let price = nearer(fraction, below, above)?;
    Some((price, fraction.signed_distance(price)))
}

/// The nearer to `fraction` of two prices, if any: the higher where they are equally near.
fn nearer(fraction: Fraction, lower: Option<u64>, higher: Option<u64>) -> Option<u64>
    requires lower { Bounded lower }
    requires higher { Bounded higher }
    ensures value { result ≡ nearer fraction.numerator fraction.divisor lower higher }
    ensures bound { Bounded result }
{
    match (lower, higher) {
        (None, None) => None,
        (Some(price), None) | (None, Some(price)) => Some(price),
        (Some(lower), Some(higher)) => {
            if fraction.distance(higher) <= fraction.distance(lower) {
                Some(higher)
            } else {
                Some(lower)
            }
        }
    }
}
