//! Which prices a contract has.
ghost use Rattle.std.specs.Prelude.{◌≡◌, ◌≤◌};
ghost use Rattle.price.specs.Sets.{last_end};
ghost use Rattle.history.specs.Rulings.{quoted};
ghost use Rattle.day.specs.Calls.{as_price};
ghost use Rattle.day.specs.State.{terms, collar_limits, set_of, band_for, admissible_set};

use super::contract::Contract;
use history::DayFault;
use price::{Fraction, Grid, LAST_END, Limit, nearest};
use rulebook::Rulebook;

/// The ends of a contract's collar in thousandths of a pip, or the widest.
fn collar_limits(contract: &Contract) -> (u64, u64)
    ensures value { result ≡ collar_limits (terms contract.now).collar }
    ensures bound { (result.0 ≤ last_end) × (result.1 ≤ last_end) }
{
    contract
        .collar
        .map_or((1000, LAST_END), |collar| collar.ends())
}

/// The prices on the rulebook's grid, inside its band and inside the collar.
pub(crate) fn admissible_prices<R: Rulebook>(
    book: &R,
    contract: &Contract,
) -> Result<Limit<Limit<R::Grid>>, DayFault>
    ensures { set_of R.Grid.Grid.holds result ≡ admissible_set (R.Rulebook.meaning book.now) (terms contract.now) }
{
    let band = book.band(contract.product, &contract.figures)?;
    let (low, high) = collar_limits(contract);
    Ok(Limit::new(band.limit()?, low, high)?)
}

/// Whether a price is one of the grid's: the nearest to itself, at distance 0.
pub(crate) fn admits<G: Grid>(grid: &G, price: u64) -> bool
    ensures { result ≡ G.Grid.holds grid.now price }
{
    let Ok(fraction) = Fraction::new(price, 1) else {
        return false;
    };
    nearest(grid, fraction).is_some_and(|(_, distance)| distance == 0)
}

/// The nearest admissible price of a contract to a fraction.
#[tactic(auto, unfolding(history::specs::Rulings::quoted))]
pub(crate) fn asked<R: Rulebook>(
    book: &R,
    contract: &Contract,
    fraction: Fraction,
) -> Result<(u64, i64), DayFault>
    ensures { as_price result ≡ quoted (band_for (R.Rulebook.meaning book.now) (terms contract.now)) (terms contract.now).collar fraction.numerator fraction.divisor }
{
    let prices = admissible_prices(book, contract)?;
    nearest(&prices, fraction).ok_or(DayFault::NoAdmissiblePrice)
}
