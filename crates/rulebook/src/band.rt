//! A grid with the ends of a band over it.
ghost use Rattle.std.specs.Prelude.{◌≡◌};
ghost use Rattle.price.specs.Makers.{told, limit};

use price::{Limit, PriceFault};

/// The prices of `grid` from `low` to `high` thousandths of a pip.
#[derive(Drop)]
pub struct Band<G> {
    pub grid: G,
    pub low: u64,
    pub high: u64,
}

impl<G: Drop> Band<G> {
    /// The limit that the ends are over the grid, refused where an end is out of its bounds.
    pub fn limit(self) -> Result<Limit<G>, PriceFault>
        ensures { told (λ l. (l.grid, l.low, l.high)) result ≡ limit self.grid self.low self.high }
    {
        Limit::new(self.grid, self.low, self.high)
    }
}
