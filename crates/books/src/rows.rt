//! The rows of the books.
use rulebook::{HoursClass, Letter};

/// What a price is measured from.
#[derive(Clone, Copy, PartialEq, Eq, Debug)]
pub enum Centre {
    /// The mid-price, the last price or the reference price, as the choice says.
    TradingPrice,
    /// The last price, else the reference price.
    LastPrice,
    ReferencePrice,
    TheoreticalPrice,
}

/// A row: what the prices of a product are made of. That its numbers are small is no fact of the type, since every rule
/// of the exchange is written as a row, with whatever numbers.
#[derive(Clone, Copy, PartialEq, Eq, Debug)]
pub struct Row {
    /// The price unit, in pips.
    pub unit: u64,
    pub centre: Centre,
    /// Thousandths of the figure `of` that the price may be away from the centre.
    pub weight: u64,
    pub of: Letter,
    /// Two figures: the price may be further away by as much as they are apart.
    pub swing: Option<(Letter, Letter)>,
    pub auction_step: Option<u64>,
    pub hours: HoursClass,
}
