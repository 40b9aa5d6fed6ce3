//! Prices in pips: exact fractions, sets of prices, limits over them, and the nearest price of a set.
#![tactic(auto)]

mod faults;
mod fraction;
mod grid;
mod laws;
mod limit;
mod near;
mod rounding;
mod single;
mod step;

pub use faults::PriceFault;
pub use fraction::Fraction;
pub use grid::{Grid, LAST_PRICE};
pub use laws::{one_answer_each, sets_as_told, worked_cases};
pub use limit::{LAST_END, Limit};
pub use near::nearest;
pub use single::SinglePrice;
pub use step::StepGrid;

#[cfg(test)]
mod tests;
