//! Worked days, and tests of the day over all three books, apart from it so that the day is not proved twice.
#![tactic(auto)]

mod laws;

pub use laws::worked_days;

#[cfg(test)]
mod tests;
