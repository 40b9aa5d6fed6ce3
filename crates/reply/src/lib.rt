//! What a line is replied, as bytes, and why a line is refused.
#![tactic(auto)]

mod faults;
mod replies;

pub use faults::{Layer, LineFault};
pub use replies::{LONGEST_REPLY, Reply};
