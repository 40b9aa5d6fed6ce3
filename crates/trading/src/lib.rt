//! Lists of calls on a day, and the law that holds after every one of them.
#![tactic(auto)]

mod laws;
mod running;

pub use laws::calls_follow_the_history;
pub use running::{make, run};
