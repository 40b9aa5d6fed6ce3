//! The trading day, over any rulebook.
#![tactic(auto)]

mod collar;
mod contract;
mod laws;
mod ledger;
mod matching;
mod numbered;
mod order;
mod prices;
mod state;

pub use collar::Collar;
pub use contract::Contract;
pub use laws::entries_follow_the_rulings;
pub use order::{Order, Status};
pub use state::Day;
