//! The vocabulary of a trading day, and the law of every day that is answered as the rules fix.
#![tactic(auto)]

mod answers;
mod calls;
mod faults;
mod laws;
mod room;

pub use answers::Answer;
pub use calls::{Call, Entry, Side};
pub use faults::{DayFault, EntryField};
pub use laws::{
    every_lawful_day_is_sound, listed_contracts_have_products, no_collar_takes_nothing,
};
pub use room::TooLittleRoom;
