//! A broker's line of text becomes a call.
#![tactic(auto)]

mod commands;
mod cutting;
mod fields;
mod laws;
mod lines;
mod numbers;
mod words;

pub use commands::{LONGEST_LINE, command};
pub use laws::{fields_are_the_line, lines_come_in_pieces};
pub use lines::LineReader;
pub use numbers::number;
