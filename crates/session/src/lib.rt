//! A day that is spoken to in lines: each line is answered by the day as the lines before it leave it.
#![tactic(auto)]

mod answering;
mod carrying;
mod laws;
mod session;

pub use answering::{answer_all, answer_line};
pub use laws::{answers_are_printed, pieces_are_the_whole, refused_lines_change_nothing};
pub use session::{INPUT_LIMIT, Session};
