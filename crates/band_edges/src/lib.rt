//! Tests of the books, apart from them so that the books are not proved twice.
#![tactic(auto)]

#[cfg(test)]
mod tests;
