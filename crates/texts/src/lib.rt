//! Tests of lines and replies, apart from them so that they are not proved twice.
#![tactic(auto)]

#[cfg(test)]
mod tests;
