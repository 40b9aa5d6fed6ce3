//! The three books of the exchange.
#![tactic(auto)]

mod compression;
mod flexible;
mod laws;
mod measure;
mod rows;
mod single_issue;
mod tables;

pub use compression::Compression;
pub use flexible::Flexible;
pub use laws::{
    books_follow_the_rules, books_have_their_products, mid_price_is_nearest, worked_bands,
};
pub use single_issue::SingleIssue;
