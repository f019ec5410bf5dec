//! Tables of names: each row has a number, which stands in bytes and messages, and a word, which stands in texts.
//!
//! A table's type keeps its numbers distinct and its words distinct, so that each number and each word has at most
//! one row, and a name is the same both ways.
#![tactic(auto)]

mod tables;

pub use tables::NameTable;

#[cfg(test)]
mod tests;
