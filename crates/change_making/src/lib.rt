//! The changes that a daemon makes for a delta of the text at a path, and for the removal of the file there.
//!
//! A change is made from what stands beside its history: the graph with its heads, and the text of the object that is read
//! at the path. Nothing here grows with the history but the names of its heads, which are copied once.
#![tactic(auto)]

mod making;
mod writing;

pub use making::{changing, creating, removing};

#[cfg(test)]
mod tests;
