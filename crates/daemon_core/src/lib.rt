//! The daemon: an event comes in, and the next state and the outputs follow.
//!
//! A daemon keeps the files of a directory and the connections of its editors. An editor's edit is carried past all that
//! the editor had not shown, makes one change, and is told to every other editor that has the file open.
#![tactic(auto)]

mod events;
pub mod laws;

pub use events::{Event, Notice, Output};

/// The characters that a text may have after an edit that lengthens it, and that a new file may have.
pub const LONGEST_TEXT: usize = 1_048_576;
