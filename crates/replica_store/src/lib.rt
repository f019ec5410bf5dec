//! The store of a daemon: its changes and notes, as a journal on a disk keeps them, and the files that they show.
#![tactic(auto)]

mod faults;
pub mod laws;

pub use faults::StoreFault;

/// The characters that a text may have after a change that lengthens it, and that a new file may have.
pub const LONGEST_TEXT: usize = 1_048_576;
