//! Deltas that an editor and a daemon made on one text at the same time, carried past each other.
//!
//! Both ways of applying them, the daemon's first or the editor's first, then give one text.
#![tactic(auto)]

pub mod laws;
mod lists;
mod sides;
mod transforms;

pub use lists::{Passed, pass_list};
pub use transforms::{pass_daemon, pass_editor};
