//! The records of a journal, and which records a list of bytes stands for.
//!
//! A journal is a mark, groups of records behind open gates, and a closed gate; what stands behind that counts for
//! nothing. So one byte decides whether a group counts, and bytes that a crash left behind a closed gate do no harm.
#![tactic(auto)]

mod groups;
pub mod laws;
mod reading;
mod records;
mod unread;
mod writing;

pub use groups::{BadGroups, Contents, MARK, keeps_actor_first, read_groups};
pub use records::{Known, Note, Record, record_kinds};
pub use writing::{CLOSED_GATE, write_group};
