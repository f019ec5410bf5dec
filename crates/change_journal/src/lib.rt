//! A journal on a disk that may stop at any moment.
//!
//! Records are appended in groups behind a gate, which is one byte. An append that has answered keeps its records
//! whatever crash may come, and one that was cut short keeps all of them or none. An opened journal holds the records
//! of its disk.
#![tactic(auto)]

mod faults;
mod journals;
pub mod laws;
mod opening;
mod records;
mod writes;

pub use faults::{AppendFault, JournalFault, NotOpened};
pub use journal_format::{Known, Note, Record, keeps_actor_first, record_kinds};
pub use journals::Journal;
