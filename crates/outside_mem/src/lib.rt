//! The objects of the world outside, in memory: what they hold is told, and their calls fail where
//! they are told to, by number.
//!
//! The `Sure` forms never fail: their counts of faults are the constant 0.
#![tactic(auto)]

mod histories;
mod mem_disks;
mod overwrites;
mod sinks;
mod sources;
mod sure_disks;

pub use mem_disks::MemDisk;
pub use sinks::{MemSink, SureSink};
pub use sources::{MemSource, SureSource};
pub use sure_disks::SureDisk;
