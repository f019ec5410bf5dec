//! The daemon over its store, in code: an event comes in, what it records is on the disk, and then the outputs go out.
//!
//! A message is judged by `message_steps`, its change is made in the store of `replica_disk`, and the texts of the files that are open
//! are at hand, changed in place by each change.
#![tactic(auto)]

mod daemons;
mod fetching;
mod frames;
mod making;
mod stops;

pub use daemon_core::{Event, Notice, Output};
pub use daemons::Daemon;
pub use replica_disk::{JournalFault, NotOpened};
pub use stops::DaemonStop;
