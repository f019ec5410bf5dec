//! What Soonstable asks of the world outside: a source of bytes, a sink for bytes, and a disk.
//!
//! Each is a trait with one ghost member, its meaning: what the object tells of its content, and
//! how often its calls have failed. A contract relates the meanings before and after a call. An
//! object over memory tells its content; one over a real stream or file tells none, and then the clauses
//! on content say nothing of it.
#![tactic(auto)]

mod disks;
mod modes;
mod sinks;
mod sources;
mod stops;

pub use disks::{Disk, DiskFault, Fault};
pub use modes::Mode;
pub use sinks::{Gave, Sink};
pub use sources::{Source, Took};
pub use stops::{Stops, StopsDisk};
