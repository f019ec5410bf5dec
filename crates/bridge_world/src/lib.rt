//! One text of a daemon and its editors: what the counts, the queue and the numbered frames of a link are
//! for, as laws.
//!
//! The plain machine has no number. The counted machine is the same as daemon and editor keep it, with the
//! link of `editor_bridge`. An `EditorRoom` is the counted machine over real texts, deltas and bridges, and
//! each of its steps is a step of the plain one.
#![tactic(auto)]

mod editors;
mod faults;
pub mod laws;
mod marks;
mod rooms;

pub use editors::{Editor, Frame, Held, Message, Sent};
pub use faults::MoveFault;
pub use marks::{Cause, Kind, Mark, State, Verdict};
pub use rooms::EditorRoom;
