//! The daemon's end of a link to one editor of one text.
//!
//! A `Bridge` keeps what the editor is known to have shown, and the daemon's deltas since. It carries
//! each delta of the editor past those that the editor had not shown, and gives these again, carried past
//! the editor's (the server of the Jupiter system: Nichols, Curtis, Dixon and Lamping, 1995).
#![tactic(auto)]

mod bridges;
mod carrying;
mod faults;
mod frames;

pub use bridges::{Bridge, Taken};
pub use faults::BridgeFault;
pub use frames::BridgeFrame;
