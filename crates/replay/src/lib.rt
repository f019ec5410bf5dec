//! The replay: it plays a script of moves on daemons and editors in memory, and prints what is seen.
//!
//! A script is UTF-8 text of one move a line. [`replay_run`] reads it from a source as it comes,
//! plays each line as soon as it is whole, and writes what it prints to a sink. Its contract says
//! what each status means, against the plain machine of worlds of daemons and editors.
#![tactic(auto)]

mod faults;
pub mod laws;
mod player;
mod playing;
mod run;

pub use faults::ReplayFault;
pub use run::{ReplayEnd, replay_run};
