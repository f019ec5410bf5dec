//! The daemon in code: an event comes in, the state moves on, and the outputs go out.
//!
//! Each message is carried out as `daemon_core`'s definitions say, with the bridges and files of `daemon_links`. All
//! that is sent is written first, and the change of the files, all or nothing, comes last.
#![tactic(auto)]

mod daemons;
mod frames;
mod handled;
mod messages;
mod steps;

pub use daemons::Daemon;
