//! A daemon of a script in code: a daemon with the streams of the connections that the script feeds byte by byte.
#![tactic(auto)]

mod hosts;
mod lines;
mod streams;

pub use hosts::Host;
pub use lines::{push_told, write_hung};
