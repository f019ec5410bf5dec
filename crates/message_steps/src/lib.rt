//! What a message of an editor asks for, in code, judged by the links of its connection and the texts at hand.
//!
//! Each message is judged as `daemon_events`' definitions say, with the bridges of `daemon_links`. The change that it asks for is
//! told and not made: the crate above makes it in what it holds.
#![tactic(auto)]

mod heard;
pub mod laws;
mod messages;
mod paths;
mod replies;
mod steps;

pub use heard::{Heard, hear};
pub use messages::take_step;
pub use paths::path_to_open;
pub use replies::send_reply;
pub use steps::{Answer, Step, answered, quiet};
