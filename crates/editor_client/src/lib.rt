//! An editor of one text that keeps the protocol, as a plugin would: it changes its text at once, tells the
//! daemon in bodies of messages, and shows the daemon's edits that are for the text that it has.
//!
//! It needs no transform. An edit of the daemon that was made without one of its own is passed over,
//! since the daemon sends it again, carried past that one.
#![tactic(auto)]

mod clients;
mod faults;
pub mod laws;
mod notes;
mod states;

pub use clients::Client;
pub use faults::TypeFault;
pub use notes::HeardNote;
pub use states::ClientState;
