//! What a daemon keeps: its files, and the links of each of its connections.
//!
//! Each call is one of the changes of `daemon_core`'s definitions, made in place, with the messages that it sends.
#![tactic(auto)]

mod changes;
mod connections;
mod files;
mod link_edits;
mod open_files;
mod sending;
mod stops;

pub use changes::Change;
pub use connections::Connections;
pub use files::Files;
pub use link_edits::{LinkEdit, Opened, open_link, take_edit};
pub use open_files::OpenFiles;
pub use sending::{queue_messages, send, send_all};
pub use stops::Stop;
