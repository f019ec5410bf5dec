//! Messages between an editor and the daemon: JSON-RPC 2.0 objects in the bodies of frames.
//!
//! A body is a message with its id, or a fault with the id to answer; each answer has one spelling.
//! Bodies are read and written by `serde_json`, whose meaning of JSON decides.
#![tactic(auto)]

mod answers;
mod bodies;
mod causes;
mod codes;
mod errors;
mod faults;
mod forms;
mod ids;
mod members;
mod messages;
mod methods;
mod params;
mod reading;
mod refusals;
mod replies;
mod requests;
pub mod round_trips;
mod values;

pub use answers::write_message;
pub use causes::UriCause;
pub use codes::code_table;
pub use faults::{Cause, MessageFault};
pub use members::Member;
pub use messages::{FromEditor, Incoming, MessageId, ToEditor};
pub use methods::{Method, method_table};
pub use reading::read_message;
pub use refusals::Refusal;
pub use replies::read_reply;
pub use requests::write_request;
