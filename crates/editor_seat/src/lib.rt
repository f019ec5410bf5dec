//! An editor of a script in code: a client with the bodies under way from it and the frames under way to it.
//!
//! Each step of it is the one of the definitions of `frame_world` and `kept_world`. It opens no connection and knows
//! no daemon: who has both takes the bodies up, and gives it the frames that it is sent.
#![tactic(auto)]

mod faults;
mod lines;
mod reading;
mod seats;

pub use faults::DeliverFault;
pub use lines::write_note;
pub use seats::EditorSeat;
