//! The bytes of messages: what is written for a message is read as that message, as laws of the definitions alone, so that
//! they hold of bytes that no call has written.
#![tactic(auto)]

pub mod laws;
