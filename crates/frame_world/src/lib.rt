//! The editors of a script as a program keeps them: clients, bodies of requests, and frames of bytes, tied to the plain
//! machine.
#![tactic(auto)]

pub mod laws;
