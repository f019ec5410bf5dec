//! Whole worlds as a program keeps them: daemons with all their connections, clients, bodies of requests and frames of bytes,
//! tied to the plain machine.
#![tactic(auto)]

pub mod laws;
