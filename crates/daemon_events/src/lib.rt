//! What a daemon over a store makes of each event: what it then holds and has recorded, what each editor has open, and what it asks for.
//!
//! A daemon holds changes, and each text is a reading of them. An editor's edit is carried past all that the editor had not shown,
//! makes one change, and is told to every other editor that has the file open.
#![tactic(auto)]

pub mod laws;

pub use daemon_core::{Event, Notice, Output};
