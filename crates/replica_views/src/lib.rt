//! What a history of changes shows: the files at its paths and their texts, what new changes do to them, and the changes
//! that a daemon makes.
#![tactic(auto)]

pub mod laws;
