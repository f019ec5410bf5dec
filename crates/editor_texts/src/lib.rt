//! What editors give to a daemon, and what it makes of that, is within the bounds of changes: paths are shared paths, and texts are of
//! Unicode scalar values.
#![tactic(auto)]

pub mod laws;
