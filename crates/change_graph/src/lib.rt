//! A history of changes: each is held once under its name, with all that it depends on.
//!
//! Changes name the changes before them by digests, as the commits of Git do, so a history is a graph without cycles. What
//! some names lead to and others do not is found by a walk from the deepest changes.
#![tactic(auto)]

mod causes;
mod faults;
mod graphs;
pub mod laws;
mod nodes;
mod places;
mod runs;
mod starts;
mod survey;
mod walks;

pub use causes::Cause;
pub use faults::{AddNote, GraphFault};
pub use graphs::Graph;

#[cfg(test)]
mod graph_tests;
#[cfg(test)]
mod survey_tests;
