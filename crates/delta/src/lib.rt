//! Deltas: what an editor or a daemon changes in a text, with normal form, application and
//! composition.
//!
//! A delta speaks of a base text of some length. At each gap it may insert a text, and each
//! character of the base it keeps or deletes. These are the insertions and deletions of operational
//! transformation (Ellis and Gibbs, 1989), written as runs that are kept, inserted and deleted. The
//! normal form is this project's own: a text stands in front of the characters that are deleted with
//! it, never behind them.
#![tactic(auto)]

mod application;
mod builders;
mod composition;
mod deltas;
pub mod laws;
mod readers;
mod steps;
mod writers;

pub use builders::DeltaBuilder;
pub use composition::{compose, replace_all};
pub use deltas::Delta;
pub use readers::{NextStep, StepReader};
pub use steps::DeltaStep;
