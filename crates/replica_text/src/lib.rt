//! One text as a history keeps it: the insertion tree of its elements, of which only the full order is kept.
//!
//! A join finds the parent of a new element in the list and passes the elements behind it that are greater: these are its
//! greater siblings and all below them, so what follows is its place in the walk of the tree. A run of typed characters
//! is placed as a run, since each id of it is greater than the one before.
#![tactic(auto)]

mod deleting;
mod gap_deltas;
mod inserting;
mod joining;
pub mod laws;
mod list_elements;
mod making;
mod places;
mod texts;

pub use list_elements::ListElements;
pub use texts::ReplicaText;
