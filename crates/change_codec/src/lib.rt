//! Changes: what one daemon did at one moment, with one encoding each, whose digest is its name.
//!
//! A change names the changes that it knew by their digests, as commits of Git and changes of Automerge do
//! (Kleppmann and Beresford, 2017), so that a name stands for all that came before it.
#![tactic(auto)]

mod changes;
mod digests;
mod faults;
pub mod laws;
mod ops;
mod reading;
mod views;
mod writing;

pub use changes::Change;
pub use digests::name_of;
pub use faults::BadEncoding;
pub use ops::{Op, Parent, Ref};
pub use reading::read_change;
pub use writing::write_change;
