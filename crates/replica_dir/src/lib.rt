//! Which objects stand at each path of a shared directory, and which of them wins.
//!
//! Changes of several daemons make and remove objects at paths. The answers here depend on the set of makes
//! and the set of removes alone, and not on the order in which they came.
#![tactic(auto)]

mod directories;
mod id_sets;
pub mod laws;

pub use directories::Directory;
