//! A world of daemons and editors in code, as a script plays it move by move.
//!
//! Each move that `kept_world` defines is made by one method of `Machine`, and [`World::play`] says what it is in the plain machine of
//! `plain_world`.
#![tactic(auto)]

mod begun;
mod delivery;
mod events;
mod fed;
mod machine;
mod making;
mod possible;
mod sending;
mod typing;
mod worlds;

pub use worlds::{PlayEnd, World};
