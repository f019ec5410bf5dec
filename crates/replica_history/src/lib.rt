//! A history with what it shows: its graph, the directory of its paths, and the text of each object, all kept as changes come.
#![tactic(auto)]

mod counts;
mod deeds;
mod effects;
mod following;
mod groups;
mod ids;
mod joining;
mod replicas;
mod standings;
mod telling;
mod texts;

pub use effects::Effect;
pub use replicas::{Added, Replica, indices_fit};
