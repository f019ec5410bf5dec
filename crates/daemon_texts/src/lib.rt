//! A daemon over a store beside one that keeps texts alone: they do the same with each event, as long as no two changes have one name.
//!
//! So what is proved of a daemon of texts, link by link, holds of one whose texts are readings of its changes.
#![tactic(auto)]

pub mod laws;
