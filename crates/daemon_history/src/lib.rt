//! What a daemon holds: its changes and notes, as definitions with laws. The texts that its editors see are readings of it, and
//! the records of its journal give it again.
#![tactic(auto)]

pub mod laws;
