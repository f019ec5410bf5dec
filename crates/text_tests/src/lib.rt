//! Tests of the crates of texts and deltas, through what they make public.
#![tactic(auto)]

#[cfg(test)]
mod bridge_world_tests;
#[cfg(test)]
mod delta_tests;
#[cfg(test)]
mod editor_bridge_tests;
#[cfg(test)]
mod text_position_tests;
#[cfg(test)]
mod transform_tests;
