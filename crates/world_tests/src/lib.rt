//! Tests of whole worlds and of the replay, through what they make public.
#![tactic(auto)]

#[cfg(test)]
mod daemon_world_tests;
#[cfg(test)]
mod replay_tests;
