//! Tests of the daemon and of what stands beside it, through what they make public.
#![tactic(auto)]

#[cfg(test)]
mod daemon_links_tests;
#[cfg(test)]
mod daemon_server_tests;
#[cfg(test)]
mod editor_seat_tests;
