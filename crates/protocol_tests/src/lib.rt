//! Tests of the crates of messages, scripts and editors, through what they make public.
#![tactic(auto)]

#[cfg(test)]
mod editor_client_tests;
#[cfg(test)]
mod file_uri_tests;
#[cfg(test)]
mod outside_mem_tests;
#[cfg(test)]
mod replay_script_tests;
#[cfg(test)]
mod rpc_frame_tests;
#[cfg(test)]
mod rpc_message_tests;
