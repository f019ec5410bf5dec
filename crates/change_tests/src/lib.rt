//! Tests of the crates of changes and journals, through what they make public.
#![tactic(auto)]

#[cfg(test)]
mod byte_format_tests;
#[cfg(test)]
mod change_codec_tests;
#[cfg(test)]
mod change_journal_tests;
#[cfg(test)]
mod journal_format_tests;
#[cfg(test)]
mod replica_dir_tests;
#[cfg(test)]
mod replica_history_tests;
