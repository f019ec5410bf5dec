//! The program `teamreplay`: it plays the script on its standard input, and prints what is seen.
#![tactic(auto)]

mod ends;
mod standard;

use ends::{end_unread, tell_end};
use replay::replay_run;
use standard::{StandardInput, StandardOutput};
use std::process::ExitCode;
use std::rt::Env;
use std::{env, io};

/// The words of the command line behind the program's name.
fn words_of(rt: &(impl Env + AllocGlobal)) -> io::Result<Vec<String>> {
    let mut words = Vec::new(rt.alloc());
    for word in env::args(rt)?.skip(1) {
        words.push(word)?;
    }
    Ok(words)
}

fn main(rt: HostRuntime) -> ExitCode {
    let mut script = StandardInput::new(rt.stdin());
    let mut out = StandardOutput::new(rt.stdout());
    let end = match words_of(&rt) {
        Ok(words) => replay_run(rt.alloc(), words.as_slice(), &mut script, &mut out),
        Err(error) => end_unread(&error),
    };
    tell_end(&rt, end)
}

#[cfg(test)]
mod tests;
