//! Runs one operation again and again on an input of a given size, and measures its time.
//!
//! The words are the operation, a size, a count and, if wanted, where it works. What came out is printed,
//! so that no work is left out, and the time goes to standard error: that of the operation alone, without
//! the making of its input. Each operation has a file of its own.
#![tactic(auto)]

mod apply;
mod compose;
mod copy;
mod finish;
mod frames;
mod from_edits;
mod inputs;
mod jobs;
mod keystroke;
mod measured;
mod offset;
mod pass_daemon;
mod pass_editor;
mod pass_list;
mod position;
mod read_edit;
mod read_open;
mod take;
mod to_edits;
mod typed;
mod uris;
mod utf8;
mod vectors;
mod write_edit;

use crate::jobs::{Job, job_of};
use crate::measured::Measured;
use anyhow::{Result, bail};
use std::time::Clock;

/// Runs an operation.
fn run(rt: &(impl Clock + AllocGlobal), operation: &str, job: Job) -> Result<Measured> {
    match operation {
        "apply" => apply::run(rt, job),
        "compose" => compose::run(rt, job),
        "copy" => copy::run(rt, job),
        "copy_vector" => copy::run_vector(rt, job),
        "finish" => finish::run(rt, job),
        "frames" => frames::run(rt, job),
        "from_edits" => from_edits::run(rt, job),
        "keystroke" => keystroke::run(rt, job),
        "keystroke_vector" => keystroke::run_vector(rt, job),
        "offset_of" => offset::run(rt, job),
        "pass_daemon" => pass_daemon::run(rt, job),
        "pass_editor" => pass_editor::run(rt, job),
        "pass_list" => pass_list::run(rt, job),
        "position_of" => position::run(rt, job),
        "position_vector" => position::run_vector(rt, job),
        "read_edit" => read_edit::run(rt, job),
        "read_open" => read_open::run(rt, job),
        "take" => take::run(rt, job),
        "to_edits" => to_edits::run(rt, job),
        "typed" => typed::run(rt, job),
        "typed_vector" => typed::run_vector(rt, job),
        "uris_by_url" => uris::run_by_url(rt, job),
        "uris_plain" => uris::run_plain(rt, job),
        "utf8" => utf8::run(rt, job),
        "utf8_vector" => utf8::run_vector(rt, job),
        "write_edit" => write_edit::run(rt, job),
        _ => bail!("there is no operation {operation}"),
    }
}

fn main(rt: HostRuntime) -> Result<()> {
    let words: Vec<String> = std::env::args(&rt)?.skip(1).collect(rt.alloc())?;
    let Some(operation) = words.get(0) else {
        bail!("give an operation, a size and a count");
    };
    let job = job_of(words.as_slice())?;
    let measured = run(&rt, operation.as_str(), job)?;
    let Measured {
        first,
        second,
        nanoseconds,
    } = measured;
    println!(rt; "{first} {second}")?;
    eprintln!(rt; "{nanoseconds}")?;
    Ok(())
}
