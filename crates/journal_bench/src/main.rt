//! Appends records to a journal one by one, and tells how long it takes.
//!
//! The words are the operation, the number of records, and where it needs one the path of a file, which is made anew.
//! `journal_in_memory` and `journal_in_file` append each record to a journal; `calls_in_file` makes the four calls of an
//! append alone, on as many bytes; `groups` writes the bytes of a group and makes no call. What came out is printed,
//! so that no work is left out, and the time goes to standard error.
#![tactic(auto)]

mod appends;
mod file_disks;
mod groups;
mod measured;
mod records;

use crate::appends::{append_all, call_all};
use crate::file_disks::FileDisk;
use crate::groups::write_all;
use crate::measured::Measured;
use anyhow::{Result, bail};
use outside_mem::MemDisk;
use std::fs::{File, OpenOptions};
use std::rt::Files;
use std::time::Clock;
use tt_base::{Blob, List};

/// A disk over the file at this path, which is made anew.
fn file_at(rt: &impl Files<File = File>, path: Option<&String>) -> Result<FileDisk> {
    let Some(path) = path else {
        bail!("give the path of a file");
    };
    let file = OpenOptions::new()
        .read(true)
        .write(true)
        .create(true)
        .truncate(true)
        .open(rt, path.as_str())?;
    Ok(FileDisk::new(file))
}

/// Runs an operation.
fn run<R: Clock + AllocGlobal + Files<File = File>>(
    rt: &R,
    operation: &str,
    count: usize,
    path: Option<&String>,
) -> Result<Measured> {
    let alloc = rt.alloc();
    match operation {
        "journal_in_memory" => {
            let disk = MemDisk::new(alloc, Blob::empty(alloc)?, List::empty(alloc)?)?;
            append_all(rt, disk, count)
        }
        "journal_in_file" => append_all(rt, file_at(rt, path)?, count),
        "calls_in_file" => call_all(rt, file_at(rt, path)?, count),
        "groups" => write_all(rt, count),
        _ => bail!("there is no operation {operation}"),
    }
}

fn main(rt: HostRuntime) -> Result<()> {
    let words: Vec<String> = std::env::args(&rt)?.skip(1).collect(rt.alloc())?;
    let (Some(operation), Some(count)) = (words.get(0), words.get(1)) else {
        bail!("give an operation and a number of records");
    };
    let measured = run(
        &rt,
        operation.as_str(),
        count.parse::<usize>()?,
        words.get(2),
    )?;
    println!(rt; "{}", measured.bytes)?;
    eprintln!(rt; "{}", measured.nanoseconds)?;
    Ok(())
}
