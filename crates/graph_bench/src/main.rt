//! Runs one operation of graphs or of changes again and again on a history of a given size.
//!
//! The words are the operation, the shape of the history, its size and a count of runs. What came out is printed, so that no
//! work is left out. The time is measured from outside, by the difference that more runs make.
#![tactic(auto)]

mod histories;
mod operations;

use crate::histories::history_of;
use crate::operations::run;
use anyhow::{Result, bail};

fn main(rt: HostRuntime) -> Result<()> {
    let words: Vec<String> = std::env::args(&rt)?.skip(1).collect(rt.alloc())?;
    let [operation, shape, size, count] = words.as_slice() else {
        bail!("give an operation, a shape, a size and a count");
    };
    let history = history_of(rt.alloc(), shape.as_str(), size.parse::<usize>()?)?;
    let count = count.parse::<usize>()?;
    let (first, second) = run(rt.alloc(), operation.as_str(), &history, count)?;
    println!(rt; "{first} {second}")?;
    Ok(())
}
