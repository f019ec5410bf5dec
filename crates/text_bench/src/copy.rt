use crate::inputs::{chars_of, text_of};
use crate::jobs::Job;
use crate::measured::{Measured, ended};
use anyhow::Result;
use std::time::{Clock, Instant};

/// The sum of the lengths of so many copies of a text.
pub fn run(rt: &(impl Clock + AllocGlobal), job: Job) -> Result<Measured> {
    let text = text_of(rt.alloc(), job.size)?;
    let mut sum = 0usize;
    let start = Instant::now(rt)?;
    for _ in 0..job.count {
        let copy = text.copied(rt.alloc())?;
        sum = sum.saturating_add(copy.len());
    }
    Ok(ended(rt, start, job.count, sum)?)
}

/// The same on a vector.
pub fn run_vector(rt: &(impl Clock + AllocGlobal), job: Job) -> Result<Measured> {
    let chars = chars_of(rt.alloc(), job.size)?;
    let mut sum = 0usize;
    let start = Instant::now(rt)?;
    for _ in 0..job.count {
        let copy = Vec::from_slice(rt.alloc(), chars.as_slice())?;
        sum = sum.saturating_add(copy.len());
    }
    Ok(ended(rt, start, job.count, sum)?)
}
