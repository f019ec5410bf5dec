use crate::inputs::spread;
use crate::jobs::Job;
use crate::measured::{Measured, ended};
use anyhow::{Result, bail};
use std::time::{Clock, Instant};
use transform::pass_list;

/// The number of steps and the result length of an editor's delta past a list of three of a daemon's.
pub fn run(rt: &(impl Clock + AllocGlobal), job: Job) -> Result<Measured> {
    let p = spread(rt.alloc(), job.size, job.count)?;
    let first = spread(rt.alloc(), job.size, job.count)?;
    let second = spread(rt.alloc(), first.result_length(), job.count)?;
    let third = spread(rt.alloc(), second.result_length(), job.count)?;
    if p.base_length() != first.base_length() {
        bail!("the deltas are of two texts");
    }
    let start = Instant::now(rt)?;
    let passed = pass_list(rt.alloc(), p, &[first, second, third])?;
    let steps = passed.delta.steps().len();
    Ok(ended(rt, start, steps, passed.delta.result_length())?)
}
