use crate::inputs::spread;
use crate::jobs::Job;
use crate::measured::{Measured, ended};
use anyhow::Result;
use std::time::{Clock, Instant};
use transform::pass_daemon;

/// The number of steps and the result length of a daemon's delta past an editor's.
pub fn run(rt: &(impl Clock + AllocGlobal), job: Job) -> Result<Measured> {
    let q = spread(rt.alloc(), job.size, job.count)?;
    let p = spread(rt.alloc(), job.size, job.count / 2)?;
    let start = Instant::now(rt)?;
    let carried = pass_daemon(rt.alloc(), &q, &p)?;
    let steps = carried.steps().len();
    Ok(ended(rt, start, steps, carried.result_length())?)
}
