use crate::inputs::spread;
use crate::jobs::Job;
use crate::measured::{Measured, ended};
use anyhow::Result;
use std::time::{Clock, Instant};

/// The number of steps and the result length of a delta that is built.
pub fn run(rt: &(impl Clock + AllocGlobal), job: Job) -> Result<Measured> {
    let start = Instant::now(rt)?;
    let delta = spread(rt.alloc(), job.size, job.count)?;
    let steps = delta.steps().len();
    Ok(ended(rt, start, steps, delta.result_length())?)
}
