use crate::inputs::spread;
use crate::jobs::Job;
use crate::measured::{Measured, ended};
use anyhow::Result;
use delta::compose;
use std::time::{Clock, Instant};

/// The number of steps and the result length of the composition of two deltas.
pub fn run(rt: &(impl Clock + AllocGlobal), job: Job) -> Result<Measured> {
    let first = spread(rt.alloc(), job.size, job.count)?;
    let second = spread(rt.alloc(), first.result_length(), job.count)?;
    let start = Instant::now(rt)?;
    let both = compose(rt.alloc(), &first, &second)?;
    let steps = both.steps().len();
    Ok(ended(rt, start, steps, both.result_length())?)
}
