use crate::inputs::{edits_of, text_of};
use crate::jobs::Job;
use crate::measured::{Measured, ended};
use anyhow::Result;
use std::time::{Clock, Instant};
use text_position::from_edits;

/// The number of steps and the result length of the delta of a list of edits.
pub fn run(rt: &(impl Clock + AllocGlobal), job: Job) -> Result<Measured> {
    let text = text_of(rt.alloc(), job.size)?;
    let edits = edits_of(rt.alloc(), job.size, job.count)?;
    let start = Instant::now(rt)?;
    let delta = from_edits(rt.alloc(), &text, edits.as_slice())?;
    let steps = delta.steps().len();
    Ok(ended(rt, start, steps, delta.result_length())?)
}
