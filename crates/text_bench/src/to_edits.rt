use crate::inputs::{spread, text_of};
use crate::jobs::Job;
use crate::measured::{Measured, ended};
use anyhow::{Result, bail};
use std::time::{Clock, Instant};
use text_position::to_edits;

/// The number of the edits of a delta, and the length of the text that they are for.
pub fn run(rt: &(impl Clock + AllocGlobal), job: Job) -> Result<Measured> {
    let delta = spread(rt.alloc(), job.size, job.count)?;
    let text = text_of(rt.alloc(), job.size)?;
    if text.len() != delta.base_length() {
        bail!("the text has another length");
    }
    let start = Instant::now(rt)?;
    let edits = to_edits(rt.alloc(), &text, &delta)?;
    Ok(ended(rt, start, edits.len(), text.len())?)
}
