use crate::inputs::{spread, text_of};
use crate::jobs::Job;
use crate::measured::{Measured, ended};
use anyhow::{Result, bail};
use std::time::{Clock, Instant};

/// The lengths of a text before and after a delta.
pub fn run(rt: &(impl Clock + AllocGlobal), job: Job) -> Result<Measured> {
    let delta = spread(rt.alloc(), job.size, job.count)?;
    let text = text_of(rt.alloc(), job.size)?;
    if text.len() != delta.base_length() {
        bail!("the text has another length");
    }
    let start = Instant::now(rt)?;
    let after = delta.apply(rt.alloc(), &text)?;
    Ok(ended(rt, start, text.len(), after.len())?)
}
