use crate::inputs::{chars_of, text_of};
use crate::jobs::Job;
use crate::measured::{Measured, ended};
use anyhow::Result;
use std::alloc::{AllocError, Global};
use std::time::{Clock, Instant};

/// The sum of the numbers of bytes of a text that is written so many times.
pub fn run(rt: &(impl Clock + AllocGlobal), job: Job) -> Result<Measured> {
    let text = text_of(rt.alloc(), job.size)?;
    let mut sum = 0usize;
    let start = Instant::now(rt)?;
    for _ in 0..job.count {
        let bytes = text.to_bytes(rt.alloc())?;
        sum = sum.saturating_add(bytes.len());
    }
    Ok(ended(rt, start, job.count, sum)?)
}

/// The characters of a vector as a string.
fn string_of(alloc: Global, chars: &[char]) -> Result<String, AllocError> {
    let mut string = String::with_capacity(alloc, chars.len())?;
    for ch in chars {
        string.push(*ch)?;
    }
    Ok(string)
}

/// The same on a vector.
pub fn run_vector(rt: &(impl Clock + AllocGlobal), job: Job) -> Result<Measured> {
    let chars = chars_of(rt.alloc(), job.size)?;
    let mut sum = 0usize;
    let start = Instant::now(rt)?;
    for _ in 0..job.count {
        let string = string_of(rt.alloc(), chars.as_slice())?;
        sum = sum.saturating_add(string.len());
    }
    Ok(ended(rt, start, job.count, sum)?)
}
