use crate::jobs::Job;
use crate::measured::{Measured, ended};
use anyhow::Result;
use rpc_frame::{FrameReader, write_frame};
use std::time::{Clock, Instant};

/// The number of bodies that are read of a frame with a body of `size` bytes, which comes in pieces of
/// `count` bytes, and the length of the last one.
pub fn run(rt: &(impl Clock + AllocGlobal), job: Job) -> Result<Measured> {
    let alloc = rt.alloc();
    let body = vec![in alloc; b'a'; job.size]?;
    let frame = write_frame(alloc, body.as_slice())?;
    let mut reader = FrameReader::new(alloc, u64::MAX)?;
    let mut bodies = 0usize;
    let mut last = 0;
    let start = Instant::now(rt)?;
    for part in frame.as_slice().chunks(job.count.max(1)) {
        for body in reader.feed(alloc, part)?.into_vec() {
            bodies = bodies.saturating_add(1);
            last = body.len();
        }
    }
    Ok(ended(rt, start, bodies, last)?)
}
