use crate::measured::{Measured, ended};
use crate::records::note;
use anyhow::Result;
use journal_format::write_group;
use std::time::{Clock, Instant};

/// The bytes of so many groups of one record.
pub fn write_all(rt: &(impl Clock + AllocGlobal), count: usize) -> Result<Measured> {
    let group = [note(rt.alloc())?];
    let start = Instant::now(rt)?;
    let mut bytes = 0u64;
    for _ in 0..count {
        let spelled = write_group(rt.alloc(), &group)?;
        bytes = bytes.wrapping_add(spelled.len() as u64);
    }
    Ok(ended(rt, start, bytes)?)
}
