use crate::inputs::one_edit;
use crate::jobs::Job;
use crate::measured::{Measured, ended};
use anyhow::Result;
use rpc_message::{ToEditor, write_message};
use std::time::{Clock, Instant};
use tt_base::Uri;

/// The bytes of a daemon's edit, which puts `size` characters at one place, and their sum when it is
/// written so many times.
pub fn run(rt: &(impl Clock + AllocGlobal), job: Job) -> Result<Measured> {
    let message = ToEditor::Edit {
        uri: Uri::from_str(rt.alloc(), "file:///work/f")?,
        revision: 1,
        edits: one_edit(rt.alloc(), job.size)?,
    };
    let mut last = 0;
    let mut sum = 0usize;
    let start = Instant::now(rt)?;
    for _ in 0..job.count {
        let body = write_message(rt.alloc(), &message)?;
        last = body.len();
        sum = sum.saturating_add(last);
    }
    Ok(ended(rt, start, last, sum)?)
}
