use crate::inputs::text_of;
use crate::jobs::Job;
use crate::measured::{Measured, ended};
use anyhow::Result;
use rpc_message::{FromEditor, read_message, write_request};
use std::alloc::Global;
use std::time::{Clock, Instant};
use tt_base::{Blob, Uri};

/// The body by which an editor opens a file of `size` characters.
fn body_of(alloc: Global, size: usize) -> Result<Blob> {
    let message = FromEditor::Open {
        uri: Uri::from_str(alloc, "file:///work/f")?,
        content: text_of(alloc, size)?,
    };
    Ok(write_request(alloc, 1, &message)?)
}

/// The bytes of the body, and the number of the requests that it is when it is read so many times.
pub fn run(rt: &(impl Clock + AllocGlobal), job: Job) -> Result<Measured> {
    let body = body_of(rt.alloc(), job.size)?;
    let mut requests = 0usize;
    let start = Instant::now(rt)?;
    for _ in 0..job.count {
        let incoming = read_message(rt.alloc(), body.as_slice())?;
        if !incoming.message.is_response() {
            requests = requests.saturating_add(1);
        }
    }
    Ok(ended(rt, start, body.len(), requests)?)
}
