use crate::jobs::Job;
use crate::measured::{Measured, ended};
use anyhow::Result;
use file_uri::{Base, path_of};
use std::alloc::{AllocError, Global};
use std::time::{Clock, Instant};

/// The base that each path is below.
const BASE: &str = "file:///work/";

/// The same base with an escape, so that a URI which begins with it is read by the parser of URLs.
const ESCAPED_BASE: &str = "file:///w%6Frk/";

/// The URI of a path of `size` bytes, with a slash each 50 bytes.
fn uri_below(alloc: Global, base: &str, size: usize) -> Result<String, AllocError> {
    let mut uri = String::from_str(alloc, base)?;
    for i in 0..size {
        uri.push(if i % 50 == 25 { '/' } else { 'a' })?;
    }
    Ok(uri)
}

/// The bytes of a URI, and those of the paths that come of it when it is read so many times.
fn run_below(rt: &(impl Clock + AllocGlobal), spelling: &str, job: Job) -> Result<Measured> {
    let uri = uri_below(rt.alloc(), spelling, job.size)?;
    let base = Base::read(rt.alloc(), BASE)?;
    let mut bytes = 0usize;
    let start = Instant::now(rt)?;
    for _ in 0..job.count {
        let path = path_of(rt.alloc(), &base, uri.as_str())?;
        bytes = bytes.saturating_add(path.as_str().len());
    }
    Ok(ended(rt, start, uri.len(), bytes)?)
}

/// Reads a plain URI so many times.
pub fn run_plain(rt: &(impl Clock + AllocGlobal), job: Job) -> Result<Measured> {
    run_below(rt, BASE, job)
}

/// Reads so many times a URI of the same path that is not plain.
pub fn run_by_url(rt: &(impl Clock + AllocGlobal), job: Job) -> Result<Measured> {
    run_below(rt, ESCAPED_BASE, job)
}
