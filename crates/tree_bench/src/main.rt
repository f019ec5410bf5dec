//! Types characters one by one into one text of a history, and tells how long it takes.
//!
//! The words are the place, which is `end`, `front` or `random`, and the number of characters. Each character is a change
//! of its own, as another replica would have made it: behind the last one, at the root, or behind any earlier one. What
//! came out is printed, so that no work is left out, and the time goes to standard error.
#![tactic(auto)]

mod typing;

use crate::typing::{Site, type_all};
use anyhow::{Result, bail};
use std::time::Instant;

/// The place that a word names.
fn site_of(word: &str) -> Result<Site> {
    match word {
        "end" => Ok(Site::End),
        "front" => Ok(Site::Front),
        "random" => Ok(Site::Anywhere),
        word => bail!("{word} is none of end, front and random"),
    }
}

fn main(rt: HostRuntime) -> Result<()> {
    let words: Vec<String> = std::env::args(&rt)?.skip(1).collect(rt.alloc())?;
    let (Some(site), Some(count)) = (words.get(0), words.get(1)) else {
        bail!("give a place and a number of characters");
    };
    let site = site_of(site.as_str())?;
    let count = count.parse::<u32>()?;
    let start = Instant::now(&rt)?;
    let typed = type_all(rt.alloc(), site, count)?;
    let nanoseconds = start.elapsed(&rt)?.as_nanos();
    println!(rt; "{typed}")?;
    eprintln!(rt; "{nanoseconds}")?;
    Ok(())
}
