use crate::inputs::{places_of, text_of};
use crate::jobs::Job;
use crate::measured::{Measured, ended};
use anyhow::{Result, bail};
use delta::{Delta, DeltaBuilder};
use editor_bridge::Bridge;
use std::alloc::Global;
use std::time::{Clock, Instant};
use tt_base::Text;

/// How many deltas of the editor are taken.
const TAKES: usize = 10_000;

/// A delta of a text of so many characters, which puts one in the place of `deleted` others.
fn put_at(alloc: Global, length: usize, place: usize, deleted: usize) -> Result<Delta> {
    let place = place.min(length);
    let deleted = deleted.min(length - place);
    let mut builder = DeltaBuilder::new(alloc)?;
    builder.keep(alloc, place)?;
    builder.delete(alloc, deleted)?;
    builder.insert(alloc, &Text::from_str(alloc, "x")?)?;
    builder.keep(alloc, length - place - deleted)?;
    Ok(builder.finish(alloc)?)
}

/// The daemon's text changes at these places, and the editor reports none of it.
fn push_all(alloc: Global, bridge: &mut Bridge, places: &[usize]) -> Result<()> {
    for place in places {
        let d = put_at(alloc, bridge.daemon_length(), *place, 0)?;
        if d.base_length() != bridge.daemon_length() || bridge.issued() == u64::MAX {
            bail!("the delta is of another text");
        }
        bridge.push(alloc, d)?;
    }
    Ok(())
}

/// One keystroke of the editor at each place. Each second one puts a character in the place of two.
fn strokes_at(alloc: Global, size: usize, places: &[usize]) -> Result<Vec<Delta>> {
    let mut length = size;
    let mut strokes = Vec::new(alloc);
    for (i, place) in places.iter().enumerate() {
        let stroke = put_at(alloc, length, *place, i % 2 * 2)?;
        length = stroke.result_length();
        strokes.push(stroke)?;
    }
    Ok(strokes)
}

/// The length of the daemon's text once a bridge has taken the editor's keystrokes, and how many deltas
/// were sent again. The count says how many of the daemon's deltas the editor has not shown.
pub fn run(rt: &(impl Clock + AllocGlobal), job: Job) -> Result<Measured> {
    let alloc = rt.alloc();
    let mut bridge = Bridge::new(alloc, text_of(alloc, job.size)?)?;
    push_all(alloc, &mut bridge, places_of(alloc, job)?.as_slice())?;
    let takes = Job {
        count: TAKES,
        ..job
    };
    let strokes = strokes_at(alloc, job.size, places_of(alloc, takes)?.as_slice())?;
    let mut again = 0usize;
    let start = Instant::now(rt)?;
    for stroke in strokes {
        if bridge.taken() == u64::MAX {
            bail!("no more can be counted");
        }
        let taken = bridge.take(alloc, 0, stroke)?;
        again = again.saturating_add(taken.again.len());
    }
    Ok(ended(rt, start, bridge.daemon_length(), again)?)
}
