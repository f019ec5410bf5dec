use crate::inputs::{LINE, places_of, text_of};
use crate::jobs::Job;
use crate::measured::{Measured, ended};
use anyhow::Result;
use std::time::{Clock, Instant};
use text_position::offset_of;
use tt_base::Position;

/// The sum of the places of so many positions, each of which begins a line.
pub fn run(rt: &(impl Clock + AllocGlobal), job: Job) -> Result<Measured> {
    let text = text_of(rt.alloc(), job.size)?;
    let places = places_of(rt.alloc(), job)?;
    let mut sum = 0usize;
    let start = Instant::now(rt)?;
    for place in &places {
        let line = (*place / LINE) as u64;
        let offset = offset_of(&text, Position { line, character: 0 })?;
        sum = sum.saturating_add(offset);
    }
    Ok(ended(rt, start, places.len(), sum)?)
}
