use crate::inputs::{chars_of, places_of, text_of};
use crate::jobs::Job;
use crate::measured::{Measured, ended};
use crate::vectors::position_in;
use anyhow::Result;
use std::time::{Clock, Instant};
use text_position::position_of;

/// The sums of the lines and of the characters of so many positions.
pub fn run(rt: &(impl Clock + AllocGlobal), job: Job) -> Result<Measured> {
    let text = text_of(rt.alloc(), job.size)?;
    let places = places_of(rt.alloc(), job)?;
    let mut lines = 0usize;
    let mut characters = 0usize;
    let start = Instant::now(rt)?;
    for place in &places {
        let position = position_of(&text, text.len().min(*place));
        lines = lines.saturating_add(position.line as usize);
        characters = characters.saturating_add(position.character as usize);
    }
    Ok(ended(rt, start, lines, characters)?)
}

/// The same on a vector.
pub fn run_vector(rt: &(impl Clock + AllocGlobal), job: Job) -> Result<Measured> {
    let chars = chars_of(rt.alloc(), job.size)?;
    let places = places_of(rt.alloc(), job)?;
    let mut lines = 0usize;
    let mut characters = 0usize;
    let start = Instant::now(rt)?;
    for place in &places {
        let position = position_in(chars.as_slice(), *place);
        lines = lines.saturating_add(position.line as usize);
        characters = characters.saturating_add(position.character as usize);
    }
    Ok(ended(rt, start, lines, characters)?)
}
