use crate::inputs::{chars_of, places_of, text_of};
use crate::jobs::Job;
use crate::measured::{Measured, ended};
use crate::vectors::{offset_in, position_in};
use anyhow::{Result, bail};
use std::alloc::{AllocError, Global};
use std::time::{Clock, Instant};
use text_position::{from_edits, position_of};
use tt_base::{Position, Text, TextEdit};

/// The line on which the cursor stands after a character was put in the place of `deleted` others: the
/// place as a position, the edit as a delta, the text changed in place, and the place behind it as a
/// position.
fn put_at(alloc: Global, text: &mut Text, place: usize, deleted: usize) -> Result<usize> {
    let place = place.min(text.len());
    let end = place.saturating_add(deleted).min(text.len());
    let edit = TextEdit {
        start: position_of(text, place),
        end: position_of(text, end),
        replacement: Text::from_str(alloc, "x")?,
    };
    let delta = from_edits(alloc, text, &[edit])?;
    if delta.base_length() != text.len() {
        bail!("the delta is of another text");
    }
    delta.apply_in_place(alloc, text)?;
    let behind = place.saturating_add(1).min(text.len());
    Ok(position_of(text, behind).line as usize)
}

/// The sum of the lines of so many keystrokes, and the length of the text after them. Each second one
/// puts a character in the place of two.
pub fn run(rt: &(impl Clock + AllocGlobal), job: Job) -> Result<Measured> {
    let mut text = text_of(rt.alloc(), job.size)?;
    let places = places_of(rt.alloc(), job)?;
    let mut lines = 0usize;
    let start = Instant::now(rt)?;
    for (i, place) in places.iter().enumerate() {
        let line = put_at(rt.alloc(), &mut text, *place, i % 2 * 2)?;
        lines = lines.saturating_add(line);
    }
    Ok(ended(rt, start, lines, text.len())?)
}

/// The same on a vector, which has no delta.
fn put_in_vector(
    chars: &mut Vec<char>,
    place: usize,
    deleted: usize,
) -> Result<Position, AllocError> {
    let first = position_in(chars.as_slice(), place);
    let last = position_in(chars.as_slice(), place.saturating_add(deleted));
    let from = offset_in(chars.as_slice(), first);
    let to = offset_in(chars.as_slice(), last);
    for _ in from..to {
        if from < chars.len() {
            chars.remove(from);
        }
    }
    let from = from.min(chars.len());
    chars.insert(from, 'x')?;
    Ok(position_in(chars.as_slice(), from.saturating_add(1)))
}

/// The same on a vector.
pub fn run_vector(rt: &(impl Clock + AllocGlobal), job: Job) -> Result<Measured> {
    let mut chars = chars_of(rt.alloc(), job.size)?;
    let places = places_of(rt.alloc(), job)?;
    let mut lines = 0usize;
    let start = Instant::now(rt)?;
    for (i, place) in places.iter().enumerate() {
        let position = put_in_vector(&mut chars, *place, i % 2 * 2)?;
        lines = lines.saturating_add(position.line as usize);
    }
    Ok(ended(rt, start, lines, chars.len())?)
}
