use crate::inputs::{chars_of, places_of, text_of};
use crate::jobs::Job;
use crate::measured::{Measured, ended};
use anyhow::Result;
use std::alloc::{AllocError, Global};
use std::time::{Clock, Instant};
use tt_base::Text;

/// Types a character at a place.
fn type_at(alloc: Global, text: &mut Text, place: usize) -> Result<(), AllocError> {
    let place = place.min(text.len());
    text.splice(alloc, place, place, &['x'])
}

/// Deletes the character at a place, where there is one.
fn delete_at(alloc: Global, text: &mut Text, place: usize) -> Result<(), AllocError> {
    if text.len() <= place {
        return Ok(());
    }
    text.splice(alloc, place, place + 1, &[])
}

/// The length of a text in which so many characters were typed and deleted in turn.
pub fn run(rt: &(impl Clock + AllocGlobal), job: Job) -> Result<Measured> {
    let mut text = text_of(rt.alloc(), job.size)?;
    let places = places_of(rt.alloc(), job)?;
    let start = Instant::now(rt)?;
    for (i, place) in places.iter().enumerate() {
        if i % 2 == 0 {
            type_at(rt.alloc(), &mut text, *place)?;
        } else {
            delete_at(rt.alloc(), &mut text, *place)?;
        }
    }
    Ok(ended(rt, start, places.len(), text.len())?)
}

/// The same on a vector.
pub fn run_vector(rt: &(impl Clock + AllocGlobal), job: Job) -> Result<Measured> {
    let mut chars = chars_of(rt.alloc(), job.size)?;
    let places = places_of(rt.alloc(), job)?;
    let start = Instant::now(rt)?;
    for (i, place) in places.iter().enumerate() {
        if i % 2 == 0 {
            let place = chars.len().min(*place);
            chars.insert(place, 'x')?;
        } else if *place < chars.len() {
            chars.remove(*place);
        }
    }
    Ok(ended(rt, start, places.len(), chars.len())?)
}
