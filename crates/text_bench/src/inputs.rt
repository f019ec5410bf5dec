//! The texts, deltas and edits that operations are run on.
ghost use Rattle.std.specs.Prelude.{◌≡◌, IfOk};
ghost use Rattle.delta.specs.Cells.{base_length};

use crate::jobs::{Job, Site};
use delta::{Delta, DeltaBuilder};
use std::alloc::{AllocError, Global};
use tt_base::{List, Position, Text, TextEdit};

/// The characters of a line, with its LF.
pub const LINE: usize = 40;

/// So many characters, of which each fortieth is an LF.
pub fn chars_of(alloc: Global, size: usize) -> Result<Vec<char>, AllocError> {
    let mut chars = Vec::with_capacity(alloc, size)?;
    for i in 0..size {
        chars.push(if i % LINE == LINE - 1 { '\n' } else { 'a' })?;
    }
    Ok(chars)
}

/// A text of so many characters, of which each fortieth is an LF.
pub fn text_of(alloc: Global, size: usize) -> Result<Text, AllocError> {
    Text::from_vec(alloc, chars_of(alloc, size)?)
}

/// The places at which an operation works, each within the text. Those that are anywhere come from a
/// linear congruential generator (Knuth, The Art of Computer Programming, 3.3.4).
pub fn places_of(alloc: Global, job: Job) -> Result<Vec<usize>, AllocError> {
    let mut places = Vec::with_capacity(alloc, job.count)?;
    let mut state = 1u64;
    for _ in 0..job.count {
        state = state
            .wrapping_mul(6_364_136_223_846_793_005)
            .wrapping_add(1_442_695_040_888_963_407);
        let drawn = (state >> 33) as usize;
        places.push(match job.site {
            Site::Front => 0,
            Site::Middle => job.size / 2,
            Site::End => job.size,
            Site::Anywhere => drawn.checked_rem(job.size).unwrap_or(0),
        })?;
    }
    Ok(places)
}

/// A delta on `size` characters with `count` edits, each of which inserts two characters and deletes
/// one, and that stand `size / count` characters apart.
pub fn spread(alloc: Global, size: usize, count: usize) -> Result<Delta, AllocError>
    ensures { IfOk result (λ delta. base_length delta ≡ size) }
{
    let word = text_of(alloc, 2)?;
    let stride = size.checked_div(count).unwrap_or(size);
    let mut builder = DeltaBuilder::new(alloc)?;
    let mut left = size;
    for _ in 0..count {
        let kept = left.min(stride.saturating_sub(1));
        builder.keep(alloc, kept)?;
        left -= kept;
        let deleted = left.min(1);
        builder.delete(alloc, deleted)?;
        left -= deleted;
        builder.insert(alloc, &word)?;
    }
    builder.keep(alloc, left)?;
    let delta = builder.finish(alloc)?;
    Ok(delta)
}

/// So many edits, each of which puts two characters in the place of the first one of a line, with as
/// many lines between one and the next as a text of `size` characters has room for.
pub fn edits_of(alloc: Global, size: usize, count: usize) -> Result<Vec<TextEdit>, AllocError> {
    let stride = (size / LINE).checked_div(count).unwrap_or(0) as u64;
    let mut line = 0u64;
    let mut edits = Vec::new(alloc);
    for _ in 0..count {
        edits.push(TextEdit {
            start: Position { line, character: 0 },
            end: Position { line, character: 1 },
            replacement: Text::from_str(alloc, "bb")?,
        })?;
        line = line.saturating_add(stride);
    }
    Ok(edits)
}

/// One edit, which puts a text of so many characters at one place.
pub fn one_edit(alloc: Global, size: usize) -> Result<List<TextEdit>, AllocError> {
    let place = Position {
        line: 0,
        character: 1,
    };
    let mut edits = List::empty(alloc)?;
    edits.push(
        alloc,
        TextEdit {
            start: place,
            end: place,
            replacement: text_of(alloc, size)?,
        },
    )?;
    Ok(edits)
}
