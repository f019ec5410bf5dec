//! Steps written in canonical form, group by group: a run that is kept, a text, and a run that is deleted.
//!
//! A text that is asked for behind a deletion goes in front of it, into the text of the group; this is
//! the normal form, which the literature leaves open. A group ends where characters are kept behind a
//! change.
//!
//! It is right since a text in front of a deleted run leaves the same places and new characters as one
//! behind it (`IsAlike`), and deltas that leave the same have one normal form.
ghost use Rattle.std.specs.Prelude.{◌≡◌, ◌+◌, ◌^◌, ◌<◌, ◌++◌, IfOk, OnOk};
ghost use Rattle.delta.specs.Cells.{base_length, joined, keeping, inserting, deleting, nothing, normal};
ghost use Rattle.delta.specs.Steps.{after_step, step_base, group, cells_of, IsWritten};
ghost use Rattle.delta.specs.Alike.{IsAlike};

use crate::steps::DeltaStep;
use std::alloc::{AllocError, Global};
use std::marker::Model;
use tt_base::{List, Text};

/// Writes a delta in canonical form: whole groups of steps, and behind them the group that is
/// being written, which is a run of kept characters, an inserted text and a run of deleted ones.
#[derive(Drop)]
struct Writer {
    written: Vec<DeltaStep>,
    kept: usize,
    text: Vec<char>,
    deleted: usize,
    length: usize,
}

impl Model for Writer {
    ghost use Rattle.std.specs.Prelude.{◌++◌};
    ghost use Rattle.delta.specs.Cells.{Cells};
    ghost use Rattle.delta.specs.Steps.{cells_of, group, IsWriting};

    ghost Value = { Cells };

    ghost view = { λ w. cells_of (w.written.items ++ group w.kept w.text.items w.deleted) };

    ghost invariant = { λ w. IsWriting w.written.items w.kept w.text.items w.deleted w.length };
}

/// The sum of two lengths. A sum above usize is want of memory, since no memory holds such a text.
fn sum_of(a: usize, b: usize) -> Result<usize, AllocError>
    ensures sum { IfOk result (λ sum. sum ≡ a + b) }
    ensures fits { IfOk result (λ sum. sum < 2 ^ 64) }
{
    a.checked_add(b).ok_or(AllocError)
}

/// Writes a group behind the steps.
fn write_group(
    alloc: Global,
    steps: &mut Vec<DeltaStep>,
    kept: usize,
    text: Vec<char>,
    deleted: usize,
) -> Result<(), AllocError>
    ensures { OnOk result (steps.new.items ≡ steps.old.items ++ group kept text.items deleted) }
{
    if kept != 0 {
        steps.push(DeltaStep::Keep(kept))?;
    }
    if !text.is_empty() {
        steps.push(DeltaStep::Insert(Text::from_vec(alloc, text)?))?;
    }
    if deleted != 0 {
        steps.push(DeltaStep::Delete(deleted))?;
    }
    Ok(())
}

impl Writer {
    fn new(alloc: Global) -> Writer
        ensures { result ≡ nothing }
    {
        Writer {
            written: Vec::new(alloc),
            kept: 0,
            text: Vec::new(alloc),
            deleted: 0,
            length: 0,
        }
    }

    fn keep(self, alloc: Global, count: usize) -> Result<Writer, AllocError>
        requires { base_length self + count < 2 ^ 64 }
        ensures { IfOk result (λ writer. IsAlike writer (joined self (keeping count))) }
    {
        if count == 0 {
            return Ok(self);
        }
        let Writer {
            mut written,
            kept,
            text,
            deleted,
            length,
        } = self;
        let length = sum_of(length, count)?;
        if text.is_empty() && deleted == 0 {
            return Ok(Writer {
                written,
                kept: kept + count,
                text,
                deleted,
                length,
            });
        }
        write_group(alloc, &mut written, kept, text, deleted)?;
        Ok(Writer {
            written,
            kept: count,
            text: Vec::new(alloc),
            deleted: 0,
            length,
        })
    }

    fn insert(self, added: &Text) -> Result<Writer, AllocError>
        ensures { IfOk result (λ writer. IsAlike writer (joined self (inserting added.now))) }
    {
        let Writer {
            written,
            kept,
            mut text,
            deleted,
            length,
        } = self;
        let length = sum_of(length, added.len())?;
        added.append_to(&mut text)?;
        Ok(Writer {
            written,
            kept,
            text,
            deleted,
            length,
        })
    }

    fn delete(self, count: usize) -> Writer
        requires { base_length self + count < 2 ^ 64 }
        ensures { IsAlike result (joined self (deleting count)) }
    {
        let Writer {
            written,
            kept,
            text,
            deleted,
            length,
        } = self;
        Writer {
            written,
            kept,
            text,
            deleted: deleted + count,
            length,
        }
    }

    /// Writes a step.
    fn write(self, alloc: Global, step: &DeltaStep) -> Result<Writer, AllocError>
        requires { base_length self + step_base step.now < 2 ^ 64 }
        ensures { IfOk result (λ writer. IsAlike writer (joined self (after_step step.now nothing))) }
    {
        match step {
            DeltaStep::Keep(count) => self.keep(alloc, *count),
            DeltaStep::Insert(text) => self.insert(text),
            DeltaStep::Delete(count) => Ok(self.delete(*count)),
        }
    }

    /// The list of what was written.
    fn close(self, alloc: Global, base: usize) -> Result<List<DeltaStep>, AllocError>
        requires { base ≡ base_length self }
        ensures cells { IfOk result (λ steps. cells_of steps ≡ self) }
        ensures written { IfOk result (λ steps. IsWritten base steps) }
    {
        let Writer {
            mut written,
            kept,
            text,
            deleted,
            ..
        } = self;
        write_group(alloc, &mut written, kept, text, deleted)?;
        Ok(List::from_vec(written))
    }
}

/// The steps in canonical form.
pub(crate) fn write_steps(
    alloc: Global,
    base: usize,
    steps: &[DeltaStep],
) -> Result<List<DeltaStep>, AllocError>
    requires { base ≡ base_length (cells_of steps.now) }
    ensures cells { IfOk result (λ written. cells_of written ≡ normal (cells_of steps.now)) }
    ensures written { IfOk result (λ written. IsWritten base written) }
{
    let mut writer = Writer::new(alloc);
    for step in steps {
        writer = writer.write(alloc, step)?;
    }
    let written = writer.close(alloc, base)?;
    Ok(written)
}
