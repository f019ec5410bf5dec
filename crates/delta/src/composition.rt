//! The composition of two deltas, in one walk over the steps of both, which meet in the text between
//! them: each run of the second takes as much of what the first gives, and a text that the first
//! inserts and the second deletes is dropped.
//!
//! Where the literature composes operation by operation, the meaning here is taken from the places of
//! the base: both deltas are applied to them, and what is left is read as a delta again.
//!
//! It is right since each step keeps what is built, and behind it the rest of both deltas, at the same
//! places and new characters (`Composes`); a normal delta is fixed by these, so `finish` gives the
//! composition.
ghost use Rattle.std.specs.Prelude.{◌≡◌, ◌+◌, ◌^◌, ◌<◌, ◌≤◌, length, IfOk, OnOk};
ghost use Rattle.delta.specs.Cells.{base_length, result_length, joined, covers, inserts, deleting, nothing};
ghost use Rattle.delta.specs.Marks.{composed};
ghost use Rattle.delta.specs.Steps.{cells_of, step_base};
ghost use Rattle.delta.specs.Reading.{size_of};
ghost use Rattle.delta.specs.Composing.{Composes, run_step, inserted_if};

use crate::builders::DeltaBuilder;
use crate::deltas::Delta;
use crate::readers::{NextStep, StepReader};
use crate::steps::DeltaStep;
use std::alloc::{AllocError, Global};
use tt_base::Text;

/// Keeps or deletes the next characters of the base.
fn cover(
    alloc: Global,
    built: &mut DeltaBuilder,
    kept: bool,
    count: usize,
) -> Result<(), AllocError>
    requires { base_length built.old + count < 2 ^ 64 }
    ensures { OnOk result (built.new ≡ joined built.old (covers kept count nothing)) }
{
    if kept {
        built.keep(alloc, count)
    } else {
        built.delete(alloc, count)
    }
}

/// Inserts a text where it is kept.
fn insert_kept(
    alloc: Global,
    built: &mut DeltaBuilder,
    kept: bool,
    text: Text,
) -> Result<(), AllocError>
    ensures { OnOk result (built.new ≡ inserted_if kept text built.old) }
{
    if kept {
        built.insert_text(alloc, text)
    } else {
        Ok(())
    }
}

/// Handles the next step of the first delta under a run of the second, which keeps or deletes at
/// most `most` characters there. Answers how many of these were handled.
fn compose_part(
    alloc: Global,
    first: &mut StepReader,
    kept: bool,
    most: usize,
    built: &mut DeltaBuilder,
) -> Result<usize, AllocError>
    requires some { 0 < most }
    requires long { most ≤ result_length (cells_of first.old) }
    requires fits { base_length built.old + base_length (cells_of first.old) < 2 ^ 64 }
    ensures most { IfOk result (λ taken. taken ≤ most) }
    ensures composes { IfOk result (λ taken. Composes (run_step kept taken) built.old built.new (cells_of first.old) (cells_of first.new)) }
    ensures nearer { OnOk result (size_of first.new < size_of first.old) }
{
    match first.next() {
        NextStep::Keep(n) => {
            let taken = n.min(most);
            cover(alloc, built, kept, taken)?;
            first.advance(taken);
            Ok(taken)
        }
        NextStep::Insert(n) => {
            let taken = n.min(most);
            let text = first.text(alloc, taken)?;
            insert_kept(alloc, built, kept, text)?;
            first.advance(taken);
            Ok(taken)
        }
        NextStep::Delete(n) => {
            built.delete(alloc, n)?;
            first.advance(n);
            Ok(0)
        }
        NextStep::End => unreachable!(),
    }
}

/// Handles a run of the second delta, which keeps or deletes `count` characters.
fn compose_run(
    alloc: Global,
    first: &mut StepReader,
    kept: bool,
    count: usize,
    built: &mut DeltaBuilder,
) -> Result<(), AllocError>
    requires long { count ≤ result_length (cells_of first.old) }
    requires fits { base_length built.old + base_length (cells_of first.old) < 2 ^ 64 }
    ensures { OnOk result (Composes (run_step kept count) built.old built.new (cells_of first.old) (cells_of first.new)) }
{
    let mut left = count;
    while left > 0 {
        left -= compose_part(alloc, first, kept, left, built)?;
    }
    Ok(())
}

/// Handles a step of the second delta.
fn compose_step(
    alloc: Global,
    first: &mut StepReader,
    step: &DeltaStep,
    built: &mut DeltaBuilder,
) -> Result<(), AllocError>
    requires long { step_base step.now ≤ result_length (cells_of first.old) }
    requires fits { base_length built.old + base_length (cells_of first.old) < 2 ^ 64 }
    ensures { OnOk result (Composes step.now built.old built.new (cells_of first.old) (cells_of first.new)) }
{
    match step {
        DeltaStep::Keep(n) => compose_run(alloc, first, true, *n, built),
        DeltaStep::Insert(text) => built.insert(alloc, text),
        DeltaStep::Delete(n) => compose_run(alloc, first, false, *n, built),
    }
}

/// Handles what the first delta deletes behind all that the second covers.
fn compose_end(
    alloc: Global,
    first: &StepReader,
    built: &mut DeltaBuilder,
) -> Result<(), AllocError>
    requires short { result_length (cells_of first.now) ≡ 0 }
    requires fits { base_length built.old + base_length (cells_of first.now) < 2 ^ 64 }
    ensures { OnOk result (built.new ≡ joined built.old (cells_of first.now)) }
{
    match first.next() {
        NextStep::Delete(n) => built.delete(alloc, n),
        _ => Ok(()),
    }
}

/// The one delta that does what `first` and then `second` do.
pub fn compose(alloc: Global, first: &Delta, second: &Delta) -> Result<Delta, AllocError>
    requires { result_length first.now ≡ base_length second.now }
    ensures { IfOk result (λ delta. delta ≡ composed first.now second.now) }
{
    let mut built = DeltaBuilder::new(alloc)?;
    let mut ahead = StepReader::new(first);
    for step in second.steps().as_slice() {
        compose_step(alloc, &mut ahead, step, &mut built)?;
    }
    compose_end(alloc, &ahead, &mut built)?;
    let delta = built.finish(alloc)?;
    Ok(delta)
}

/// The delta that deletes all `old` characters of its base, and inserts `new` at gap 0.
pub fn replace_all(alloc: Global, old: usize, new: &Text) -> Result<Delta, AllocError>
    ensures { IfOk result (λ delta. delta ≡ inserts new.now (deleting old)) }
{
    let mut built = DeltaBuilder::new(alloc)?;
    built.insert(alloc, new)?;
    built.delete(alloc, old)?;
    let delta = built.finish(alloc)?;
    Ok(delta)
}
