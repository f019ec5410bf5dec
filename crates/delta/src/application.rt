ghost use Rattle.std.specs.Prelude.{◌≡◌, ◌+◌, ◌≤◌, ◌++◌, true, length, take, drop, IfOk, OnOk, OnErr};
ghost use Rattle.delta.specs.Cells.{base_length, applied, covers, joined, keeping};
ghost use Rattle.delta.specs.Steps.{cells_of, said_by, step_base};

use crate::deltas::Delta;
use crate::steps::DeltaStep;
use std::alloc::{AllocError, Global};
use tt_base::{Runs, Text};

/// Writes what the step makes of the characters that are left of the base, and passes over those that
/// it takes.
fn write_step(
    after: &mut Vec<char>,
    step: &DeltaStep,
    left: &mut Runs<'_, char>,
) -> Result<(), AllocError>
    requires { step_base step.now ≤ length left.old }
    ensures written { OnOk result (after.new.items ≡ after.old.items ++ said_by step.now left.old) }
    ensures left { OnOk result (left.new ≡ drop (step_base step.now) left.old) }
{
    match step {
        DeltaStep::Keep(n) => left.copy_to(after, *n),
        DeltaStep::Insert(text) => text.append_to(after),
        DeltaStep::Delete(n) => {
            left.skip(*n);
            Ok(())
        }
    }
}

/// Writes what the steps make of the characters that are left of the base, up to what the last of them
/// takes.
fn write_changes(
    after: &mut Vec<char>,
    steps: &[DeltaStep],
    left: &mut Runs<'_, char>,
) -> Result<(), AllocError>
    requires { base_length (cells_of steps.now) ≤ length left.old }
    ensures { OnOk result (after.new.items ≡ after.old.items ++ applied (cells_of steps.now) left.old) }
{
    for step in steps {
        write_step(after, step, left)?;
    }
    Ok(())
}

/// The number of characters that are kept in front of the first change, and the steps from that on.
fn kept_in_front(steps: &[DeltaStep]) -> (usize, &[DeltaStep])
    ensures { cells_of steps.now ≡ covers true result.0 (cells_of result.1.now) }
{
    match steps.split_first() {
        Some((DeltaStep::Keep(n), changes)) => (*n, changes),
        _ => (0, steps),
    }
}

/// The steps up to the last change, and the number of characters that are kept behind it.
fn kept_behind(steps: &[DeltaStep]) -> (&[DeltaStep], usize)
    ensures { cells_of steps.now ≡ joined (cells_of result.0.now) (keeping result.1) }
{
    match steps.split_last() {
        Some((DeltaStep::Keep(n), changes)) => (changes, *n),
        _ => (steps, 0),
    }
}

/// Does the step at a place of a text, and gives the place behind what it says.
fn change_step(
    alloc: Global,
    text: &mut Text,
    place: usize,
    step: &DeltaStep,
) -> Result<usize, AllocError>
    requires { place + step_base step.now ≤ length text.old }
    ensures said { IfOk result (λ next. take next text.new ≡ take place text.old ++ said_by step.now (drop place text.old)) }
    ensures left { IfOk result (λ next. drop next text.new ≡ drop (step_base step.now) (drop place text.old)) }
    ensures within { IfOk result (λ next. next ≤ length text.new) }
{
    let _length = text.len();
    match step {
        DeltaStep::Keep(n) => Ok(place + *n),
        DeltaStep::Insert(added) => {
            text.splice_text(alloc, place, place, added)?;
            let _length = text.len();
            Ok(place + added.len())
        }
        DeltaStep::Delete(n) => {
            text.splice(alloc, place, place + *n, &[])?;
            Ok(place)
        }
    }
}

impl Delta {
    /// The text after the delta: gap by gap the inserted text, and then the character unless it is
    /// deleted. It takes a pass over the text.
    pub fn apply(&self, alloc: Global, text: &Text) -> Result<Text, AllocError>
        requires { length text.now ≡ base_length self.now }
        ensures { IfOk result (λ after. after ≡ applied self.now text.now) }
    {
        let mut after = Vec::new(alloc);
        let mut left = text.runs(0);
        write_changes(&mut after, self.steps().as_slice(), &mut left)?;
        let after = Text::from_vec(alloc, after)?;
        Ok(after)
    }

    /// Makes a text the text after the delta, at once: all from the first change to the last is replaced.
    /// After want of memory the text is as before.
    ///
    /// It costs the characters between these two, and a page.
    pub fn apply_at_once(&self, alloc: Global, text: &mut Text) -> Result<(), AllocError>
        requires { length text.old ≡ base_length self.now }
        ensures ok { OnOk result (text.new ≡ applied self.now text.old) }
        ensures err { OnErr result (text.new ≡ text.old) }
    {
        let (front, changes) = kept_in_front(self.steps().as_slice());
        let (changes, behind) = kept_behind(changes);
        let mut run = Vec::new(alloc);
        let mut left = text.runs(front);
        write_changes(&mut run, changes, &mut left)?;
        text.splice(alloc, front, text.len() - behind, run.as_slice())
    }

    /// Makes a text the text after the delta, in place: each insertion and each deletion costs a page.
    /// After want of memory the text is spent: it may have any characters.
    pub fn apply_in_place(&self, alloc: Global, text: &mut Text) -> Result<(), AllocError>
        requires { length text.old ≡ base_length self.now }
        ensures { OnOk result (text.new ≡ applied self.now text.old) }
    {
        let mut place = 0;
        for step in self.steps().as_slice() {
            place = change_step(alloc, text, place, step)?;
        }
        Ok(())
    }
}
