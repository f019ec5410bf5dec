//! A delta carried past another on the same text, in one walk over the steps of both: what both cover
//! is handled run by run, and a text of either side where it stands.
//!
//! The rule is the inclusion transformation of Sun, Jia, Zhang, Yang and Chen (1998). That the daemon's
//! text stands before the editor's at one gap is this project's own, and so is the normal form. One walk
//! serves both sides, so the order of two texts stands in one place.
//!
//! It is right since each step leaves what is built, joined with the carrying of what is left of both,
//! as it was (`Passes`); at the end nothing is left.
ghost use Rattle.std.specs.Prelude.{◌≡◌, ◌+◌, ◌-◌, ◌^◌, ◌<◌, ◌≤◌, true, false, length, IfOk, OnOk};
ghost use Rattle.delta.specs.Cells.{base_length, joined, normal, nothing};
ghost use Rattle.delta.specs.Steps.{cells_of, step_base};
ghost use Rattle.delta.specs.Reading.{size_of};
ghost use Rattle.transform.specs.Carried.{carried, characters, covers_if, daemon_text, editor_text, after_editor, after_daemon};
ghost use Rattle.transform.specs.Gaps.{editor_by_gaps, daemon_by_gaps};
ghost use Rattle.transform.specs.Walk.{room, step_room, Passes, PassesStep};

use crate::sides::Side;
use delta::{Delta, DeltaBuilder, DeltaStep, NextStep, StepReader};
use std::alloc::{AllocError, Global};
use tt_base::Text;

/// Keeps or deletes the next characters of the base, where they are there.
fn cover_if(
    alloc: Global,
    there: bool,
    kept: bool,
    count: usize,
    built: &mut DeltaBuilder,
) -> Result<(), AllocError>
    requires { base_length built.old + base_length (covers_if there kept count nothing) < 2 ^ 64 }
    ensures { OnOk result (built.new ≡ joined built.old (covers_if there kept count nothing)) }
{
    if !there {
        Ok(())
    } else if kept {
        built.keep(alloc, count)
    } else {
        built.delete(alloc, count)
    }
}

/// Handles characters of the common base.
fn pass_characters(
    alloc: Global,
    side: Side,
    daemon_kept: bool,
    editor_kept: bool,
    count: usize,
    built: &mut DeltaBuilder,
) -> Result<(), AllocError>
    requires { base_length built.old + base_length (characters side daemon_kept editor_kept count nothing) < 2 ^ 64 }
    ensures { OnOk result (built.new ≡ joined built.old (characters side daemon_kept editor_kept count nothing)) }
{
    match side {
        Side::Editor => cover_if(alloc, daemon_kept, editor_kept, count, built),
        Side::Daemon => cover_if(alloc, editor_kept, daemon_kept, count, built),
    }
}

/// Handles a text that the editor inserts.
fn pass_editor_text(
    alloc: Global,
    side: Side,
    text: Text,
    built: &mut DeltaBuilder,
) -> Result<(), AllocError>
    requires { base_length built.old + base_length (editor_text side text nothing) < 2 ^ 64 }
    ensures { OnOk result (built.new ≡ joined built.old (editor_text side text nothing)) }
{
    match side {
        Side::Editor => built.insert_text(alloc, text),
        Side::Daemon => built.keep(alloc, text.len()),
    }
}

/// Handles a text that the daemon inserts.
fn pass_daemon_text(
    alloc: Global,
    side: Side,
    text: &Text,
    built: &mut DeltaBuilder,
) -> Result<(), AllocError>
    requires { base_length built.old + base_length (daemon_text side text.now nothing) < 2 ^ 64 }
    ensures { OnOk result (built.new ≡ joined built.old (daemon_text side text.now nothing)) }
{
    match side {
        Side::Editor => built.keep(alloc, text.len()),
        Side::Daemon => built.insert(alloc, text),
    }
}

/// Handles the next step of the editor's delta under a run of the daemon's, which keeps or deletes
/// at most `most` characters there. Answers how many of these were handled.
fn pass_part(
    alloc: Global,
    side: Side,
    kept: bool,
    most: usize,
    editor: &mut StepReader,
    built: &mut DeltaBuilder,
) -> Result<usize, AllocError>
    requires some { 0 < most }
    requires long { most ≤ base_length (cells_of editor.old) }
    requires fits { base_length built.old + room side kept most (cells_of editor.old) < 2 ^ 64 }
    ensures most { IfOk result (λ taken. taken ≤ most) }
    ensures passes { IfOk result (λ taken. Passes side kept most (most - taken) built.old built.new (cells_of editor.old) (cells_of editor.new)) }
    ensures nearer { OnOk result (size_of editor.new < size_of editor.old) }
{
    match editor.next() {
        NextStep::Keep(n) => {
            let taken = n.min(most);
            pass_characters(alloc, side, kept, true, taken, built)?;
            editor.advance(taken);
            Ok(taken)
        }
        NextStep::Insert(n) => {
            let text = editor.text(alloc, n)?;
            pass_editor_text(alloc, side, text, built)?;
            editor.advance(n);
            Ok(0)
        }
        NextStep::Delete(n) => {
            let taken = n.min(most);
            pass_characters(alloc, side, kept, false, taken, built)?;
            editor.advance(taken);
            Ok(taken)
        }
        NextStep::End => unreachable!(),
    }
}

/// Handles a run of the daemon's delta, which keeps or deletes `count` characters.
fn pass_run(
    alloc: Global,
    side: Side,
    kept: bool,
    count: usize,
    editor: &mut StepReader,
    built: &mut DeltaBuilder,
) -> Result<(), AllocError>
    requires long { count ≤ base_length (cells_of editor.old) }
    requires fits { base_length built.old + room side kept count (cells_of editor.old) < 2 ^ 64 }
    ensures { OnOk result (Passes side kept count 0 built.old built.new (cells_of editor.old) (cells_of editor.new)) }
{
    let mut left = count;
    while left > 0 {
        left -= pass_part(alloc, side, kept, left, editor, built)?;
    }
    Ok(())
}

/// Handles a step of the daemon's delta.
fn pass_step(
    alloc: Global,
    side: Side,
    step: &DeltaStep,
    editor: &mut StepReader,
    built: &mut DeltaBuilder,
) -> Result<(), AllocError>
    requires long { step_base step.now ≤ base_length (cells_of editor.old) }
    requires fits { base_length built.old + step_room side step.now (cells_of editor.old) < 2 ^ 64 }
    ensures { OnOk result (PassesStep side step.now built.old built.new (cells_of editor.old) (cells_of editor.new)) }
{
    match step {
        DeltaStep::Keep(n) => pass_run(alloc, side, true, *n, editor, built),
        DeltaStep::Insert(text) => pass_daemon_text(alloc, side, text, built),
        DeltaStep::Delete(n) => pass_run(alloc, side, false, *n, editor, built),
    }
}

/// Handles the text that the editor inserts behind all that the daemon's delta covers.
fn pass_end(
    alloc: Global,
    side: Side,
    editor: &StepReader,
    built: &mut DeltaBuilder,
) -> Result<(), AllocError>
    requires short { base_length (cells_of editor.now) ≡ 0 }
    requires fits { base_length built.old + room side false 0 (cells_of editor.now) < 2 ^ 64 }
    ensures { OnOk result (built.new ≡ joined built.old (carried side nothing (cells_of editor.now))) }
{
    match editor.next() {
        NextStep::Insert(n) => {
            let last = editor.text(alloc, n)?;
            pass_editor_text(alloc, side, last, built)
        }
        _ => Ok(()),
    }
}

/// The delta of one side, carried past that of the other.
fn pass(alloc: Global, side: Side, daemon: &Delta, editor: &Delta) -> Result<Delta, AllocError>
    requires { base_length daemon.now ≡ base_length editor.now }
    ensures { IfOk result (λ delta. delta ≡ normal (carried side daemon.now editor.now)) }
{
    let mut built = DeltaBuilder::new(alloc)?;
    let mut ahead = StepReader::new(editor);
    for step in daemon.steps().as_slice() {
        pass_step(alloc, side, step, &mut ahead, &mut built)?;
    }
    pass_end(alloc, side, &ahead, &mut built)?;
    let delta = built.finish(alloc)?;
    Ok(delta)
}

/// The editor's delta `p`, carried past the daemon's delta `q` on the same text.
pub fn pass_editor(alloc: Global, p: &Delta, q: &Delta) -> Result<Delta, AllocError>
    requires { base_length p.now ≡ base_length q.now }
    // Cell by cell.
    ensures cells { IfOk result (λ carried. carried ≡ after_editor p.now q.now) }
    // By the gap formulas: a gap moves by what `q` keeps before it and inserts up to it.
    ensures gaps { IfOk result (λ carried. carried ≡ editor_by_gaps p.now q.now) }
{
    let carried = pass(alloc, Side::Editor, q, p)?;
    Ok(carried)
}

/// The daemon's delta `q`, carried past the editor's delta `p` on the same text.
pub fn pass_daemon(alloc: Global, q: &Delta, p: &Delta) -> Result<Delta, AllocError>
    requires { base_length q.now ≡ base_length p.now }
    // Cell by cell.
    ensures cells { IfOk result (λ carried. carried ≡ after_daemon q.now p.now) }
    // By the gap formulas: a gap moves by what `p` keeps and inserts before it, and a character also
    // by what `p` inserts at the gap before it.
    ensures gaps { IfOk result (λ carried. carried ≡ daemon_by_gaps q.now p.now) }
{
    let carried = pass(alloc, Side::Daemon, q, p)?;
    Ok(carried)
}
