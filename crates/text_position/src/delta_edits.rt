ghost use Rattle.std.specs.Prelude.{◌≡◌, ◌+◌, ◌≤◌, ◌++◌, [], ◌∷◌, length, map, Ok, IfOk, OnOk};
ghost use Rattle.delta.specs.Cells.{base_length};
ghost use Rattle.delta.specs.Steps.{step_base};
ghost use Rattle.text_position.specs.Edits.{delta_of_edits};
ghost use Rattle.text_position.specs.Changes.{edit_for, edits_of, AreApart};
ghost use Rattle.text_position.specs.Writing.{change_before, waiting_behind, change_at_end};

use crate::places::position_of;
use delta::{Delta, DeltaStep};
use std::alloc::{AllocError, Global};
use tt_base::{List, Text, TextEdit};

/// A gap of the old text that the writing of edits has come to.
#[derive(Clone, Copy)]
struct Gap<'a> {
    /// The number of characters before the gap.
    place: usize,
    /// The text that is inserted there, which no edit has yet.
    waiting: &'a Text,
}

/// Adds the edit that puts `replacement` in the place of the characters from `start` up to `end`.
fn push_edit(
    alloc: Global,
    text: &Text,
    edits: &mut Vec<TextEdit>,
    start: usize,
    end: usize,
    replacement: &Text,
) -> Result<(), AllocError>
    requires order { start ≤ end }
    requires within { end ≤ length text.now }
    ensures { OnOk result (edits.new.items ≡ edits.old.items ++ edit_for text.now (record { start = start; end = end; text = replacement.now }) ∷ []) }
{
    let replacement = replacement.copied(alloc)?;
    edits.push(TextEdit {
        start: position_of(text, start),
        end: position_of(text, end),
        replacement,
    })?;
    Ok(())
}

/// Writes the edit of the text that waits at a gap behind which the next character is kept, or none is
/// left.
fn push_waiting(
    alloc: Global,
    text: &Text,
    gap: &Gap,
    edits: &mut Vec<TextEdit>,
) -> Result<(), AllocError>
    requires { gap.now.place ≤ length text.now }
    ensures { OnOk result (edits.new.items ≡ edits.old.items ++ map (edit_for text.now) (change_at_end gap.now.place gap.now.waiting.now)) }
{
    if !gap.waiting.is_empty() {
        push_edit(alloc, text, edits, gap.place, gap.place, gap.waiting)?;
    }
    Ok(())
}

/// Writes what a step of the delta changes at a gap, and gives the gap behind the step. `none` is the
/// empty text.
fn write_step<'a>(
    alloc: Global,
    text: &Text,
    none: &'a Text,
    gap: Gap<'a>,
    step: &'a DeltaStep,
    edits: &mut Vec<TextEdit>,
) -> Result<Gap<'a>, AllocError>
    requires within { gap.place + step_base step.now ≤ length text.now }
    requires none { none.now ≡ [] }
    ensures edits { OnOk result (edits.new.items ≡ edits.old.items ++ map (edit_for text.now) (change_before gap.entry.place gap.entry.waiting.now step.now)) }
    ensures place { IfOk result (λ behind. behind.place ≡ gap.entry.place + step_base step.now) }
    ensures waiting { IfOk result (λ behind. behind.waiting.now ≡ waiting_behind step.now) }
{
    let _length = text.len();
    match step {
        DeltaStep::Keep(n) => {
            push_waiting(alloc, text, &gap, edits)?;
            Ok(Gap {
                place: gap.place + n,
                waiting: none,
            })
        }
        DeltaStep::Insert(inserted) => Ok(Gap {
            waiting: inserted,
            ..gap
        }),
        DeltaStep::Delete(n) => {
            push_edit(alloc, text, edits, gap.place, gap.place + n, gap.waiting)?;
            Ok(Gap {
                place: gap.place + n,
                waiting: none,
            })
        }
    }
}

/// The edits that a delta is on a text: one for each gap that has an insertion or begins a run of
/// deleted characters, whose range is that run and whose replacement is the insertion.
///
/// They stand from the back of the text to its front, with positions in the old text, so they are the
/// same edits whether they apply at once or one after the other. `from_edits` gives their delta back.
pub fn to_edits(alloc: Global, text: &Text, d: &Delta) -> Result<List<TextEdit>, AllocError>
    requires { base_length d.now ≡ length text.now }
    ensures edits { IfOk result (λ edits. edits ≡ edits_of text.now d.now) }
    ensures apart { IfOk result (λ edits. AreApart text.now (length text.now + 1) edits) }
    ensures round_trip { IfOk result (λ edits. delta_of_edits text.now edits ≡ Ok d.now) }
{
    let none = Text::empty(alloc)?;
    let mut edits = Vec::new(alloc);
    let mut gap = Gap {
        place: 0,
        waiting: &none,
    };
    for step in d.steps().as_slice() {
        gap = write_step(alloc, text, &none, gap, step, &mut edits)?;
    }
    push_waiting(alloc, text, &gap, &mut edits)?;
    edits.reverse();
    Ok(List::from_vec(edits))
}
