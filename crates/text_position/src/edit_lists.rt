//! The delta of a list of edits: that of the first edit, and then each further edit in the text reached,
//! composed one after the other.
//!
//! A position is that of the text which the edits before it leave, as in `contentChanges` of the Language
//! Server Protocol; the `TextEdit[]` of that protocol speaks of the old text alone. Where the protocol
//! moves a place that a text does not have to the end of its line, it is refused here.
//!
//! It is right since a composition applies as its parts in turn, so the delta so far leads to the text in
//! which the next edit is judged.
ghost use Rattle.std.specs.Prelude.{List, ℕ, ◌≡◌, ◌≤◌, length, Ok, Err, IfOk};
ghost use Rattle.tt_base.specs.Answers.{Gives, and_then};
ghost use Rattle.delta.specs.Cells.{base_length, result_length, applied, keeping};
ghost use Rattle.delta.specs.Marks.{composed};
ghost use Rattle.text_position.specs.Edits.{replacing, range_of, delta_of_edit, with_edits, delta_of_edits, IsBadAtOnce};
ghost use Rattle.text_position.specs.declared.faults.EditsFault.{EditsFault};

use crate::faults::EditsFault;
use crate::places::offset_of;
use delta::{Delta, DeltaBuilder, compose};
use std::alloc::{AllocError, Global};
use tt_base::{Text, TextEdit};

/// The delta that keeps all of a text of so many characters.
fn keep_all(alloc: Global, size: usize) -> Result<Delta, AllocError>
    ensures { IfOk result (λ delta. delta ≡ keeping size) }
{
    let mut built = DeltaBuilder::new(alloc)?;
    built.keep(alloc, size)?;
    let delta = built.finish(alloc)?;
    Ok(delta)
}

/// The delta on a text of so many characters that puts `replacement` in the place of those from
/// `start` up to `end`.
fn replacing(
    alloc: Global,
    size: usize,
    start: usize,
    end: usize,
    replacement: &Text,
) -> Result<Delta, AllocError>
    requires forward { start ≤ end }
    requires within { end ≤ size }
    ensures { IfOk result (λ delta. delta ≡ replacing size start end replacement.now) }
{
    let mut built = DeltaBuilder::new(alloc)?;
    built.keep(alloc, start)?;
    built.insert(alloc, replacement)?;
    built.delete(alloc, end - start)?;
    built.keep(alloc, size - end)?;
    let delta = built.finish(alloc)?;
    Ok(delta)
}

/// The places in the text of the edit with this index in its list.
fn range_of(index: usize, text: &Text, edit: &TextEdit) -> Result<(usize, usize), EditsFault>
    ensures range { result ≡ range_of index text.now edit.now }
    ensures forward { IfOk result (λ range. range.0 ≤ range.1) }
    ensures within { IfOk result (λ range. range.1 ≤ length text.now) }
{
    let Ok(start) = offset_of(text, edit.start) else {
        return Err(EditsFault::BadPosition(index));
    };
    let Ok(end) = offset_of(text, edit.end) else {
        return Err(EditsFault::BadPosition(index));
    };
    if start <= end {
        Ok((start, end))
    } else {
        Err(EditsFault::BackwardRange(index))
    }
}

/// The delta of the edit with this index in its list, on the text that it is for. The edit is judged
/// before any memory is taken.
fn delta_of_edit(
    alloc: Global,
    index: usize,
    text: &Text,
    edit: &TextEdit,
) -> Result<Delta, EditsFault>
    ensures gives { Gives EditsFault.Memory result (delta_of_edit index text.now edit.now) }
    ensures refused { (fault : EditsFault) → range_of index text.now edit.now ≡ Err fault → result ≡ Err fault }
    ensures base { IfOk result (λ delta. base_length delta ≡ length text.now) }
{
    let (start, end) = range_of(index, text, edit)?;
    let delta = replacing(alloc, text.len(), start, end, &edit.replacement)?;
    Ok(delta)
}

/// The delta so far and then the edit with this index, and the text that is reached, made the one
/// behind the edit in place.
fn then_edit(
    alloc: Global,
    index: usize,
    reached: &mut Text,
    so_far: &Delta,
    edit: &TextEdit,
) -> Result<Delta, EditsFault>
    requires { length reached.old ≡ result_length so_far.now }
    ensures gives { Gives EditsFault.Memory result (and_then (delta_of_edit index reached.old edit.now) (λ d. Ok (composed so_far.now d))) }
    ensures reached { IfOk result (λ delta. (text : List ℕ) → length text ≡ base_length so_far.now → reached.old ≡ applied so_far.now text → reached.new ≡ applied delta text) }
    ensures base { IfOk result (λ delta. base_length delta ≡ base_length so_far.now) }
{
    let next = delta_of_edit(alloc, index, &*reached, edit)?;
    let delta = compose(alloc, so_far, &next)?;
    next.apply_in_place(alloc, reached)?;
    Ok(delta)
}

/// The delta so far and then the edits behind the first of a list. The text is copied once, and the copy
/// is changed in place.
fn then_edits(
    alloc: Global,
    text: &Text,
    so_far: Delta,
    edits: &[TextEdit],
) -> Result<Delta, EditsFault>
    requires { length text.now ≡ base_length so_far }
    ensures { Gives EditsFault.Memory result (with_edits 1 text.now so_far edits.now) }
{
    if edits.is_empty() {
        return Ok(so_far);
    }
    let mut reached = text.copied(alloc)?;
    so_far.apply_in_place(alloc, &mut reached)?;
    let mut delta = so_far;
    for (index, edit) in edits.iter().enumerate() {
        delta = then_edit(alloc, index + 1, &mut reached, &delta, edit)?;
    }
    Ok(delta)
}

/// The delta of a list of edits, which apply one after the other, each in the text that those before
/// it leave.
///
/// The first edit with a start or an end that its text does not have is `BadPosition`, and one whose
/// end is before its start `BackwardRange`, whichever edit comes first; each has the edit's index.
/// Where the first edit of the list is bad, just this is told. `Memory` comes at any other. One edit
/// alone makes no copy of the text, and more edits together make one, which is changed in place.
pub fn from_edits(alloc: Global, text: &Text, edits: &[TextEdit]) -> Result<Delta, EditsFault>
    // A first edit that is bad is told whether or not there is memory.
    ensures at_once { (fault : EditsFault) → IsBadAtOnce text.now edits.now fault → result ≡ Err fault }
    // The delta or the first bad edit, unless memory runs out.
    ensures gives { Gives EditsFault.Memory result (delta_of_edits text.now edits.now) }
{
    let Some((first, rest)) = edits.split_first() else {
        let delta = keep_all(alloc, text.len())?;
        return Ok(delta);
    };
    let delta = delta_of_edit(alloc, 0, text, first)?;
    then_edits(alloc, text, delta, rest)
}
