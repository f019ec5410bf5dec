//! The operations of a made change.

ghost use Rattle.std.specs.Prelude.{◌≡◌, ℕ, ◌+◌, ◌^◌, ◌<◌, ◌≤◌, ◌++◌, ◌∷◌, [], Some, None, length, take, drop, slice_get, IfOk, OnOk};
ghost use Rattle.std.specs.List.{count_by};
ghost use Rattle.tt_base.specs.Elements.{is_alive};
ghost use Rattle.delta.specs.Steps.{cells_of, step_base, HasContent, IsCanonical};
ghost use Rattle.delta.specs.Cells.{base_length};
ghost use Rattle.replica_text.specs.Ids.{same, shifted};
ghost use Rattle.replica_text.specs.Made.{visible_ids, deletions, made_ops, inserted_length};
ghost use Rattle.replica_text.specs.Making.{left_at, step_ops, step_inserted, DeletionsFit};

use delta::DeltaStep;
use std::alloc::{AllocError, Global};
use tt_base::{ElemId, Elements, TextOp};

/// The id of the visible element with so many visible ones before it.
fn visible_id<E: Elements>(elements: &E, place: usize) -> ElemId
    requires { place < count_by is_alive (E.elements elements.now) }
    ensures { slice_get (visible_ids (E.elements elements.now)) place ≡ Some result }
{
    elements.at(elements.nth_alive(place)).id
}

/// The visible element before a gap.
fn left_of<E: Elements>(elements: &E, gap: usize) -> Option<ElemId>
    requires { gap ≤ count_by is_alive (E.elements elements.now) }
    ensures { result ≡ left_at (visible_ids (E.elements elements.now)) gap }
{
    if gap == 0 {
        None
    } else {
        Some(visible_id(elements, gap - 1))
    }
}

/// Whether the id stands so many behind the first of a run.
fn goes_on(first: &ElemId, count: u64, id: &ElemId) -> bool
    ensures { result ≡ same (shifted first.now count) id.now }
{
    match id.index.checked_sub(count) {
        Some(index) => first.equals(&ElemId { index, ..*id }),
        None => false,
    }
}

/// Adds the deletion of a run of visible elements, in as few operations as ids that go on allow.
fn push_deletions<E: Elements>(
    elements: &E,
    ops: &mut Vec<TextOp>,
    start: usize,
    size: usize,
) -> Result<(), AllocError>
    requires some { 0 < size }
    requires within { start + size ≤ count_by is_alive (E.elements elements.now) }
    ensures ops { OnOk result (ops.new.items ≡ ops.old.items ++ deletions (take size (drop start (visible_ids (E.elements elements.now))))) }
    ensures fit { OnOk result (DeletionsFit ops.old.items → DeletionsFit ops.new.items) }
{
    let _visible = elements.alive();
    let mut first = visible_id(elements, start);
    let mut count = 1;
    for place in start + 1..start + size {
        let id = visible_id(elements, place);
        if goes_on(&first, count, &id) {
            count += 1;
        } else {
            ops.push(TextOp::Delete { first, count })?;
            first = id;
            count = 1;
        }
    }
    ops.push(TextOp::Delete { first, count })?;
    Ok(())
}

/// How far the operations of a change are made.
#[derive(Clone, Copy, Debug)]
struct Progress {
    /// The number of visible characters that are passed.
    place: usize,
    /// The id of the next new character.
    next: ElemId,
}

/// Adds the operations of a step, and gives how far they are made then.
fn push_step<E: Elements>(
    alloc: Global,
    elements: &E,
    ops: &mut Vec<TextOp>,
    at: Progress,
    step: &DeltaStep,
) -> Result<Progress, AllocError>
    requires content { HasContent step.now }
    requires within { at.place + step_base step.now ≤ count_by is_alive (E.elements elements.now) }
    requires fits { at.next.index + step_inserted step.now < 2 ^ 64 }
    ensures ops { OnOk result (ops.new.items ≡ ops.old.items ++ step_ops step.now (visible_ids (E.elements elements.now)) at.place at.next) }
    ensures fit { OnOk result (DeletionsFit ops.old.items → DeletionsFit ops.new.items) }
    ensures place { IfOk result (λ behind. behind.place ≡ at.place + step_base step.now) }
    ensures next { IfOk result (λ behind. behind.next ≡ shifted at.next (step_inserted step.now)) }
{
    let _visible = elements.alive();
    match step {
        DeltaStep::Keep(n) => Ok(Progress {
            place: at.place + n,
            ..at
        }),
        DeltaStep::Insert(text) => {
            let index = at.next.index + text.len() as u64;
            ops.push(TextOp::Insert {
                first: at.next,
                parent: left_of(elements, at.place),
                text: text.copied(alloc)?,
            })?;
            Ok(Progress {
                next: ElemId { index, ..at.next },
                ..at
            })
        }
        DeltaStep::Delete(n) => {
            push_deletions(elements, ops, at.place, *n)?;
            Ok(Progress {
                place: at.place + n,
                ..at
            })
        }
    }
}

/// The operations of a change that the steps of a delta are made to, whose new characters have the ids from
/// `next` on.
pub(crate) fn ops_of_steps<E: Elements>(
    alloc: Global,
    elements: &E,
    steps: &[DeltaStep],
    next: ElemId,
) -> Result<Vec<TextOp>, AllocError>
    requires canonical { IsCanonical steps.now }
    requires base { base_length (cells_of steps.now) ≡ count_by is_alive (E.elements elements.now) }
    requires fits { next.index + inserted_length (cells_of steps.now) < 2 ^ 64 }
    ensures ops { IfOk result (λ ops. ops.items ≡ made_ops (E.elements elements.now) (cells_of steps.now) next) }
    ensures fit { IfOk result (λ ops. DeletionsFit ops.items) }
{
    let mut ops = Vec::new(alloc);
    let mut at = Progress { place: 0, next };
    for step in steps {
        at = push_step(alloc, elements, &mut ops, at, step)?;
    }
    Ok(ops)
}
