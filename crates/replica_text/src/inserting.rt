//! A run of new elements comes into the list.

ghost use Rattle.std.specs.Prelude.{◌≡◌, ◌+◌, ◌≤◌, ◌^◌, ◌++◌, ◌||◌, false, length, take, drop, OnOk, IfOk};
ghost use Rattle.replica_text.specs.Ids.{is_in_run, is_known};
ghost use Rattle.replica_text.specs.Ops.{IsRunKnown, MayInsert, with_run};
ghost use Rattle.replica_text.specs.Placed.{run_of};
ghost use Rattle.replica_text.specs.Joined.{Joins};

use crate::gap_deltas::inserted;
use crate::places::new_place;
use delta::Delta;
use std::alloc::{AllocError, Global};
use tt_base::{ElemId, Element, Elements, Text};

/// Inserts the elements of a run of characters, one behind the other.
fn insert_run<E: Elements>(
    alloc: Global,
    elements: &mut E,
    place: usize,
    first: &ElemId,
    chars: &[char],
) -> Result<(), AllocError>
    requires within { place ≤ length (E.elements elements.old) }
    requires new { IsRunKnown false first.now (length chars.now) (is_known (E.elements elements.old)) }
    requires fits { first.now.index + length chars.now ≤ 2 ^ 64 }
    ensures { OnOk result (E.elements elements.new
        ≡ take place (E.elements elements.old) ++ (run_of first.now chars.now ++ drop place (E.elements elements.old))) }
{
    let behind = elements.len() - place;
    for (count, ch) in chars.iter().enumerate() {
        let element = Element {
            id: ElemId {
                index: first.index + count as u64,
                ..*first
            },
            ch: *ch,
            alive: true,
        };
        let end = elements.len() - behind;
        elements.insert(alloc, end, element)?;
    }
    Ok(())
}

/// Joins an insertion: its run comes to its place, and its text to the gap there.
pub(crate) fn join_insert<E: Elements>(
    alloc: Global,
    elements: &mut E,
    first: &ElemId,
    parent: &Option<ElemId>,
    text: &Text,
) -> Result<Delta, AllocError>
    requires { MayInsert first.now parent.now (length text.now) (is_known (E.elements elements.old)) }
    ensures { IfOk result (Joins (with_run first.now parent.now text.now) (λ known id. is_in_run first.now (length text.now) id || known id)
        (E.elements elements.old) (E.elements elements.new)) }
{
    let place = new_place(elements, parent, first);
    let before = elements.alive_before(place);
    let behind = elements.alive() - before;
    let mut chars = Vec::new(alloc);
    text.append_to(&mut chars)?;
    insert_run(alloc, elements, place, first, chars.as_slice())?;
    inserted(alloc, before, text, behind)
}
