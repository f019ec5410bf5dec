//! Elements become tombstones.

ghost use Rattle.std.specs.Prelude.{◌≡◌, ◌+◌, ◌≤◌, ◌^◌, true, IfOk};
ghost use Rattle.replica_text.specs.Ids.{is_known};
ghost use Rattle.replica_text.specs.Tree.{without};
ghost use Rattle.replica_text.specs.Ops.{MayDelete, without_run};
ghost use Rattle.replica_text.specs.Joined.{Joins};

use crate::gap_deltas::{deleted, unchanged};
use delta::{Delta, compose};
use std::alloc::{AllocError, Global};
use tt_base::{ElemId, Elements};

/// Makes one element a tombstone.
fn join_delete_one<E: Elements>(
    alloc: Global,
    elements: &mut E,
    id: &ElemId,
) -> Result<Delta, AllocError>
    requires { is_known (E.elements elements.old) id.now ≡ true }
    ensures { IfOk result (Joins (without id.now) (λ known. known) (E.elements elements.old) (E.elements elements.new)) }
{
    let Some(place) = elements.place_of(id) else {
        unreachable!();
    };
    let count = elements.alive();
    if !elements.at(place).alive {
        return unchanged(alloc, count);
    }
    let before = elements.alive_before(place);
    elements.kill(place);
    deleted(alloc, before, count - before - 1)
}

/// Joins a deletion, by halves.
pub(crate) fn join_delete<E: Elements>(
    alloc: Global,
    elements: &mut E,
    first: &ElemId,
    count: u64,
) -> Result<Delta, AllocError>
    requires { MayDelete first.now count (is_known (E.elements elements.old)) }
    ensures { IfOk result (Joins (without_run first.now count) (λ known. known) (E.elements elements.old) (E.elements elements.new)) }
{
    match count {
        0 => unchanged(alloc, elements.alive()),
        1 => join_delete_one(alloc, elements, first),
        _ => {
            let half = count / 2;
            let front = join_delete(alloc, elements, first, half)?;
            let middle = ElemId {
                index: first.index + half,
                ..*first
            };
            let back = join_delete(alloc, elements, &middle, count - half)?;
            compose(alloc, &front, &back)
        }
    }
}
