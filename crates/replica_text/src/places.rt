//! Where a new element stands in the full order.

ghost use Rattle.std.specs.Prelude.{◌≡◌, ◌≤◌, ◌++◌, ◌∷◌, length, take, drop};
ghost use Rattle.tt_base.specs.declared.elements.Element.{Element};
ghost use Rattle.replica_text.specs.Ids.{is_known};
ghost use Rattle.replica_text.specs.Ops.{MayBeParent};
ghost use Rattle.replica_text.specs.Placed.{passing, placed, Stops};

use tt_base::{ElemId, Elements};

/// The place directly behind the parent, or in front of all below the root.
fn behind_parent<E: Elements>(elements: &E, parent: &Option<ElemId>, id: &ElemId) -> usize
    requires { MayBeParent parent.now id.now (is_known (E.elements elements.now)) }
    ensures within { result ≤ length (E.elements elements.now) }
    ensures placed { (new : Element) → placed parent.now new (E.elements elements.now)
        ≡ take result (E.elements elements.now) ++ passing new (drop result (E.elements elements.now)) }
{
    let count = elements.len();
    match parent {
        None => 0,
        Some(parent) => match elements.place_of(parent) {
            Some(place) => {
                prove!(place < count);
                place + 1
            }
            None => unreachable!(),
        },
    }
}

/// The place behind the elements from `start` on that are greater than the id.
fn behind_greater<E: Elements>(elements: &E, start: usize, id: &ElemId) -> usize
    requires { start ≤ length (E.elements elements.now) }
    ensures within { result ≤ length (E.elements elements.now) }
    ensures passed { (new : Element) → new.id ≡ id.now → take start (E.elements elements.now) ++ passing new (drop start (E.elements elements.now))
        ≡ take result (E.elements elements.now) ++ (new ∷ drop result (E.elements elements.now)) }
    ensures stops { Stops id.now (drop result (E.elements elements.now)) }
{
    let count = elements.len();
    for place in start..count {
        if !id.is_before(&elements.at(place).id) {
            return place;
        }
    }
    count
}

/// The place of a new element.
pub(crate) fn new_place<E: Elements>(elements: &E, parent: &Option<ElemId>, id: &ElemId) -> usize
    requires { MayBeParent parent.now id.now (is_known (E.elements elements.now)) }
    ensures within { result ≤ length (E.elements elements.now) }
    ensures placed { (new : Element) → new.id ≡ id.now → placed parent.now new (E.elements elements.now)
        ≡ take result (E.elements elements.now) ++ (new ∷ drop result (E.elements elements.now)) }
    ensures stops { Stops id.now (drop result (E.elements elements.now)) }
{
    let start = behind_parent(elements, parent, id);
    behind_greater(elements, start, id)
}
