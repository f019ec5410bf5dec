//! The characters of a text as a history keeps them: each with its id, the deleted ones as tombstones.

ghost use Rattle.std.specs.Prelude.{◌≡◌, ◌<◌, ◌≤◌, true, List, [], length, take, slice_get, option_map, Some, MatchOption, IfOk, OnOk, OnErr};
ghost use Rattle.std.specs.List.{insert, count_by};
ghost use Rattle.tt_base.specs.Elements.{is_alive, id_at, IsNew, AreDistinct, killed};
ghost use Rattle.tt_base.specs.declared.elements.Element.{Element};

use crate::ids::ElemId;
use std::alloc::{AllocError, Global};

/// A character of a text, which one insertion brought.
#[derive(Clone, Copy, Debug, PartialEq, Eq)]
pub struct Element {
    /// What names it. No other element has this id.
    pub id: ElemId,
    pub ch: char,
    /// Whether it is visible. A deleted one is kept as a tombstone, behind which others may stand.
    pub alive: bool,
}

/// The elements of a text in order, of which no two have one id.
pub trait Elements: Drop {
    /// The elements, in order.
    ghost elements: { Self → List Element };

    /// The list with no elements.
    fn empty(alloc: Global) -> Result<Self, AllocError>
        ensures { IfOk result (λ list. elements list ≡ []) };

    /// The number of elements, the tombstones counted.
    fn len(&self) -> usize
        ensures { result ≡ length (elements self.now) };

    /// The number of elements that are visible.
    fn alive(&self) -> usize
        ensures { result ≡ count_by is_alive (elements self.now) };

    /// The element at `place`, counted from 0.
    fn at(&self, place: usize) -> Element
        requires { place < length (elements self.now) }
        ensures { slice_get (elements self.now) place ≡ Some result };

    /// The place of the element with the id, and `None` exactly where no element has it.
    fn place_of(&self, id: &ElemId) -> Option<usize>
        ensures { MatchOption result (IsNew id.now (elements self.now)) (λ place. id_at (elements self.now) place ≡ Some id.now) };

    /// How many elements before a place are visible.
    fn alive_before(&self, place: usize) -> usize
        requires { place ≤ length (elements self.now) }
        ensures { result ≡ count_by is_alive (take place (elements self.now)) };

    /// The place of the visible element that has `k` visible ones before it.
    fn nth_alive(&self, k: usize) -> usize
        requires { k < count_by is_alive (elements self.now) }
        ensures alive { option_map is_alive (slice_get (elements self.now) result) ≡ Some true }
        ensures before { count_by is_alive (take result (elements self.now)) ≡ k };

    /// Inserts an element before the one at `place`, or at the end. After want of memory the list is as
    /// before.
    fn insert(&mut self, alloc: Global, place: usize, element: Element) -> Result<(), AllocError>
        requires within { place ≤ length (elements self.old) }
        requires new { IsNew element.id (elements self.old) }
        ensures ok { OnOk result (elements self.new ≡ insert (elements self.old) place element) }
        ensures err { OnErr result (elements self.new ≡ elements self.old) };

    /// Makes the element at `place` a tombstone. One that is a tombstone already stays one.
    fn kill(&mut self, place: usize)
        requires { place < length (elements self.old) }
        ensures { elements self.new ≡ killed (elements self.old) place };

    ghost distinct: { (list : Self) → AreDistinct (elements list) };
}
