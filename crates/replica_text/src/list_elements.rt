ghost use Rattle.std.specs.Prelude.{◌≡◌, ◌<◌, Some, MatchOption, option_map, slice_get, take, true};
ghost use Rattle.std.specs.List.{count_by};
ghost use Rattle.tt_base.specs.Elements.{is_alive, id_at, IsNew, AreDistinct, AreDistinct-prop, killed};

use std::alloc::{AllocError, Global};
use tt_base::{ElemId, Element, Elements};

/// The elements of a text in one vector.
#[derive(Debug, Drop)]
pub struct ListElements {
    items: Vec<Element>,
    ghost distinct: { AreDistinct items.items } by { AreDistinct-prop items.items },
}

/// The place of the element with the id.
fn place_in(items: &[Element], id: &ElemId) -> Option<usize>
    ensures { MatchOption result (IsNew id.now items.now) (λ place. id_at items.now place ≡ Some id.now) }
{
    for (place, element) in items.iter().enumerate() {
        if element.id.equals(id) {
            return Some(place);
        }
    }
    None
}

/// The place of the visible element with `k` visible ones before it.
fn nth_in(items: &[Element], k: usize) -> usize
    requires { k < count_by is_alive items.now }
    ensures alive { option_map is_alive (slice_get items.now result) ≡ Some true }
    ensures before { count_by is_alive (take result items.now) ≡ k }
{
    let mut left = k;
    for (place, element) in items.iter().enumerate() {
        if element.alive {
            if left == 0 {
                return place;
            }
            left -= 1;
        }
    }
    unreachable!()
}

impl Elements for ListElements {
    ghost elements = { λ list. list.items.items };

    ghost distinct = { λ list. list.distinct };

    fn empty(alloc: Global) -> Result<ListElements, AllocError> {
        Ok(ListElements {
            items: Vec::new(alloc),
        })
    }

    fn len(&self) -> usize {
        self.items.len()
    }

    fn alive(&self) -> usize {
        self.items.iter().filter(|element| element.alive).count()
    }

    fn at(&self, place: usize) -> Element {
        self.items[place]
    }

    fn place_of(&self, id: &ElemId) -> Option<usize> {
        place_in(self.items.as_slice(), id)
    }

    fn alive_before(&self, place: usize) -> usize {
        self.items[..place]
            .iter()
            .filter(|element| element.alive)
            .count()
    }

    fn nth_alive(&self, k: usize) -> usize {
        nth_in(self.items.as_slice(), k)
    }

    fn insert(&mut self, _alloc: Global, place: usize, element: Element) -> Result<(), AllocError> {
        self.items.insert(place, element)?;
        Ok(())
    }

    fn kill(&mut self, place: usize) {
        self.items[place].alive = false;
    }
}
