ghost use Rattle.std.specs.Prelude.{◌≡◌, ◌||◌, [], ◌∷◌, map, IfOk, OnOk};
ghost use Rattle.std.specs.List.Sorted.{IsStrictlySortedBy};
ghost use Rattle.std.specs.Ordering.{is_lt};
ghost use Rattle.change_graph.specs.Walk.{place_cmp, has_place, is_place_of};
ghost use Rattle.change_graph.specs.declared.places.Place as spec;

use crate::nodes::Nodes;
use std::alloc::{AllocError, Global};
use std::collections::BTreeSet;
use tt_base::{List, Name};

/// A change where it stands in the order of depths: behind all that it depends on.
#[derive(Clone, Copy, Debug, PartialEq, Eq, PartialOrd, Ord)]
pub struct Place {
    pub depth: u64,
    pub name: Name,
}

impl Place {
    /// Whether it stands before the other one.
    pub fn is_before(&self, other: &Place) -> bool
        ensures { result ≡ is_lt (place_cmp self.now other.now) }
    {
        self.cmp(other).is_lt()
    }
}

/// Puts the place of the name into the set, where it is held.
fn enter_one(nodes: &Nodes, name: &Name, places: &mut BTreeSet<Place>) -> Result<(), AllocError>
    ensures { OnOk result ((place : spec.Place) → has_place places.new.keys place
        ≡ (has_place places.old.keys place || is_place_of nodes.now (name.now ∷ []) place)) }
{
    match nodes.depth(name) {
        Some(depth) => {
            places.insert(Place { depth, name: *name })?;
            Ok(())
        }
        None => Ok(()),
    }
}

/// Puts the places of the held ones of the names into the set.
pub fn enter(nodes: &Nodes, names: &[Name], places: &mut BTreeSet<Place>) -> Result<(), AllocError>
    ensures { OnOk result ((place : spec.Place) → has_place places.new.keys place
        ≡ (has_place places.old.keys place || is_place_of nodes.now names.now place)) }
{
    for name in names {
        enter_one(nodes, name, places)?;
    }
    Ok(())
}

/// The names of the places, in order.
pub fn names_of(alloc: Global, places: &BTreeSet<Place>) -> Result<List<Name>, AllocError>
    ensures names { IfOk result (λ list. list ≡ map (λ place. place.name) places.now.keys) }
    ensures rising { IsStrictlySortedBy place_cmp places.now.keys }
{
    let mut names = Vec::new(alloc);
    for place in places.iter() {
        names.push(place.name)?;
    }
    Ok(List::from_vec(names))
}
