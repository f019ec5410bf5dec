//! Which changes some names lead to and others do not.
//!
//! A walk goes down from the deepest change that is left, each change once. What the others lead to is walked only as far
//! as it can meet what is still wanted: where nothing is wanted any more, the walk ends.
ghost use Rattle.std.specs.Prelude.{◌≡◌, ◌<◌, ◌↔◌, true, ◌++◌, [], List, IsTrue, MatchOption, false, IfOk, OnOk};
ghost use Rattle.tt_base.specs.declared.ids.Name as names;
ghost use Rattle.std.specs.Ordering.{is_lt};
ghost use Rattle.change_graph.specs.declared.places.Place as spec;
ghost use Rattle.change_graph.specs.Closure.{IsInClosure};
ghost use Rattle.change_graph.specs.Nodes.{IsDeep};
ghost use Rattle.change_graph.specs.Walk.{has_place, place_in, is_below_top, IsUpTo, IsLast, IsWalk, IsWalked, place_cmp, work};

use crate::nodes::Nodes;
use crate::places::{Place, enter};
use std::alloc::{AllocError, Global};
use std::cmp::Ordering;
use std::collections::BTreeSet;
use std::marker::Model;
use tt_base::Name;

/// The last of the places.
fn last_of(places: &BTreeSet<Place>) -> Option<Place>
    ensures { MatchOption result (places.now.keys ≡ []) (IsLast places.now.keys) }
{
    places.last().copied()
}

/// Takes the top place out of the set, and puts those of its dependencies in.
fn descend(nodes: &Nodes, places: &mut BTreeSet<Place>, top: Place) -> Result<(), AllocError>
    ensures { OnOk result ((place : spec.Place) → has_place places.new.keys place ≡ is_below_top nodes.now places.old.keys top place) }
{
    places.remove(&top);
    match nodes.change(&top.name) {
        Some(change) => enter(nodes, change.deps(), places),
        None => Ok(()),
    }
}

/// Whether the names lead to the held change at this place.
pub fn reaches(
    alloc: Global,
    nodes: &Nodes,
    names: &[Name],
    target: Place,
) -> Result<bool, AllocError>
    requires deep { IsDeep nodes.now }
    requires there { target ≡ place_in nodes.now target.name }
    ensures { IfOk result (λ yes. IsTrue yes ↔ IsInClosure nodes.now.history names.now target.name) }
{
    let mut places = BTreeSet::new(alloc);
    enter(nodes, names, &mut places)?;
    while let Some(top) = last_of(&places) {
        match target.cmp(&top) {
            Ordering::Less => descend(nodes, &mut places, top)?,
            Ordering::Equal => return Ok(true),
            Ordering::Greater => return Ok(false),
        }
    }
    Ok(false)
}

/// What is still to be walked, from what is needed and from what is had, and what was found.
#[derive(Drop)]
struct Walk {
    wanted: BTreeSet<Place>,
    covered: BTreeSet<Place>,
    found: BTreeSet<Place>,
}

impl Model for Walk {
    ghost use Rattle.change_graph.specs.Walk.{WalkView};

    ghost Value = { WalkView };

    ghost view = { λ w. record { wanted = w.wanted.keys; covered = w.covered.keys; found = w.found.keys } };
}

impl Walk {
    /// The walk before its first step.
    fn begin(alloc: Global, nodes: &Nodes, need: &[Name], have: &[Name]) -> Result<Walk, AllocError>
        requires { IsDeep nodes.now }
        ensures { IfOk result (IsWalk nodes.now need.now have.now) }
    {
        let mut wanted = BTreeSet::new(alloc);
        let mut covered = BTreeSet::new(alloc);
        enter(nodes, need, &mut wanted)?;
        enter(nodes, have, &mut covered)?;
        Ok(Walk {
            wanted,
            covered,
            found: BTreeSet::new(alloc),
        })
    }

    /// The last place that is wanted.
    fn last_wanted(&self) -> Option<Place>
        ensures { MatchOption result (self.now.wanted ≡ []) (IsLast self.now.wanted) }
    {
        last_of(&self.wanted)
    }

    /// Passes the last place of all, which is covered.
    fn pass(&mut self, nodes: &Nodes, top: Place) -> Result<(), AllocError>
        requires deep { IsDeep nodes.now }
        requires last { IsLast self.old.covered top }
        requires wanted { IsUpTo self.old.wanted top }
        ensures { OnOk result ((need have : List names.Name) → IsWalk nodes.now need have self.old
            → IsWalk nodes.now need have self.new
            × (work nodes.now (self.new.wanted ++ self.new.covered) < work nodes.now (self.old.wanted ++ self.old.covered))) }
    {
        self.wanted.remove(&top);
        descend(nodes, &mut self.covered, top)
    }

    /// Finds the last place that is wanted, which is behind all that are covered.
    fn find(&mut self, nodes: &Nodes, top: Place) -> Result<(), AllocError>
        requires deep { IsDeep nodes.now }
        requires last { IsLast self.old.wanted top }
        requires covered { (place : spec.Place) → IsTrue (has_place self.old.covered place) → is_lt (place_cmp place top) ≡ true }
        ensures { OnOk result ((need have : List names.Name) → IsWalk nodes.now need have self.old
            → IsWalk nodes.now need have self.new
            × (work nodes.now (self.new.wanted ++ self.new.covered) < work nodes.now (self.old.wanted ++ self.old.covered))) }
    {
        self.found.insert(top)?;
        descend(nodes, &mut self.wanted, top)
    }

    /// The last place that is covered, unless all that are covered stand before what is wanted.
    fn last_covered(&self, wanted: &Place) -> Option<Place>
        ensures { MatchOption result
            ((place : spec.Place) → IsTrue (has_place self.now.covered place) → is_lt (place_cmp place wanted.now) ≡ true)
            (λ last. IsLast self.now.covered last × (is_lt (place_cmp last wanted.now) ≡ false)) }
    {
        match last_of(&self.covered) {
            Some(covered) => {
                if covered.is_before(wanted) {
                    None
                } else {
                    Some(covered)
                }
            }
            None => None,
        }
    }

    /// Goes down by one change, where this is the last that is wanted.
    fn step(&mut self, nodes: &Nodes, wanted: Place) -> Result<(), AllocError>
        requires deep { IsDeep nodes.now }
        requires last { IsLast self.old.wanted wanted }
        ensures { OnOk result ((need have : List names.Name) → IsWalk nodes.now need have self.old
            → IsWalk nodes.now need have self.new
            × (work nodes.now (self.new.wanted ++ self.new.covered) < work nodes.now (self.old.wanted ++ self.old.covered))) }
    {
        match self.last_covered(&wanted) {
            Some(covered) => self.pass(nodes, covered),
            None => self.find(nodes, wanted),
        }
    }

    /// What was found.
    fn into_found(self) -> BTreeSet<Place>
        ensures { result.keys ≡ self.found }
    {
        let Walk {
            wanted: _,
            covered: _,
            found,
        } = self;
        found
    }
}

/// The places of what the one names lead to and the others do not.
pub fn difference(
    alloc: Global,
    nodes: &Nodes,
    need: &[Name],
    have: &[Name],
) -> Result<BTreeSet<Place>, AllocError>
    requires { IsDeep nodes.now }
    ensures { IfOk result (λ found. IsWalked nodes.now need.now have.now found.keys) }
{
    let mut walk = Walk::begin(alloc, nodes, need, have)?;
    while let Some(wanted) = walk.last_wanted() {
        walk.step(nodes, wanted)?;
    }
    Ok(walk.into_found())
}
