//! The history of a shared directory, change by change.
ghost use Rattle.std.specs.Prelude.{◌≡◌, ◌<◌, ◌↔◌, ◌^◌, ◌++◌, ◌&&◌, not, false, [], ◌∷◌, if◌then◌else◌, map, length, IsTrue, MatchOption, MatchResult, IfOk, IfErr, OnOk, OnErr, option_copied};
ghost use Rattle.std.specs.List.Sorted.{IsStrictlySortedBy};
ghost use Rattle.tt_base.specs.Ids.{name_cmp};
ghost use Rattle.tt_base.specs.declared.ids.Name as names;
ghost use Rattle.byte_format.specs.Format.{IsEncoding};
ghost use Rattle.change_codec.specs.Encoding.{change_format};
ghost use Rattle.change_graph.specs.History.{History, change_at, is_held, has_name, missing, name_of, with_change};
ghost use Rattle.change_graph.specs.Closure.{IsAncestor};
ghost use Rattle.change_graph.specs.Depths.{greatest, IsDepth};
ghost use Rattle.change_graph.specs.Histories.{IsHistory};
ghost use Rattle.change_graph.specs.Nodes.{depth_in, IsDeep};
ghost use Rattle.change_graph.specs.Answers.{IsHeads, IsDifference, IsNext};
ghost use Rattle.change_graph.specs.Adding.{IsNoted, IsRefused};

use crate::faults::{AddNote, GraphFault};
use crate::nodes::Nodes;
use crate::places::{Place, names_of};
use crate::survey::first_fault;
use crate::walks::{difference, reaches};
use change_codec::{Change, name_of, write_change};
use std::alloc::{AllocError, Global};
use std::collections::BTreeSet;
use std::marker::Model;
use tt_base::{Blob, List, Name};

/// A closed history of changes: each is held once under its name, with all that it depends on.
#[derive(Debug, Drop)]
pub struct Graph {
    nodes: Nodes,
    heads: BTreeSet<Name>,
}

impl Model for Graph {
    ghost use Rattle.change_graph.specs.History.{History};
    ghost use Rattle.change_graph.specs.Kept.{IsKept};

    ghost Value = { History };

    ghost view = { λ g. g.nodes.history };

    ghost invariant = { λ g. IsKept g.nodes g.heads.keys };
}

/// The greatest depth among these changes, and 0 where there are none.
fn greatest_depth(nodes: &Nodes, names: &[Name]) -> u64
    requires { IsDeep nodes.now }
    ensures value { result ≡ greatest (map (depth_in nodes.now.depths) names.now) }
    ensures small { result < 2 ^ 63 }
{
    let _count = nodes.count();
    let mut most: u64 = 0;
    for name in names {
        most = most.max(nodes.depth(name).unwrap_or(0));
    }
    most
}

/// Puts the name behind the others, where nothing is held under it.
fn note_missing(nodes: &Nodes, name: &Name, list: &mut Vec<Name>) -> Result<(), AllocError>
    ensures { OnOk result (list.new.items ≡ (if is_held nodes.now.history name.now then list.old.items else list.old.items ++ name.now ∷ [])) }
{
    if nodes.holds(name) {
        return Ok(());
    }
    list.push(*name)?;
    Ok(())
}

/// Those of the names under which nothing is held.
fn missing_names(alloc: Global, nodes: &Nodes, names: &[Name]) -> Result<List<Name>, AllocError>
    ensures { IfOk result (λ list. list ≡ missing nodes.now.history names.now) }
{
    let mut list = Vec::new(alloc);
    for name in names {
        note_missing(nodes, name, &mut list)?;
    }
    Ok(List::from_vec(list))
}

/// Takes the names out of the set.
fn take_out(heads: &mut BTreeSet<Name>, taken: &[Name])
    ensures members { (q : names.Name) → has_name heads.new.keys q ≡ (has_name heads.old.keys q && not (has_name taken.now q)) }
    ensures rising { IsStrictlySortedBy name_cmp heads.old.keys → IsStrictlySortedBy name_cmp heads.new.keys }
{
    for name in taken {
        heads.remove(name);
    }
}

/// What comes of a change under whose name this one is held already.
fn meet(alloc: Global, held: &Change, change: &Change, given: Blob) -> Result<AddNote, GraphFault>
    requires { IsEncoding change_format given change.now }
    ensures note { IfOk result (λ note. (note ≡ AddNote.Repeat) × (held.now ≡ change.now)) }
    ensures fault { IfErr result (λ fault. (history : History) → change_at history (name_of change.now) ≡ Some held.now
        → IsRefused history change.now fault) }
{
    let kept = write_change(alloc, held)?;
    if kept.as_slice() == given.as_slice() {
        return Ok(AddNote::Repeat);
    }
    Err(GraphFault::Clash(kept, given))
}

impl Graph {
    /// No changes.
    pub fn new(alloc: Global) -> Graph
        ensures { result ≡ [] }
    {
        Graph {
            nodes: Nodes::empty(alloc),
            heads: BTreeSet::new(alloc),
        }
    }

    /// The number of changes. They are a history.
    pub fn count(&self) -> usize
        ensures count { result ≡ length self.now }
        ensures history { IsHistory self.now }
    {
        self.nodes.count()
    }

    /// Whether a change is held under this name.
    pub fn holds(&self, name: &Name) -> bool
        ensures { result ≡ is_held self.now name.now }
    {
        self.nodes.holds(name)
    }

    /// The change that is held under this name.
    pub fn change(&self, name: &Name) -> Option<&Change>
        ensures { option_copied result ≡ change_at self.now name.now }
    {
        self.nodes.change(name)
    }

    /// The depth of the change that is held under this name: 1 more than the greatest of its dependencies, from 1.
    pub fn depth(&self, name: &Name) -> Option<u64>
        ensures { MatchOption result (is_held self.now name.now ≡ false) (IsDepth self.now name.now) }
    {
        self.nodes.depth(name)
    }

    /// The names that no held change has as a dependency, rising.
    pub fn heads(&self, alloc: Global) -> Result<List<Name>, AllocError>
        ensures { IfOk result (IsHeads self.now) }
    {
        let heads = self.heads.iter().copied().collect(alloc)?;
        Ok(List::from_vec(heads))
    }

    /// Whether the one change is in the closure of the dependencies of the other. No other one has ancestors or is one.
    pub fn is_ancestor(
        &self,
        alloc: Global,
        ancestor: &Name,
        name: &Name,
    ) -> Result<bool, AllocError>
        ensures { IfOk result (λ yes. IsTrue yes ↔ IsAncestor self.now ancestor.now name.now) }
    {
        let Some(depth) = self.nodes.depth(ancestor) else {
            return Ok(false);
        };
        let Some(change) = self.nodes.change(name) else {
            return Ok(false);
        };
        let target = Place {
            depth,
            name: *ancestor,
        };
        reaches(alloc, &self.nodes, change.deps(), target)
    }

    /// What the one names lead to and the others do not, by depth and then by name, so that each change comes behind all
    /// that it depends on. Names that are not held are passed over.
    pub fn between(
        &self,
        alloc: Global,
        need: &[Name],
        have: &[Name],
    ) -> Result<List<Name>, AllocError>
        ensures { IfOk result (IsDifference self.now need.now have.now) }
    {
        let found = difference(alloc, &self.nodes, need, have)?;
        names_of(alloc, &found)
    }

    /// Judges a change that is not held.
    fn judge(&self, alloc: Global, change: &Change) -> Result<(), GraphFault>
        requires { is_held self.now (name_of change.now) ≡ false }
        ensures ok { OnOk result (IsNext self.now change.now) }
        ensures fault { IfErr result (IsRefused self.now change.now) }
    {
        let lacking = missing_names(alloc, &self.nodes, change.deps())?;
        if !lacking.is_empty() {
            return Err(GraphFault::MissingDeps(lacking));
        }
        let heads = self.heads(alloc)?;
        let outside = difference(alloc, &self.nodes, heads.as_slice(), change.deps())?;
        match first_fault(alloc, &self.nodes, &outside, change)? {
            Some(fault) => Err(GraphFault::BadChange(fault.place, fault.cause)),
            None => Ok(()),
        }
    }

    /// Puts in a change that may be added. After want of memory all is as before.
    fn put(&mut self, alloc: Global, name: Name, change: Change) -> Result<(), AllocError>
        requires next { IsNext self.old change }
        requires named { name ≡ name_of change }
        ensures ok { OnOk result (self.new ≡ with_change self.old change) }
        ensures err { OnErr result (self.new ≡ self.old) }
    {
        let depth = greatest_depth(&self.nodes, change.deps()) + 1;
        self.heads.insert(name)?;
        if let Err(error) = self.nodes.insert(alloc, name, change, depth) {
            self.heads.remove(&name);
            return Err(error);
        }
        if let Some(held) = self.nodes.change(&name) {
            take_out(&mut self.heads, held.deps());
        }
        Ok(())
    }

    /// Adds a change whose dependencies are held and of which no operation is refused, unless it is held already.
    pub fn add(&mut self, alloc: Global, change: Change) -> Result<AddNote, GraphFault>
        ensures note { IfOk result (IsNoted self.old change self.new) }
        ensures fault { IfErr result (IsRefused self.old change) }
        ensures err { OnErr result (self.new ≡ self.old) }
    {
        let encoding = write_change(alloc, &change)?;
        let name = name_of(encoding.as_slice());
        if let Some(held) = self.nodes.change(&name) {
            return meet(alloc, held, &change, encoding);
        }
        self.judge(alloc, &change)?;
        self.put(alloc, name, change)?;
        Ok(AddNote::Added)
    }
}
