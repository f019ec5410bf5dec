ghost use Rattle.std.specs.Prelude.{◌≡◌, ◌<◌, [], length, reverse, not, true, IfOk, OnOk, OnErr, if◌then◌else◌};
ghost use Rattle.std.specs.List.{filter, find};
ghost use Rattle.std.specs.List.Sorted.{IsStrictlySortedBy};
ghost use Rattle.tt_base.specs.Ids.{id_cmp};
ghost use Rattle.tt_base.specs.declared.ids.ElemId.{ElemId};
ghost use Rattle.replica_dir.specs.Ids.{is_id, has_id};

use std::alloc::{AllocError, Global};
use std::collections::BTreeSet;
use std::marker::Model;
use tt_base::{ElemId, List};

/// A set of ids, seen as its members in rising order.
#[derive(Debug, Drop)]
pub struct IdSet {
    ids: BTreeSet<ElemId>,
}

impl Model for IdSet {
    ghost use Rattle.std.specs.Prelude.{List};
    ghost use Rattle.tt_base.specs.declared.ids.ElemId.{ElemId};

    ghost Value = { List ElemId };

    ghost view = { λ s. s.ids.keys };
}

/// Whether the id is not in the set.
fn lacks(ids: &BTreeSet<ElemId>, id: &ElemId) -> bool
    ensures { result ≡ not (has_id ids.now.keys id.now) }
{
    !ids.contains(id)
}

/// The id if it is not in the set, and what was kept before if it is.
fn kept_after(others: &BTreeSet<ElemId>, id: &ElemId, kept: Option<ElemId>) -> Option<ElemId>
    ensures { result ≡ (if not (has_id others.now.keys id.now) then Some id.now else kept) }
{
    if lacks(others, id) { Some(*id) } else { kept }
}

/// The last id of the one set that the other has not.
fn last_outside(ids: &BTreeSet<ElemId>, others: &BTreeSet<ElemId>) -> Option<ElemId>
    ensures last { result ≡ find (λ id. not (has_id others.now.keys id)) (reverse ids.now.keys) }
    ensures rising { IsStrictlySortedBy id_cmp ids.now.keys }
{
    let mut kept = None;
    for id in ids.iter() {
        kept = kept_after(others, id, kept);
    }
    kept
}

/// The ids of the one set that the other has not, in order.
fn all_outside(
    alloc: Global,
    ids: &BTreeSet<ElemId>,
    others: &BTreeSet<ElemId>,
) -> Result<List<ElemId>, AllocError>
    ensures list { IfOk result (λ list. list ≡ filter (λ id. not (has_id others.now.keys id)) ids.now.keys) }
    ensures rising { IsStrictlySortedBy id_cmp ids.now.keys }
{
    let outside = ids
        .iter()
        .filter(|id| lacks(others, *id))
        .copied()
        .collect(alloc)?;
    Ok(List::from_vec(outside))
}

impl IdSet {
    /// The set with no members.
    pub fn empty(alloc: Global) -> IdSet
        ensures { result ≡ [] }
    {
        IdSet {
            ids: BTreeSet::new(alloc),
        }
    }

    /// Puts the id into the set. After want of memory the set is as before.
    pub fn insert(&mut self, id: ElemId) -> Result<(), AllocError>
        ensures members { OnOk result ((q : ElemId) → has_id self.new q ≡ (if is_id id q then true else has_id self.old q)) }
        ensures some { OnOk result (0 < length self.new) }
        ensures err { OnErr result (self.new ≡ self.old) }
    {
        self.ids.insert(id)?;
        Ok(())
    }

    /// The greatest member that is not in the other set.
    pub fn greatest_outside(&self, other: &IdSet) -> Option<ElemId>
        ensures last { result ≡ find (λ id. not (has_id other.now id)) (reverse self.now) }
        ensures rising { IsStrictlySortedBy id_cmp self.now }
    {
        last_outside(&self.ids, &other.ids)
    }

    /// The members that are not in the other set, in rising order.
    pub fn outside(&self, alloc: Global, other: &IdSet) -> Result<List<ElemId>, AllocError>
        ensures list { IfOk result (λ list. list ≡ filter (λ id. not (has_id other.now id)) self.now) }
        ensures rising { IsStrictlySortedBy id_cmp self.now }
    {
        all_outside(alloc, &self.ids, &other.ids)
    }
}
