//! A change that a daemon makes is held, and its record staged.
ghost use Rattle.std.specs.Prelude.{◌≡◌, ℕ, Err, IsTrue, IfOk, IfErr, OnOk, MatchOption, length};
ghost use Rattle.delta.specs.Cells.{base_length};
ghost use Rattle.replica_store.specs.Calls.{IsTooLong};
ghost use Rattle.replica_views.specs.Made.{made, removed};
ghost use Rattle.replica_views.specs.Views.{text_at};
ghost use Rattle.replica_disk.specs.Making.{IsOwnChange, HoldsOwn, HoldsStill, IsNotOwn, IsNoMaking, is_of_use, HasNoneTooLong};

use crate::learning::{Learnt, hold};
use change_codec::{Change, name_of, write_change};
use change_graph::GraphFault;
use change_journal::Record;
use delta::Delta;
use replica_history::{Effect, Replica, indices_fit};
use replica_store::{LONGEST_TEXT, StoreFault};
use std::alloc::Global;
use std::marker::Model;
use tt_base::{Actor, List, Name, SharedPath};

/// A change that a daemon made, which is held now.
#[derive(Debug, Drop)]
pub struct Made {
    /// The name of the change.
    pub name: Name,
    /// What it does to the texts that are seen: each path with an effect once, in rising order.
    pub effects: List<Effect>,
}

impl Model for Made {
    ghost use Rattle.replica_store.specs.Calls.{Making};

    ghost Value = { Making };

    ghost view = { λ m. record { name = m.name; effects = m.effects } };
}

/// How many characters the text at a path would have with a delta, where these are more than it has and more than a text may have.
#[tactic(auto, using(crate::proofs::Makes::is_too_long, crate::proofs::Makes::is_short, crate::proofs::Makes::is_no_longer))]
fn too_long(replica: &Replica, path: &SharedPath, d: &Delta) -> Option<usize>
    requires live { IsTrue replica.now.live }
    requires base { base_length d.now ≡ length (text_at replica.now.history path.now) }
    ensures { MatchOption result (HasNoneTooLong replica.now.history path.now d.now) (IsTooLong replica.now.history path.now d.now) }
{
    let count = d.result_length();
    let before = d.base_length();
    if count <= LONGEST_TEXT {
        return None;
    }
    if count <= before {
        return None;
    }
    Some(count)
}

/// Holds a change that a daemon made, and stages its record. A change with 2^64 indices or more wants memory that there is not.
fn hold_own(
    alloc: Global,
    replica: &mut Replica,
    staged: &mut List<Record>,
    change: Change,
) -> Result<Made, StoreFault>
    requires live { IsTrue replica.old.live }
    requires own { IsOwnChange replica.old.history change }
    ensures made { IfOk result (HoldsOwn replica.old.history staged.old change replica.new.history staged.new) }
    ensures fault { IfErr result (IsNotOwn replica.old.history change) }
    ensures same { IfErr result (HoldsStill replica.old.history staged.old replica.new.history staged.new) }
    ensures live { IsTrue (is_of_use result) → IsTrue replica.new.live }
{
    if !indices_fit(&change) {
        return Err(StoreFault::Memory);
    }
    let _fits = change.actor();
    let name = name_of(write_change(alloc, &change)?.as_slice());
    match hold(alloc, replica, staged, change) {
        Ok(Learnt::Added(effects)) => Ok(Made { name, effects }),
        Ok(Learnt::Repeat) => unreachable!(),
        Err(GraphFault::Clash(held, given)) => Err(StoreFault::Clash(held, given)),
        Err(GraphFault::MissingDeps(_)) => unreachable!(),
        Err(GraphFault::BadChange(_, _)) => unreachable!(),
        Err(GraphFault::Memory) => Err(StoreFault::Memory),
    }
}

/// Makes the change for a delta of the text at a path, holds it and stages its record.
pub(crate) fn hold_made(
    alloc: Global,
    replica: &mut Replica,
    staged: &mut List<Record>,
    actor: Actor,
    path: &SharedPath,
    d: &Delta,
) -> Result<Made, StoreFault>
    requires live { IsTrue replica.old.live }
    requires base { base_length d.now ≡ length (text_at replica.old.history path.now) }
    ensures made { IfOk result (HoldsOwn replica.old.history staged.old (made replica.old.history actor path.now d.now)
        replica.new.history staged.new) }
    ensures short { OnOk result (HasNoneTooLong replica.old.history path.now d.now) }
    // The length is judged before any memory is asked for.
    ensures long { (count : ℕ) → IsTooLong replica.old.history path.now d.now count → result ≡ Err (StoreFault.TextTooLong count) }
    ensures fault { IfErr result (IsNoMaking replica.old.history actor path.now d.now) }
    ensures same { IfErr result (HoldsStill replica.old.history staged.old replica.new.history staged.new) }
    ensures live { IsTrue (is_of_use result) → IsTrue replica.new.live }
{
    if let Some(count) = too_long(replica, path, d) {
        return Err(StoreFault::TextTooLong(count));
    }
    let _grown = replica.is_live();
    let change = replica.change_for(alloc, actor, path, d)?;
    hold_own(alloc, replica, staged, change)
}

/// Makes the change that removes the file at a path, holds it and stages its record.
pub(crate) fn hold_removed(
    alloc: Global,
    replica: &mut Replica,
    staged: &mut List<Record>,
    actor: Actor,
    path: &SharedPath,
) -> Result<Made, StoreFault>
    requires { IsTrue replica.old.live }
    ensures made { IfOk result (HoldsOwn replica.old.history staged.old (removed replica.old.history actor path.now)
        replica.new.history staged.new) }
    ensures fault { IfErr result (IsNotOwn replica.old.history (removed replica.old.history actor path.now)) }
    ensures same { IfErr result (HoldsStill replica.old.history staged.old replica.new.history staged.new) }
    ensures live { IsTrue (is_of_use result) → IsTrue replica.new.live }
{
    let _grown = replica.is_live();
    let change = replica.removal_of(alloc, actor, path)?;
    hold_own(alloc, replica, staged, change)
}

/// Whether a store is of use after this answer: unless memory ran out.
pub(crate) fn is_of_use(answer: &Result<Made, StoreFault>) -> bool
    ensures { result ≡ is_of_use answer.now }
{
    !matches!(answer, Err(StoreFault::Memory))
}
