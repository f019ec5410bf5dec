ghost use Rattle.std.specs.Prelude.{◌≡◌, ◌++◌, flat_map, IfOk, OnOk};
ghost use Rattle.std.specs.List.Sorted.{IsStrictlySortedBy};
ghost use Rattle.std.specs.Ordering.{nat_cmp};
ghost use Rattle.std.specs.Cmp.Lexicographic.{slice_cmp};
ghost use Rattle.std.specs.Map.{keys_of};
ghost use Rattle.replica_views.specs.Effects.{is_same_object};
ghost use Rattle.replica_history.specs.Shown.{delta_of_winner, delta_shown, effect_of, effect_shown};

use crate::standings::{Standing, winner};
use crate::texts::Texts;
use delta::{Delta, replace_all};
use replica_dir::Directory;
use std::alloc::{AllocError, Global};
use std::collections::BTreeMap;
use std::marker::Model;
use tt_base::{ElemId, List, SharedPath};

/// What comes at a path.
#[derive(Debug, Drop)]
pub struct Effect {
    pub path: SharedPath,
    /// What is changed in the text at the path.
    pub delta: Delta,
}

impl Model for Effect {
    ghost use Rattle.replica_views.specs.Effects.{PathEffect};

    ghost Value = { PathEffect };

    ghost view = { λ e. record { path = e.path; delta = e.delta } };
}

/// Whether the same object is read, or none before and after.
fn is_same(before: &Option<ElemId>, later: &Option<ElemId>) -> bool
    ensures { result ≡ is_same_object before.now later.now }
{
    match (before, later) {
        (None, None) => true,
        (Some(one), Some(other)) => one.equals(other),
        _ => false,
    }
}

/// What was joined to the object that is read.
fn joined_delta(
    alloc: Global,
    deltas: &BTreeMap<ElemId, Delta>,
    winner: &Option<ElemId>,
) -> Result<Option<Delta>, AllocError>
    ensures { IfOk result (λ delta. delta ≡ delta_of_winner deltas.now.entries winner.now) }
{
    let Some(object) = winner else {
        return Ok(None);
    };
    match deltas.get(object) {
        Some(delta) => {
            let copy = delta.copied(alloc)?;
            Ok(Some(copy))
        }
        None => Ok(None),
    }
}

/// The delta at a path where this stood before and that object is read now.
fn shown_delta(
    alloc: Global,
    texts: &Texts,
    deltas: &BTreeMap<ElemId, Delta>,
    before: &Standing,
    winner: &Option<ElemId>,
) -> Result<Option<Delta>, AllocError>
    ensures { IfOk result (λ delta. delta ≡ delta_shown texts.now deltas.now.entries before.now winner.now) }
{
    if is_same(&before.winner, winner) {
        return joined_delta(alloc, deltas, winner);
    }
    let text = texts.text(alloc, winner)?;
    let delta = replace_all(alloc, before.length, &text)?;
    Ok(Some(delta))
}

/// Puts an effect behind the others, where there is one.
fn push_effect(
    effects: &mut Vec<Effect>,
    path: SharedPath,
    delta: Option<Delta>,
) -> Result<(), AllocError>
    ensures { OnOk result (effects.new.items ≡ effects.old.items ++ effect_of path delta) }
{
    let Some(delta) = delta else {
        return Ok(());
    };
    if delta.is_empty() {
        return Ok(());
    }
    effects.push(Effect { path, delta })?;
    Ok(())
}

/// The effects on the paths, in their order.
pub(crate) fn effects_of(
    alloc: Global,
    directory: &Directory,
    texts: &Texts,
    deltas: &BTreeMap<ElemId, Delta>,
    standings: BTreeMap<SharedPath, Standing>,
) -> Result<List<Effect>, AllocError>
    ensures effects { IfOk result (λ effects. effects ≡ flat_map (effect_shown directory.now texts.now deltas.now.entries) standings.entries) }
    ensures rising { IfOk result (λ _. IsStrictlySortedBy (slice_cmp nat_cmp) (keys_of standings.entries)) }
{
    let mut effects = Vec::new(alloc);
    for (path, before) in standings {
        let winner = winner(directory, &path);
        let delta = shown_delta(alloc, texts, deltas, &before, &winner)?;
        push_effect(&mut effects, path, delta)?;
    }
    Ok(List::from_vec(effects))
}
