ghost use Rattle.std.specs.Prelude.{◌≡◌, ℕ, List, Some, None, IfOk, OnOk, if◌then◌else◌};
ghost use Rattle.std.specs.Option.{IfSome};
ghost use Rattle.replica_history.specs.Texts.{kept_at, is_kept_at, is_touched};
ghost use Rattle.replica_history.specs.Standings.{winner_in, standing_at, noted_at};

use crate::texts::Texts;
use replica_dir::Directory;
use std::alloc::{AllocError, Global};
use std::collections::BTreeMap;
use tt_base::{ElemId, SharedPath};

/// The object that is read at a path, and how many characters its text has.
#[derive(Debug, Drop)]
pub(crate) struct Standing {
    pub(crate) winner: Option<ElemId>,
    pub(crate) length: usize,
}

/// The object that is read at a path.
pub(crate) fn winner(directory: &Directory, path: &SharedPath) -> Option<ElemId>
    ensures { result ≡ winner_in directory.now path.now }
{
    directory.winner(path)
}

/// What stands at a path.
fn stands_at(texts: &Texts, directory: &Directory, path: &SharedPath) -> Standing
    ensures { result ≡ standing_at texts.now directory.now path.now }
{
    let winner = winner(directory, path);
    let length = texts.length(&winner);
    Standing { winner, length }
}

/// Notes what stands at the path of an object.
fn note(
    alloc: Global,
    standings: &mut BTreeMap<SharedPath, Standing>,
    texts: &Texts,
    directory: &Directory,
    object: &ElemId,
) -> Result<(), AllocError>
    requires { (path : List ℕ) → IfSome (noted_at standings.old.entries path) (λ noted. noted ≡ standing_at texts.now directory.now path) }
    ensures { OnOk result ((path : List ℕ) → noted_at standings.new.entries path
        ≡ (if is_kept_at path (kept_at texts.now object.now) then Some (standing_at texts.now directory.now path) else noted_at standings.old.entries path)) }
{
    let Some(path) = texts.path(object) else {
        return Ok(());
    };
    if standings.contains_key(path) {
        return Ok(());
    }
    let key = path.copied(alloc)?;
    standings.insert(key, stands_at(texts, directory, path))?;
    Ok(())
}

/// What stands at each path at which one of the objects was made.
pub(crate) fn standings_of(
    alloc: Global,
    texts: &Texts,
    directory: &Directory,
    objects: &[ElemId],
) -> Result<BTreeMap<SharedPath, Standing>, AllocError>
    ensures { IfOk result (λ standings. (path : List ℕ) → noted_at standings.entries path
        ≡ (if is_touched texts.now objects.now path then Some (standing_at texts.now directory.now path) else None)) }
{
    let mut standings = BTreeMap::new(alloc);
    for object in objects {
        note(alloc, &mut standings, texts, directory, object)?;
    }
    Ok(standings)
}
