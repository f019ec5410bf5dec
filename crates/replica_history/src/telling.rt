//! A directory is told what is made and removed.

ghost use Rattle.std.specs.Prelude.{◌≡◌, ℕ, List, ◌||◌, OnOk};
ghost use Rattle.std.specs.List.{list_any};
ghost use Rattle.tt_base.specs.declared.ids.ElemId.{ElemId};
ghost use Rattle.replica_dir.specs.Ids.{is_id};
ghost use Rattle.replica_dir.specs.DirectoryView.{is_made, is_removed};
ghost use Rattle.replica_history.specs.Deeds.{has_make};

use crate::deeds::Made;
use replica_dir::Directory;
use std::alloc::{AllocError, Global};
use tt_base::ElemId;

/// Tells a directory what is made.
pub(crate) fn tell_makes(
    alloc: Global,
    directory: &mut Directory,
    makes: &[Made],
) -> Result<(), AllocError>
    ensures makes { OnOk result ((path : List ℕ) (q : ElemId) → is_made directory.new path q ≡ (has_make makes.now path q || is_made directory.old path q)) }
    ensures removes { directory.new.removes ≡ directory.old.removes }
{
    for made in makes {
        directory.made(alloc, &made.path, made.object)?;
    }
    Ok(())
}

/// Tells a directory what is removed.
pub(crate) fn tell_removes(
    alloc: Global,
    directory: &mut Directory,
    removes: &[ElemId],
) -> Result<(), AllocError>
    ensures makes { directory.new.makes ≡ directory.old.makes }
    ensures removes { OnOk result ((q : ElemId) → is_removed directory.new q ≡ (list_any (λ id. is_id id q) removes.now || is_removed directory.old q)) }
{
    for object in removes {
        directory.removed(alloc, object)?;
    }
    Ok(())
}
