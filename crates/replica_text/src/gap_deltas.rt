//! Deltas that change one gap or one character.

ghost use Rattle.std.specs.Prelude.{◌≡◌, ◌+◌, ◌<◌, ◌^◌, true, false, IfOk};
ghost use Rattle.delta.specs.Cells.{covers, inserts, nothing, normal};

use delta::{Delta, DeltaBuilder};
use std::alloc::{AllocError, Global};
use tt_base::Text;

/// The delta that keeps all of a base.
pub(crate) fn unchanged(alloc: Global, count: usize) -> Result<Delta, AllocError>
    ensures { IfOk result (λ delta. delta ≡ normal (covers true count nothing)) }
{
    let mut built = DeltaBuilder::new(alloc)?;
    built.keep(alloc, count)?;
    built.finish(alloc)
}

/// The delta that inserts a text behind the first characters of a base.
pub(crate) fn inserted(
    alloc: Global,
    before: usize,
    text: &Text,
    behind: usize,
) -> Result<Delta, AllocError>
    requires { before + behind < 2 ^ 64 }
    ensures { IfOk result (λ delta. delta ≡ normal (covers true before (inserts text.now (covers true behind nothing)))) }
{
    let mut built = DeltaBuilder::new(alloc)?;
    built.keep(alloc, before)?;
    built.insert(alloc, text)?;
    built.keep(alloc, behind)?;
    built.finish(alloc)
}

/// The delta that deletes one character behind the first of a base.
pub(crate) fn deleted(alloc: Global, before: usize, behind: usize) -> Result<Delta, AllocError>
    requires { before + 1 + behind < 2 ^ 64 }
    ensures { IfOk result (λ delta. delta ≡ normal (covers true before (covers false 1 (covers true behind nothing)))) }
{
    let mut built = DeltaBuilder::new(alloc)?;
    built.keep(alloc, before)?;
    built.delete(alloc, 1)?;
    built.keep(alloc, behind)?;
    built.finish(alloc)
}
