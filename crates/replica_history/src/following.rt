//! The directory and the texts follow a change that comes.

ghost use Rattle.std.specs.Prelude.{◌≡◌, ◌<◌, ◌^◌, length, IfOk, OnOk};
ghost use Rattle.change_codec.specs.Change.{Change};
ghost use Rattle.change_graph.specs.History.{History};
ghost use Rattle.change_graph.specs.Refusals.{things};
ghost use Rattle.replica_views.specs.Effects.{AreEffects};
ghost use Rattle.replica_views.specs.Ids.{id_at};
ghost use Rattle.replica_history.specs.Replica.{AreReadings, IsNextOf, IsNext};

use crate::deeds::deeds_of;
use crate::effects::{Effect, effects_of};
use crate::joining::join_all;
use crate::standings::standings_of;
use crate::telling::{tell_makes, tell_removes};
use crate::texts::Texts;
use change_codec::Op;
use change_graph::Graph;
use replica_dir::Directory;
use std::alloc::{AllocError, Global};
use tt_base::{ElemId, List};

/// Tells the directory and the texts what the change does whose first id is `own` and which the graph has, and answers what this
/// changes at the paths.
pub(crate) fn follow(
    alloc: Global,
    graph: &Graph,
    directory: &mut Directory,
    texts: &mut Texts,
    own: &ElemId,
    ops: &[Op],
) -> Result<List<Effect>, AllocError>
    requires own { own.now ≡ id_at graph.now own.now.name 0 }
    requires few { length (things ops.now) < 2 ^ 64 }
    requires next { IsNext graph.now own.now.name ops.now directory.old texts.old }
    ensures readings { OnOk result (AreReadings graph.now directory.new texts.new) }
    ensures effects { IfOk result (λ effects. (history : History) (change : Change)
        → IsNextOf history change graph.now own.now.name ops.now directory.old texts.old → AreEffects history graph.now effects) }
{
    let deeds = deeds_of(alloc, graph, own, ops)?;
    texts.begin_all(alloc, deeds.makes.as_slice())?;
    let standings = standings_of(alloc, texts, directory, deeds.objects.as_slice())?;
    tell_makes(alloc, directory, deeds.makes.as_slice())?;
    tell_removes(alloc, directory, deeds.removes.as_slice())?;
    let deltas = join_all(alloc, texts, &deeds.groups, deeds.objects.as_slice())?;
    let effects = effects_of(alloc, directory, texts, &deltas, standings)?;
    Ok(effects)
}
