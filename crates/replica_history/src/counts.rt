//! How many changes each daemon has made.
ghost use Rattle.std.specs.Prelude.{◌≡◌, ◌+◌, [], OnOk, if◌then◌else◌};
ghost use Rattle.std.specs.BTreeMap.{is_at};
ghost use Rattle.tt_base.specs.Ids.{actor_cmp};
ghost use Rattle.tt_base.specs.declared.ids.Actor.{Actor};
ghost use Rattle.replica_history.specs.Counts.{count_at};

use std::alloc::{AllocError, Global};
use std::collections::BTreeMap;
use std::marker::Model;
use tt_base::Actor;

/// The daemons that made changes, each with how many it made.
#[derive(Debug, Drop)]
pub(crate) struct Counts {
    by_actor: BTreeMap<Actor, u64>,
}

impl Model for Counts {
    ghost use Rattle.replica_history.specs.Counts.{CountsView};

    ghost Value = { CountsView };

    ghost view = { λ c. c.by_actor.entries };
}

impl Counts {
    /// No changes.
    pub(crate) fn none(alloc: Global) -> Counts
        ensures { result ≡ [] }
    {
        Counts {
            by_actor: BTreeMap::new(alloc),
        }
    }

    /// How many changes the daemon made.
    pub(crate) fn of(&self, actor: &Actor) -> u64
        ensures { result ≡ count_at self.now actor.now }
    {
        match self.by_actor.get(actor) {
            Some(count) => *count,
            None => 0,
        }
    }

    /// Counts a change of the daemon. 2^64 changes have room in no memory.
    pub(crate) fn add(&mut self, actor: Actor) -> Result<(), AllocError>
        ensures { OnOk result ((q : Actor) → count_at self.new q
            ≡ (if is_at (actor_cmp actor) q then count_at self.old q + 1 else count_at self.old q)) }
    {
        let Some(count) = self.of(&actor).checked_add(1) else {
            return Err(AllocError);
        };
        self.by_actor.insert(actor, count)?;
        Ok(())
    }
}
