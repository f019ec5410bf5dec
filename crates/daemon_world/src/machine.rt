ghost use Rattle.std.specs.Prelude.{◌≡◌, IfOk};
ghost use Rattle.std.specs.Option.{option_copied};
ghost use Rattle.kept_world.specs.Worlds.{beginning, next_connection, running, editor_of};
ghost use Rattle.plain_world.specs.Base.{script_base};

use daemon_host::Host;
use editor_seat::EditorSeat;
use file_uri::Base;
use plain_world::FIRST_OWN;
use std::alloc::{AllocError, Global};
use std::marker::Model;

/// The daemons and editors of a world. It is seen as `kept_world`'s world.
#[derive(Debug, Drop)]
pub(crate) struct Machine {
    /// The daemons in the order of making, of which some have stopped.
    pub(crate) hosts: Vec<Option<Host>>,
    /// The editors in the order of making.
    pub(crate) editors: Vec<EditorSeat>,
    /// For each connection that the script made of its own, in the order of making, the editor that it was begun for.
    pub(crate) owners: Vec<u64>,
}

impl Model for Machine {
    ghost use Rattle.kept_world.specs.Worlds.{KeptWorld};
    ghost use Rattle.daemon_world.specs.Order.{IsOrderly};
    ghost use Rattle.daemon_world.specs.Worlds.{world_of};

    ghost Value = { KeptWorld };

    ghost view = { λ m. world_of m.hosts.items m.editors.items m.owners.items };

    ghost invariant = { λ m. IsOrderly (world_of m.hosts.items m.editors.items m.owners.items) m.owners.items };
}

/// The base of the daemons of scripts.
pub(crate) fn read_base(alloc: Global) -> Result<Base, AllocError>
    ensures { IfOk result (λ base. base ≡ script_base) }
{
    match Base::read(alloc, "file:///work/") {
        Ok(base) => Ok(base),
        Err(_) => Err(AllocError),
    }
}

impl Machine {
    /// No daemon, and no editor.
    pub(crate) fn new(alloc: Global) -> Machine
        ensures { result ≡ beginning }
    {
        Machine {
            hosts: Vec::new(alloc),
            editors: Vec::new(alloc),
            owners: Vec::new(alloc),
        }
    }

    /// The daemon of a number, where it is there and runs.
    pub(crate) fn host(&self, d: u64) -> Option<&Host>
        ensures { option_copied result ≡ running self.now d }
    {
        match self.hosts.get(d as usize) {
            Some(Some(host)) => Some(host),
            _ => None,
        }
    }

    /// The editor of a number, where it is there.
    pub(crate) fn editor(&self, e: u64) -> Option<&EditorSeat>
        ensures { option_copied result ≡ editor_of self.now e }
    {
        self.editors.get(e as usize)
    }

    /// The number of the next connection that the script makes of its own, where u64 has one.
    pub(crate) fn next_connection(&self) -> Result<u64, AllocError>
        ensures { IfOk result (λ n. n ≡ next_connection self.now) }
    {
        FIRST_OWN
            .checked_add(self.owners.len() as u64)
            .ok_or(AllocError)
    }
}
