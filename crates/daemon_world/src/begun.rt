ghost use Rattle.std.specs.Prelude.{◌≡◌, ◌<◌, true, is_some, length, Some, IfOk, OnOk, string_bytes};
ghost use Rattle.kept_world.specs.Steps.{begins, tells_file, tells_held, quietly, prints};
ghost use Rattle.kept_world.specs.Worlds.{running};
ghost use Rattle.plain_world.specs.Base.{script_base};

use crate::machine::{Machine, read_base};
use daemon_host::Host;
use plain_world::MOST_DAEMONS;
use std::alloc::{AllocError, Global};
use tt_base::SharedPath;

impl Machine {
    /// One more daemon begins, without files or connections.
    pub(crate) fn begin_daemon(&mut self, alloc: Global) -> Result<(), AllocError>
        requires { length self.old.hosts < MOST_DAEMONS }
        ensures { OnOk result (begins script_base self.old (length self.old.hosts) ≡ Some (quietly self.new)) }
    {
        let base = read_base(alloc)?;
        self.hosts.push(Some(Host::new(alloc, base)))?;
        Ok(())
    }

    /// The line of a file of a daemon.
    pub(crate) fn write_file(
        &self,
        alloc: Global,
        d: u64,
        path: &SharedPath,
    ) -> Result<String, AllocError>
        requires { is_some (running self.now d) ≡ true }
        ensures { IfOk result (λ line. tells_file self.now d path.now ≡ Some (prints self.now (string_bytes line))) }
    {
        let Some(host) = self.host(d) else {
            unreachable!()
        };
        host.write_file(alloc, d, path)
    }

    /// The line of how many changes a daemon holds.
    pub(crate) fn write_held(&self, alloc: Global, d: u64) -> Result<String, AllocError>
        requires { is_some (running self.now d) ≡ true }
        ensures { IfOk result (λ line. tells_held self.now d ≡ Some (prints self.now (string_bytes line))) }
    {
        let Some(host) = self.host(d) else {
            unreachable!()
        };
        host.write_held(alloc, d)
    }
}
