ghost use Rattle.std.specs.Prelude.{◌≡◌, true, is_some, IfOk, string_bytes};
ghost use Rattle.std.specs.List.{list_any};
ghost use Rattle.daemon_core.specs.declared.events.Event.TheVariants.{EditorFrame};
ghost use Rattle.kept_world.specs.Events.{is_stop, IsEvent};
ghost use Rattle.kept_world.specs.Worlds.{running};
ghost use Rattle.daemon_world.specs.Serving.{IsServed};

use crate::machine::Machine;
use daemon_core::Output;
use std::alloc::{AllocError, Global};
use tt_base::{Blob, List};

/// Whether the daemon is to stop.
fn stops(outputs: &[Output]) -> bool
    ensures { result ≡ list_any is_stop outputs.now }
{
    outputs
        .iter()
        .any(|output| matches!(output, Output::Shutdown))
}

impl Machine {
    /// A frame with this body comes to a daemon: what it sends. That is not under way yet.
    fn serve(
        &mut self,
        alloc: Global,
        d: u64,
        n: u64,
        body: Blob,
    ) -> Result<List<Output>, AllocError>
        requires { is_some (running self.old d) ≡ true }
        ensures { IfOk result (IsServed self.old d (EditorFrame n body) self.new) }
    {
        let host = &mut self.hosts[d as usize];
        let Some(host) = host else { unreachable!() };
        if !host.has_room() {
            return Err(AllocError);
        }
        let outputs = host.handle_frame(alloc, n, body)?;
        Ok(outputs)
    }

    /// A frame with this body comes to a daemon on a connection. What it sends is under way then, and what it sends on connections
    /// that the script feeds is printed.
    pub(crate) fn handle(
        &mut self,
        alloc: Global,
        d: u64,
        n: u64,
        body: Blob,
    ) -> Result<String, AllocError>
        requires { is_some (running self.old d) ≡ true }
        ensures { IfOk result (λ printed. IsEvent self.old d (EditorFrame n body) (record { world = self.new; printed = string_bytes printed })) }
    {
        let outputs = self.serve(alloc, d, n, body)?;
        let is_last = stops(outputs.as_slice());
        let printed = self.send_all(alloc, d, outputs)?;
        if !is_last {
            return Ok(printed);
        }
        self.stop(d);
        Ok(printed)
    }
}
