ghost use Rattle.std.specs.Prelude.{◌≡◌, true, is_some, Some, IfOk, OnOk, string_bytes};
ghost use Rattle.kept_world.specs.Moves.{IsHeardOn, Hears, is_fed};
ghost use Rattle.kept_world.specs.Steps.{quietly, raw_begins, raw_ends};
ghost use Rattle.plain_world.specs.RawFrames.{Reader};
ghost use Rattle.daemon_world.specs.Hearing.{IsReadOn, hung_up, ends_if};

use crate::machine::Machine;
use daemon_host::write_hung;
use rpc_frame::{FrameFault, StreamRead};
use std::alloc::{AllocError, Global};
use tt_base::{Blob, List};

// Connections that a script feeds byte by byte.
impl Machine {
    /// A connection that the script feeds begins at a daemon.
    pub(crate) fn begin_fed(&mut self, alloc: Global, d: u64, c: u64) -> Result<(), AllocError>
        requires { is_some (raw_begins self.old d c) ≡ true }
        ensures { OnOk result (raw_begins self.old d c ≡ Some (quietly self.new)) }
    {
        let host = &mut self.hosts[d as usize];
        let Some(host) = host else { unreachable!() };
        host.begin_fed(alloc, c)
    }

    /// A connection that the script feeds ends.
    pub(crate) fn end_fed(&mut self, d: u64, c: u64)
        requires { is_some (raw_ends self.old d c) ≡ true }
        ensures { raw_ends self.old d c ≡ Some (quietly self.new) }
    {
        let host = &mut self.hosts[d as usize];
        let Some(host) = host else { unreachable!() };
        host.end_fed(c);
    }

    /// A piece of the stream of a connection is read: its bodies, which have not come yet, and its fault.
    fn read_piece(
        &mut self,
        alloc: Global,
        d: u64,
        c: u64,
        piece: &Blob,
    ) -> Result<StreamRead, AllocError>
        requires { is_fed self.old d c ≡ true }
        ensures { IfOk result (λ read. (reader : Reader) → IsReadOn reader self.old d c piece.now self.new read) }
    {
        let host = &mut self.hosts[d as usize];
        let Some(host) = host else { unreachable!() };
        host.feed(alloc, c, piece.as_slice())
    }

    /// Bodies come in turn on a connection, up to a shutdown: what is printed.
    fn hear_bodies(
        &mut self,
        alloc: Global,
        d: u64,
        c: u64,
        bodies: List<Blob>,
    ) -> Result<String, AllocError>
        ensures { IfOk result (λ printed. Hears d c bodies self.old (record { world = self.new; printed = string_bytes printed })) }
    {
        let mut printed = String::new(alloc);
        for body in bodies.into_vec() {
            if self.host(d).is_none() {
                break;
            }
            let lines = self.handle(alloc, d, c, body)?;
            printed.push_str(lines.as_str())?;
        }
        Ok(printed)
    }

    /// A connection ends by a fault of its frames, where its daemon still runs: what is printed.
    fn hang_up(&mut self, alloc: Global, d: u64, c: u64) -> Result<String, AllocError>
        ensures { IfOk result (λ printed. hung_up d c self.old ≡ record { world = self.new; printed = string_bytes printed }) }
    {
        if self.host(d).is_none() {
            return Ok(String::new(alloc));
        }
        let host = &mut self.hosts[d as usize];
        let Some(host) = host else { unreachable!() };
        host.end_fed(c);
        write_hung(alloc, d, c)
    }

    /// A connection ends where its stream has a fault: what is printed.
    fn end_if(
        &mut self,
        alloc: Global,
        d: u64,
        c: u64,
        fault: Option<FrameFault>,
    ) -> Result<String, AllocError>
        ensures { IfOk result (λ printed. ends_if fault d c self.old ≡ record { world = self.new; printed = string_bytes printed }) }
    {
        match fault {
            Some(_) => self.hang_up(alloc, d, c),
            None => Ok(String::new(alloc)),
        }
    }

    /// A piece of the stream of a connection comes to a daemon: what is printed.
    pub(crate) fn hear(
        &mut self,
        alloc: Global,
        d: u64,
        c: u64,
        piece: &Blob,
    ) -> Result<String, AllocError>
        requires { is_fed self.old d c ≡ true }
        ensures { IfOk result (λ printed. (reader : Reader) → IsHeardOn reader self.old d c piece.now (record { world = self.new; printed = string_bytes printed })) }
    {
        let read = self.read_piece(alloc, d, c, piece)?;
        let mut printed = self.hear_bodies(alloc, d, c, read.bodies)?;
        let line = self.end_if(alloc, d, c, read.fault)?;
        printed.push_str(line.as_str())?;
        Ok(printed)
    }
}
