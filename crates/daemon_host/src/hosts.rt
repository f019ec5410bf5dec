ghost use Rattle.std.specs.Prelude.{◌≡◌, ◌↔◌, ◌<◌, ◌^◌, ◌-◌, [], IsTrue, IsSome, is_some, Some, IfOk, OnOk, OnErr, string_bytes};
ghost use Rattle.std.specs.Map.{set_value};
ghost use Rattle.std.specs.Option.{option_copied};
ghost use Rattle.daemon_core.specs.History.{view_at};
ghost use Rattle.daemon_core.specs.Outputs.{serve};
ghost use Rattle.daemon_core.specs.Sending.{AllCanBeSent};
ghost use Rattle.daemon_core.specs.State.{new_state, is_number};
ghost use Rattle.daemon_core.specs.declared.events.Event.TheVariants.{EditorBegan, EditorFrame};
ghost use Rattle.rpc_frame.specs.Stream.{StreamEnd};
ghost use Rattle.plain_world.specs.Lines.{file_line, held_line};
ghost use Rattle.plain_world.specs.RawFrames.{Reader, read_behind};
ghost use Rattle.kept_world.specs.Steps.{ended, kept_of, raw_begun, without_raw};
ghost use Rattle.daemon_host.specs.Hosts.{connected_so, cut_off, without_stream};
ghost use Rattle.daemon_host.specs.Streams.{IsReadAs};

use crate::lines;
use crate::streams::KeptStream;
use daemon_core::{Event, Output};
use daemon_server::Daemon;
use file_uri::Base;
use rpc_frame::StreamRead;
use std::alloc::{AllocError, Global};
use std::collections::BTreeMap;
use std::marker::Model;
use tt_base::{Blob, List, SharedPath, Text};

/// A daemon of a script, with the stream of each connection that the script feeds byte by byte.
///
/// It is seen as `kept_world`'s host: the state of the daemon, and by rising number what is kept of each stream.
#[derive(Debug, Drop)]
pub struct Host {
    daemon: Daemon,
    streams: BTreeMap<u64, KeptStream>,
}

impl Model for Host {
    ghost use Rattle.kept_world.specs.Worlds.{KeptHost};

    ghost Value = { KeptHost };

    ghost view = { λ h. record { state = h.daemon; readers = h.streams.entries } };
}

impl Host {
    /// A daemon of this base, without files or connections.
    pub fn new(alloc: Global, base: Base) -> Host
        ensures { result ≡ record { state = new_state base; readers = [] } }
    {
        Host {
            daemon: Daemon::new(alloc, base),
            streams: BTreeMap::new(alloc),
        }
    }

    /// The directory that its URIs are below.
    pub fn base(&self) -> &Base
        ensures { result.now ≡ self.now.state.base }
    {
        self.daemon.base()
    }

    /// How many changes the daemon holds.
    pub fn held(&self) -> u64
        ensures { result ≡ self.now.state.history.held }
    {
        self.daemon.held()
    }

    /// Whether one more frame can be handled, whose change is counted in u64.
    pub fn has_room(&self) -> bool
        ensures { IsTrue result ↔ (self.now.state.history.held < 2 ^ 64 - 2) }
    {
        self.daemon.has_room()
    }

    /// The text of the file at a path, where there is one.
    pub fn view(&self, path: &SharedPath) -> Option<&Text>
        ensures { option_copied result ≡ view_at self.now.state.history path.now }
    {
        self.daemon.view(path)
    }

    /// Whether a connection is one that the script feeds.
    pub fn is_fed(&self, c: u64) -> bool
        ensures { result ≡ is_some (kept_of self.now c) }
    {
        self.streams.contains_key(&c)
    }

    /// An editor's connection begins. After want of memory all connections are gone; files and streams are as they were.
    pub fn begin(&mut self, alloc: Global, n: u64) -> Result<(), AllocError>
        ensures ok { OnOk result (self.new ≡ record self.old { state = (serve self.old.state (EditorBegan n)).state }) }
        ensures err { OnErr result (self.new ≡ cut_off self.old) }
    {
        self.daemon.begin(alloc, n)
    }

    /// An editor's connection ends.
    pub fn end(&mut self, n: u64)
        ensures { self.new ≡ ended self.old n }
    {
        self.daemon.end(n);
    }

    /// What the daemon does with a frame of this body that comes on connection `n`, and what it sends for it.
    ///
    /// After want of memory nothing is sent and all connections are gone; files and streams are as they were.
    pub fn handle_frame(
        &mut self,
        alloc: Global,
        n: u64,
        body: Blob,
    ) -> Result<List<Output>, AllocError>
        requires { self.old.state.history.held < 2 ^ 64 - 2 }
        ensures outputs { IfOk result (λ outputs. outputs ≡ (serve self.old.state (EditorFrame n body)).outputs) }
        ensures state { OnOk result (self.new ≡ record self.old { state = (serve self.old.state (EditorFrame n body)).state }) }
        // Each message that is sent is read as that message.
        ensures sent { OnOk result (AllCanBeSent self.old.state (EditorFrame n body)) }
        ensures err { OnErr result (self.new ≡ cut_off self.old) }
    {
        self.daemon.handle(alloc, Event::EditorFrame(n, body))
    }

    /// A connection that the script feeds begins, with a stream of which nothing has come; what was kept of another stream
    /// on that number is gone.
    ///
    /// After want of memory files and streams are as they were, and connections may be gone.
    pub fn begin_fed(&mut self, alloc: Global, c: u64) -> Result<(), AllocError>
        ensures ok { OnOk result (self.new ≡ raw_begun self.old c) }
        ensures err { OnErr result (self.new ≡ connected_so self.new.state.connections self.old) }
    {
        let stream = KeptStream::new(alloc)?;
        self.daemon.begin(alloc, c)?;
        self.streams.insert(c, stream)?;
        Ok(())
    }

    /// A connection that the script feeds ends, with its stream.
    pub fn end_fed(&mut self, c: u64)
        ensures { self.new ≡ without_raw c self.old }
    {
        let _ = self.streams.len();
        let _ = self.streams.remove(&c);
        self.daemon.end(c);
    }

    /// A piece of the stream of a connection comes, and is read behind what was kept: the bodies that end in it, and the
    /// fault of the stream, if it has one. The daemon has not handled the bodies yet.
    ///
    /// After want of memory that connection has ended.
    pub fn feed(&mut self, alloc: Global, c: u64, piece: &[u8]) -> Result<StreamRead, AllocError>
        requires { IsSome (kept_of self.old c) }
        // The bodies and the fault are those that every reader of streams gives,
        ensures read { IfOk result (λ read. (reader : Reader) (kept : StreamEnd) → kept_of self.old c ≡ Some kept
            → IsReadAs (read_behind reader kept piece.now) read) }
        // and so is what is kept then.
        ensures kept { OnOk result ((reader : Reader) (kept : StreamEnd) → kept_of self.old c ≡ Some kept
            → self.new ≡ record self.old { readers = set_value (is_number c) self.old.readers (read_behind reader kept piece.now).kept }) }
        ensures err { OnErr result (self.new ≡ without_raw c self.old) }
    {
        let read = self.read_on(alloc, c, piece);
        if read.is_err() {
            self.end(c);
        }
        read
    }

    /// The same; after want of memory the stream is gone, and its connection is not.
    fn read_on(&mut self, alloc: Global, c: u64, piece: &[u8]) -> Result<StreamRead, AllocError>
        requires { IsSome (kept_of self.old c) }
        ensures read { IfOk result (λ read. (reader : Reader) (kept : StreamEnd) → kept_of self.old c ≡ Some kept
            → IsReadAs (read_behind reader kept piece.now) read) }
        ensures kept { OnOk result ((reader : Reader) (kept : StreamEnd) → kept_of self.old c ≡ Some kept
            → self.new ≡ record self.old { readers = set_value (is_number c) self.old.readers (read_behind reader kept piece.now).kept }) }
        ensures err { OnErr result (self.new ≡ without_stream c self.old) }
    {
        let _ = self.streams.len();
        let Some(stream) = self.streams.remove(&c) else {
            unreachable!()
        };
        let (stream, read) = stream.feed(alloc, piece)?;
        self.streams.insert(c, stream)?;
        Ok(read)
    }

    /// The line of a file, for the daemon's number `d`.
    pub fn write_file(&self, alloc: Global, d: u64, path: &SharedPath) -> Result<String, AllocError>
        ensures { IfOk result (λ line. string_bytes line ≡ file_line d path.now (view_at self.now.state.history path.now)) }
    {
        lines::write_file(alloc, d, path, self.view(path))
    }

    /// The line of how many changes the daemon holds, for its number `d`.
    pub fn write_held(&self, alloc: Global, d: u64) -> Result<String, AllocError>
        ensures { IfOk result (λ line. string_bytes line ≡ held_line d self.now.state.history.held) }
    {
        lines::write_held(alloc, d, self.held())
    }
}
