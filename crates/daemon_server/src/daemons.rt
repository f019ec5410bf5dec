ghost use Rattle.std.specs.Prelude.{◌≡◌, ◌↔◌, ◌<◌, ◌^◌, ◌-◌, [], IsTrue, IfOk, OnOk, OnErr};
ghost use Rattle.std.specs.Option.{option_copied};
ghost use Rattle.daemon_core.specs.History.{view_at};
ghost use Rattle.daemon_core.specs.Outputs.{serve};
ghost use Rattle.daemon_core.specs.Sending.{AllCanBeSent};
ghost use Rattle.daemon_core.specs.State.{new_state};
ghost use Rattle.daemon_core.specs.declared.events.Event.TheVariants.{EditorBegan, Ended, EditorFrame};

use crate::frames::{make_change, serve_frame};
use daemon_core::{Event, Output};
use daemon_links::{Connections, Files, OpenFiles};
use file_uri::Base;
use std::alloc::{AllocError, Global};
use std::marker::Model;
use std::mem::replace;
use tt_base::{Blob, List, SharedPath, Text};

/// A daemon: the files below its base, and the connections of its editors.
///
/// It is seen as the state of `daemon_core`, in which each link leads to the daemon's text of its file.
#[derive(Debug, Drop)]
pub struct Daemon {
    base: Base,
    files: Files,
    connections: Connections,
}

impl Model for Daemon {
    ghost use Rattle.daemon_core.specs.Laws.{IsServing};
    ghost use Rattle.daemon_core.specs.State.{State};
    ghost use Rattle.daemon_server.specs.Parts.{state_of};

    ghost Value = { State };

    ghost view = { λ d. state_of d.base d.files d.connections };

    ghost invariant = { λ d. IsServing (state_of d.base d.files d.connections) };
}

impl Daemon {
    /// A daemon of this base, without files or connections.
    pub fn new(alloc: Global, base: Base) -> Daemon
        ensures { result ≡ new_state base }
    {
        Daemon {
            base,
            files: Files::none(alloc),
            connections: Connections::none(alloc),
        }
    }

    /// The directory that its URIs are below.
    pub fn base(&self) -> &Base
        ensures { result.now ≡ self.now.base }
    {
        &self.base
    }

    /// How many changes the daemon holds.
    pub fn held(&self) -> u64
        ensures { result ≡ self.now.history.held }
    {
        self.files.held()
    }

    /// Whether one more event can be handled, whose change is counted in u64.
    pub fn has_room(&self) -> bool
        ensures { IsTrue result ↔ (self.now.history.held < 2 ^ 64 - 2) }
    {
        self.held() < u64::MAX - 1
    }

    /// The text of the file at a path, where there is one.
    pub fn view(&self, path: &SharedPath) -> Option<&Text>
        ensures { option_copied result ≡ view_at self.now.history path.now }
    {
        self.files.view(path)
    }

    /// A connection begins. After want of memory all connections are gone, and the files are as they were.
    pub fn begin(&mut self, alloc: Global, n: u64) -> Result<(), AllocError>
        ensures ok { OnOk result (self.new ≡ (serve self.old (EditorBegan n)).state) }
        ensures err { OnErr result (self.new ≡ record self.old { connections = [] }) }
    {
        let mut connections = replace(&mut self.connections, Connections::none(alloc));
        connections.put(n, OpenFiles::none(alloc))?;
        self.connections = connections;
        Ok(())
    }

    /// A connection ends, if there is one.
    pub fn end(&mut self, n: u64)
        ensures { self.new ≡ (serve self.old (Ended n)).state }
    {
        let _ = self.connections.take(n);
    }

    /// A frame with this body comes on a connection.
    fn hear(&mut self, alloc: Global, n: u64, body: &Blob) -> Result<List<Output>, AllocError>
        requires { self.old.history.held < 2 ^ 64 - 2 }
        ensures ok { IfOk result (λ outputs. serve self.old (EditorFrame n body.now) ≡ record { state = self.new; outputs = outputs }) }
        ensures sent { OnOk result (AllCanBeSent self.old (EditorFrame n body.now)) }
        ensures err { OnErr result (self.new ≡ record self.old { connections = [] }) }
    {
        let mut connections = replace(&mut self.connections, Connections::none(alloc));
        let served = serve_frame(
            alloc,
            &self.base,
            &self.files,
            &mut connections,
            n,
            body.as_slice(),
        )?;
        make_change(alloc, &mut self.files, &served.change)?;
        self.connections = connections;
        Ok(served.sent)
    }

    /// What the daemon does with an event, and what it sends for it.
    ///
    /// Where memory runs out nothing is sent, all connections are gone, and the files are as they were.
    pub fn handle(&mut self, alloc: Global, event: Event) -> Result<List<Output>, AllocError>
        requires { self.old.history.held < 2 ^ 64 - 2 }
        ensures ok { IfOk result (λ outputs. serve self.old event ≡ record { state = self.new; outputs = outputs }) }
        // Each message that is sent is read as that message.
        ensures sent { OnOk result (AllCanBeSent self.old event) }
        ensures err { OnErr result (self.new ≡ record self.old { connections = [] }) }
    {
        match event {
            Event::EditorBegan(n) => {
                self.begin(alloc, n)?;
                List::empty(alloc)
            }
            Event::Ended(n) => {
                self.end(n);
                List::empty(alloc)
            }
            Event::EditorFrame(n, body) => self.hear(alloc, n, &body),
        }
    }
}
