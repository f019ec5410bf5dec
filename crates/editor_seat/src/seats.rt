ghost use Rattle.std.specs.Prelude.{◌≡◌, ◌≢◌, ◌↔◌, ◌+◌, [], ◌∷◌, ◌++◌, length, string_bytes, None, Some};
ghost use Rattle.std.specs.Prelude.{IfOk, IfErr, IfSome, IfNone, IsNone, IsTrue, OnOk, OnErr, MatchResult};
ghost use Rattle.editor_client.specs.Editor.{HasRoom, change_at};
ghost use Rattle.editor_client.specs.Faults.{range_fault, fault_named};
ghost use Rattle.editor_client.specs.Requests.{open_request, close_request};
ghost use Rattle.editor_client.specs.declared.notes.HeardNote.{HeardNote as Note};
ghost use Rattle.frame_world.specs.Laws.{IsReadBack, TellsOf};
ghost use Rattle.frame_world.specs.Seats.{Seat, opened, closed, typed, IsDelivered};
ghost use Rattle.kept_world.specs.Moves.{IsNewClient};
ghost use Rattle.kept_world.specs.Steps.{is_busy, word_of, show_line};
ghost use Rattle.kept_world.specs.Worlds.{cut_off};
ghost use Rattle.editor_seat.specs.Delivering.{IsFaultOf};
ghost use Rattle.editor_seat.specs.Joining.{joined};

use crate::faults::DeliverFault;
use crate::reading::body_of;
use editor_client::{Client, ClientState, HeardNote, TypeFault};
use file_uri::{Base, uri_of};
use replay_script::write_text;
use rpc_message::MessageFault;
use std::alloc::{AllocError, Global};
use std::collections::VecDeque;
use std::marker::Model;
use tt_base::{Blob, SharedPath, Text};

/// An editor of a script: a client of one file at a daemon, with what is under way both ways.
///
/// It is seen as a `KeptEditor`: the number of its daemon, the path of its file there, its connection while it has one,
/// and the client with the bodies under way from it and the frames under way to it, each in order.
#[derive(Debug, Drop)]
pub struct EditorSeat {
    daemon: u64,
    path: SharedPath,
    connection: Option<u64>,
    client: Client,
    up: VecDeque<Blob>,
    down: VecDeque<Blob>,
}

impl Model for EditorSeat {
    ghost use Rattle.kept_world.specs.Worlds.{KeptEditor};

    ghost Value = { KeptEditor };

    ghost view = { λ e. record { daemon = e.daemon; path = e.path; connection = e.connection; seat = record { client = e.client; up = e.up.items; down = e.down.items } } };
}

impl EditorSeat {
    /// An editor that shows a text and connects to a daemon by a new connection, on which its `open` is under way. The
    /// file is the one at the path below the base.
    pub fn join(
        alloc: Global,
        base: &Base,
        daemon: u64,
        path: &SharedPath,
        connection: u64,
        text: Text,
    ) -> Result<EditorSeat, AllocError>
        ensures ok { IfOk result (λ editor. editor ≡ joined base.now daemon path.now connection text) }
        ensures client { OnOk result (IsNewClient base.now path.now text) }
    {
        let mut client = Client::new(alloc, uri_of(alloc, base, path)?, text)?;
        let mut up = VecDeque::new(alloc);
        up.push_back(client.open(alloc)?)?;
        Ok(EditorSeat {
            daemon,
            path: path.copied(alloc)?,
            connection: Some(connection),
            client,
            up,
            down: VecDeque::new(alloc),
        })
    }

    /// The number of its daemon.
    pub fn daemon(&self) -> u64
        ensures { result ≡ self.now.daemon }
    {
        self.daemon
    }

    /// The path of its file at its daemon.
    pub fn path(&self) -> &SharedPath
        ensures { result.now ≡ self.now.path }
    {
        &self.path
    }

    /// The number of its connection, while it has one.
    pub fn connection(&self) -> Option<u64>
        ensures { result ≡ self.now.connection }
    {
        self.connection
    }

    /// The text that it shows.
    pub fn shown(&self) -> &Text
        ensures { result.now ≡ self.now.seat.client.text }
    {
        self.client.shown()
    }

    /// Whether it has opened its text.
    pub fn state(&self) -> ClientState
        ensures { result ≡ self.now.seat.client.state }
    {
        self.client.state()
    }

    /// Whether one more request, and one more edit of each side, can be counted in u64.
    pub fn has_room(&self) -> bool
        ensures { IsTrue result ↔ HasRoom self.now.seat.client }
    {
        self.client.has_room()
    }

    /// How many bodies are under way from it.
    pub fn up_len(&self) -> usize
        ensures { result ≡ length self.now.seat.up }
    {
        self.up.len()
    }

    /// How many frames are under way to it.
    pub fn down_len(&self) -> usize
        ensures { result ≡ length self.now.seat.down }
    {
        self.down.len()
    }

    /// Types a change: from a place on, so many characters give way to a text. It is shown at once, and where the text is
    /// not closed the body of an `edit` is under way, which is read as the change.
    ///
    /// A change that ends behind the text is `OutOfRange` with the text's length. Any fault leaves the editor as it was.
    pub fn type_text(
        &mut self,
        alloc: Global,
        place: usize,
        gone: usize,
        text: &Text,
    ) -> Result<(), TypeFault>
        requires { HasRoom self.old.seat.client }
        ensures ok { OnOk result (self.new ≡ record self.old { seat = typed (change_at place gone text.now) self.old.seat }) }
        ensures tells { OnOk result (TellsOf self.old.seat.client (change_at place gone text.now)) }
        ensures fits { OnOk result (range_fault (place + gone) (length self.old.seat.client.text) ≡ None) }
        ensures fault { IfErr result (λ fault. range_fault (place + gone) (length self.old.seat.client.text) ≡ fault_named fault) }
        ensures err { OnErr result (self.new ≡ self.old) }
    {
        let length = self.client.shown().len();
        if place > length || gone > length - place {
            return Err(TypeFault::OutOfRange(length));
        }
        self.up.reserve(1)?;
        if let Some(body) = self.client.type_edit(alloc, place, gone, text)? {
            self.up.push_back_reserved(body);
        }
        Ok(())
    }

    /// Opens its text, on the connection that it has: the body of an `open` is under way. After want of memory the editor is
    /// as it was.
    pub fn open(&mut self, alloc: Global) -> Result<(), AllocError>
        requires closed { self.old.seat.client.state ≡ ClientState.Closed }
        requires room { HasRoom self.old.seat.client }
        ensures ok { OnOk result (self.new ≡ record self.old { seat = opened self.old.seat }) }
        ensures read { OnOk result (IsReadBack self.old.seat.client (open_request self.old.seat.client)) }
        ensures err { OnErr result (self.new ≡ self.old) }
    {
        self.up.reserve(1)?;
        let body = self.client.open(alloc)?;
        self.up.push_back_reserved(body);
        Ok(())
    }

    /// Opens its text on a new connection. After want of memory the editor is as it was.
    pub fn open_on(&mut self, alloc: Global, connection: u64) -> Result<(), AllocError>
        requires closed { self.old.seat.client.state ≡ ClientState.Closed }
        requires room { HasRoom self.old.seat.client }
        ensures ok { OnOk result (self.new ≡ record self.old { connection = Some connection; seat = opened self.old.seat }) }
        ensures read { OnOk result (IsReadBack self.old.seat.client (open_request self.old.seat.client)) }
        ensures err { OnErr result (self.new ≡ self.old) }
    {
        self.open(alloc)?;
        self.connection = Some(connection);
        Ok(())
    }

    /// Closes its text: the body of a `close` is under way. After want of memory the editor is as it was.
    pub fn close(&mut self, alloc: Global) -> Result<(), AllocError>
        requires open { self.old.seat.client.state ≢ ClientState.Closed }
        requires room { HasRoom self.old.seat.client }
        ensures ok { OnOk result (self.new ≡ record self.old { seat = closed self.old.seat }) }
        ensures read { OnOk result (IsReadBack self.old.seat.client (close_request self.old.seat.client)) }
        ensures err { OnErr result (self.new ≡ self.old) }
    {
        self.up.reserve(1)?;
        let body = self.client.close(alloc)?;
        self.up.push_back_reserved(body);
        Ok(())
    }

    /// Its connection ends, with all that is under way. It takes no memory.
    pub fn cut(&mut self)
        ensures { self.new ≡ cut_off self.old }
    {
        self.connection = None;
        self.client.lose();
        self.up.clear();
        self.down.clear();
    }

    /// The first body under way from it, if there is one, which is then no longer under way.
    pub fn take_up(&mut self) -> Option<Blob>
        ensures body { IfSome result (λ body. self.old.seat.up ≡ body ∷ self.new.seat.up) }
        ensures none { IsNone result ↔ (self.old.seat.up ≡ []) }
        ensures still { IfNone result (self.new ≡ self.old) }
        ensures rest { self.new ≡ record self.old { seat = record self.old.seat { up = self.new.seat.up } } }
    {
        self.up.pop_front()
    }

    /// One more frame is under way to it. After want of memory the editor is as it was.
    pub fn receive(&mut self, frame: Blob) -> Result<(), AllocError>
        ensures ok { OnOk result (self.new ≡ record self.old { seat = record self.old.seat { down = self.old.seat.down ++ frame ∷ [] } }) }
        ensures err { OnErr result (self.new ≡ self.old) }
    {
        self.down.push_back(frame)?;
        Ok(())
    }

    /// The first frame under way to it comes to it, and it tells what became of that. Any fault leaves the editor as it was.
    pub fn deliver(&mut self, alloc: Global) -> Result<HeardNote, DeliverFault>
        requires { HasRoom self.old.seat.client }
        ensures delivered { IfOk result (λ note. IsDelivered self.old.seat note self.new.seat) }
        ensures rest { self.new ≡ record self.old { seat = self.new.seat } }
        // A frame that is one body which is a message comes to the client as that message.
        ensures only { (note : Note) (after : Seat) → IsDelivered self.old.seat note after
            → MatchResult result (λ told. (told ≡ note) × (self.new.seat ≡ after)) (λ fault. fault ≡ DeliverFault.Memory) }
        ensures fault { IfErr result (IsFaultOf self.old.seat) }
        // That there is no frame is told before memory is asked for.
        ensures none { (result ≡ Err DeliverFault.NoFrame) ↔ (self.old.seat.down ≡ []) }
        ensures err { OnErr result (self.new ≡ self.old) }
    {
        let Some(frame) = self.down.front() else {
            return Err(DeliverFault::NoFrame);
        };
        let body = body_of(alloc, frame)?;
        match self.client.hear(alloc, body.as_slice()) {
            Ok(note) => {
                let _ = self.down.pop_front();
                Ok(note)
            }
            Err(MessageFault::Refused { .. }) => Err(DeliverFault::NoMessage),
            Err(MessageFault::Memory) => Err(DeliverFault::Memory),
        }
    }

    /// Whether something is under way between it and its daemon.
    fn is_busy(&self) -> bool
        ensures { result ≡ is_busy self.now.seat }
    {
        !self.up.is_empty() || !self.down.is_empty()
    }

    /// How its text stands, as a script's output says it.
    fn word(&self) -> &'static str
        ensures { result.now ≡ word_of self.now }
    {
        if self.connection.is_none() {
            "lost"
        } else if self.is_busy() {
            "busy"
        } else if self.client.state().is_closed() {
            "closed"
        } else {
            "quiet"
        }
    }

    /// The line that is printed of what an editor of this number shows.
    pub fn write_show(&self, alloc: Global, number: u64) -> Result<String, AllocError>
        ensures { IfOk result (λ line. string_bytes line ≡ show_line number self.now) }
    {
        let word = self.word();
        let text = write_text(alloc, self.shown())?;
        format!(in alloc; "show {number} {word} {text}\n")
    }
}
