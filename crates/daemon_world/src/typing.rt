//! What an editor does itself: each move of it, in steps of which each leaves the world in order.

ghost use Rattle.std.specs.Prelude.{◌≡◌, ◌≢◌, ◌+◌, [], ◌∷◌, ◌++◌, true, is_some, length, Some, IfOk, OnOk, OnErr, string_bytes};
ghost use Rattle.daemon_core.specs.Outputs.{serve};
ghost use Rattle.daemon_core.specs.declared.events.Event.TheVariants.{EditorBegan};
ghost use Rattle.editor_client.specs.Editor.{change_at};
ghost use Rattle.editor_client.specs.Requests.{open_request, close_request};
ghost use Rattle.frame_world.specs.Laws.{IsReadBack, TellsOf};
ghost use Rattle.frame_world.specs.Seats.{opened, closed, typed};
ghost use Rattle.kept_world.specs.Moves.{IsJoined, IsTyped, IsClosed, IsOpened};
ghost use Rattle.kept_world.specs.Steps.{joins, types, closes, opens, cuts, shows, ended, quietly, prints};
ghost use Rattle.kept_world.specs.Worlds.{KeptHost, KeptEditor, next_connection, running, editor_of, with_host, with_editor, cut_off};

use crate::machine::Machine;
use editor_client::ClientState;
use editor_seat::EditorSeat;
use std::alloc::{AllocError, Global};
use tt_base::{SharedPath, Text};

/// A change of an editor, where its counts have room for one more.
fn type_in(
    alloc: Global,
    editor: &mut EditorSeat,
    place: u64,
    gone: u64,
    text: &Text,
) -> Result<(), AllocError>
    ensures ok { OnOk result (editor.new ≡ record editor.old { seat = typed (change_at place gone text.now) editor.old.seat }) }
    ensures tells { OnOk result (TellsOf editor.old.seat.client (change_at place gone text.now)) }
    ensures err { OnErr result (editor.new ≡ editor.old) }
{
    if !editor.has_room() {
        return Err(AllocError);
    }
    match editor.type_text(alloc, place as usize, gone as usize, text) {
        Ok(()) => Ok(()),
        Err(_) => Err(AllocError),
    }
}

/// An editor closes its text, where its counts have room for one more request.
fn close_in(alloc: Global, editor: &mut EditorSeat) -> Result<(), AllocError>
    requires { editor.old.seat.client.state ≢ ClientState.Closed }
    ensures ok { OnOk result (editor.new ≡ record editor.old { seat = closed editor.old.seat }) }
    ensures read { OnOk result (IsReadBack editor.old.seat.client (close_request editor.old.seat.client)) }
    ensures err { OnErr result (editor.new ≡ editor.old) }
{
    if !editor.has_room() {
        return Err(AllocError);
    }
    editor.close(alloc)
}

/// An editor opens its text on the connection that it has, where its counts have room for one more request.
fn open_in(alloc: Global, editor: &mut EditorSeat) -> Result<(), AllocError>
    requires { editor.old.seat.client.state ≡ ClientState.Closed }
    ensures ok { OnOk result (editor.new ≡ record editor.old { seat = opened editor.old.seat }) }
    ensures read { OnOk result (IsReadBack editor.old.seat.client (open_request editor.old.seat.client)) }
    ensures err { OnErr result (editor.new ≡ editor.old) }
{
    if !editor.has_room() {
        return Err(AllocError);
    }
    editor.open(alloc)
}

/// The same on a new connection.
fn open_on_in(alloc: Global, editor: &mut EditorSeat, n: u64) -> Result<(), AllocError>
    requires { editor.old.seat.client.state ≡ ClientState.Closed }
    ensures ok { OnOk result (editor.new ≡ record editor.old { connection = Some n; seat = opened editor.old.seat }) }
    ensures read { OnOk result (IsReadBack editor.old.seat.client (open_request editor.old.seat.client)) }
    ensures err { OnErr result (editor.new ≡ editor.old) }
{
    if !editor.has_room() {
        return Err(AllocError);
    }
    editor.open_on(alloc, n)
}

impl Machine {
    /// A connection of an editor begins at a daemon.
    fn begin_at(&mut self, alloc: Global, d: u64, n: u64) -> Result<(), AllocError>
        requires { is_some (running self.old d) ≡ true }
        ensures { OnOk result ((h : KeptHost) → running self.old d ≡ Some h
            → self.new ≡ with_host self.old d (record h { state = (serve h.state (EditorBegan n)).state })) }
    {
        let Some(host) = &mut self.hosts[d as usize] else {
            unreachable!()
        };
        host.begin(alloc, n)
    }

    /// A connection of an editor ends at a daemon.
    fn end_at(&mut self, d: u64, n: u64)
        requires { is_some (running self.old d) ≡ true }
        ensures { (h : KeptHost) → running self.old d ≡ Some h → self.new ≡ with_host self.old d (ended h n) }
    {
        let Some(host) = &mut self.hosts[d as usize] else {
            unreachable!()
        };
        host.end(n);
    }

    /// One more editor is there, on the next connection.
    fn add(&mut self, editor: EditorSeat) -> Result<(), AllocError>
        requires connection { editor.connection ≡ Some (next_connection self.old) }
        requires runs { is_some (running self.old editor.daemon) ≡ true }
        ensures { OnOk result (self.new ≡ record self.old { editors = self.old.editors ++ editor ∷ []; connections = self.old.connections + 1 }) }
    {
        let e = self.editors.len() as u64;
        self.owners.reserve(1)?;
        self.editors.reserve(1)?;
        self.owners.push_reserved(e);
        self.editors.push_reserved(editor);
        Ok(())
    }

    /// One more editor joins a daemon, with a text that it shows and opens. Where no number is left for its connection it is as where
    /// memory runs out.
    pub(crate) fn join(
        &mut self,
        alloc: Global,
        d: u64,
        path: &SharedPath,
        text: &Text,
    ) -> Result<(), AllocError>
        requires { is_some (joins self.old (length self.old.editors) d path.now text.now) ≡ true }
        ensures { OnOk result (IsJoined self.old (length self.old.editors) d path.now text.now (quietly self.new)) }
    {
        let n = self.next_connection()?;
        let text = text.copied(alloc)?;
        let Some(host) = self.host(d) else {
            unreachable!()
        };
        let editor = EditorSeat::join(alloc, host.base(), d, path, n, text)?;
        self.begin_at(alloc, d, n)?;
        self.add(editor)
    }

    /// So many characters at a place of an editor's text give way to a text.
    pub(crate) fn type_text(
        &mut self,
        alloc: Global,
        e: u64,
        place: u64,
        gone: u64,
        text: &Text,
    ) -> Result<(), AllocError>
        requires { is_some (types self.old e place gone text.now) ≡ true }
        ensures { OnOk result (IsTyped self.old e place gone text.now (quietly self.new)) }
    {
        type_in(alloc, &mut self.editors[e as usize], place, gone, text)
    }

    /// An editor closes its text.
    pub(crate) fn close(&mut self, alloc: Global, e: u64) -> Result<(), AllocError>
        requires { is_some (closes self.old e) ≡ true }
        ensures { OnOk result (IsClosed self.old e (quietly self.new)) }
    {
        close_in(alloc, &mut self.editors[e as usize])
    }

    /// An editor that has a connection opens its text on it.
    fn open_again(&mut self, alloc: Global, e: u64) -> Result<(), AllocError>
        requires possible { is_some (opens self.old e) ≡ true }
        requires connected { (x : KeptEditor) → editor_of self.old e ≡ Some x → is_some x.connection ≡ true }
        ensures { OnOk result (IsOpened self.old e (quietly self.new)) }
    {
        open_in(alloc, &mut self.editors[e as usize])
    }

    /// An editor opens its text on the next connection, which has begun at its daemon.
    fn connect(&mut self, alloc: Global, e: u64, n: u64) -> Result<(), AllocError>
        requires number { n ≡ next_connection self.old }
        requires there { is_some (editor_of self.old e) ≡ true }
        requires closed { (x : KeptEditor) → editor_of self.old e ≡ Some x → x.seat.client.state ≡ ClientState.Closed }
        requires runs { (x : KeptEditor) → editor_of self.old e ≡ Some x → is_some (running self.old x.daemon) ≡ true }
        ensures world { OnOk result ((x : KeptEditor) → editor_of self.old e ≡ Some x
            → self.new ≡ with_editor (record self.old { connections = self.old.connections + 1 }) e (record x { connection = Some n; seat = opened x.seat })) }
        ensures read { OnOk result ((x : KeptEditor) → editor_of self.old e ≡ Some x → IsReadBack x.seat.client (open_request x.seat.client)) }
    {
        self.owners.reserve(1)?;
        open_on_in(alloc, &mut self.editors[e as usize], n)?;
        self.owners.push_reserved(e);
        Ok(())
    }

    /// An editor opens its text, on the connection that it has, or on a new one to its daemon.
    pub(crate) fn open(&mut self, alloc: Global, e: u64) -> Result<(), AllocError>
        requires { is_some (opens self.old e) ≡ true }
        ensures { OnOk result (IsOpened self.old e (quietly self.new)) }
    {
        let Some(editor) = self.editor(e) else {
            unreachable!()
        };
        if editor.connection().is_some() {
            return self.open_again(alloc, e);
        }
        let d = editor.daemon();
        let n = self.next_connection()?;
        self.begin_at(alloc, d, n)?;
        self.connect(alloc, e, n)
    }

    /// An editor's connection ends, for the editor alone.
    fn cut_editor(&mut self, e: u64)
        requires { is_some (editor_of self.old e) ≡ true }
        ensures { (x : KeptEditor) → editor_of self.old e ≡ Some x → self.new ≡ with_editor self.old e (cut_off x) }
    {
        self.editors[e as usize].cut();
    }

    /// The connection of an editor ends. It takes no memory.
    pub(crate) fn cut(&mut self, e: u64)
        requires { is_some (cuts self.old e) ≡ true }
        ensures { cuts self.old e ≡ Some (quietly self.new) }
    {
        let Some(editor) = self.editor(e) else {
            unreachable!()
        };
        let d = editor.daemon();
        let Some(n) = editor.connection() else {
            unreachable!()
        };
        self.cut_editor(e);
        self.end_at(d, n);
    }

    /// What is shown of an editor.
    pub(crate) fn show(&self, alloc: Global, e: u64) -> Result<String, AllocError>
        requires { is_some (shows self.now e) ≡ true }
        ensures { IfOk result (λ line. shows self.now e ≡ Some (prints self.now (string_bytes line))) }
    {
        let Some(editor) = self.editor(e) else {
            unreachable!()
        };
        editor.write_show(alloc, e)
    }
}
