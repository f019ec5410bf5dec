ghost use Rattle.std.specs.Prelude.{◌≡◌, ◌≢◌, ◌⊎◌, ◌↔◌, ◌+◌, ◌-◌, ◌^◌, ◌<◌, ◌≤◌, false, length, IfOk, IfErr, IfSome, IsTrue, OnOk, OnErr, MatchResult};
ghost use Rattle.std.specs.List.{splice};
ghost use Rattle.std.specs.Str.{is_utf8};
ghost use Rattle.rpc_message.specs.Json.{json_of};
ghost use Rattle.rpc_message.specs.Replies.{IsReply, fault_of};
ghost use Rattle.rpc_message.specs.declared.faults.Cause.TheVariants.{ParseError};
ghost use Rattle.rpc_message.specs.declared.faults.MessageFault.TheVariants as message_fault;
ghost use Rattle.rpc_message.specs.declared.messages.MessageId.TheVariants.{Null};
ghost use Rattle.rpc_message.specs.declared.messages.ToEditor.{ToEditor};
ghost use Rattle.editor_client.specs.Editor.{HasRoom, new_editor, opened, closed, lost, change_at, typed};
ghost use Rattle.editor_client.specs.Requests.{open_request, close_request, edit_request, body_of, edit_body, IsNextRequest};
ghost use Rattle.editor_client.specs.Hearing.{waits_for, to_show, with_shown, note_of_shown, with_success, note_of_success, with_refusal, heard, note_of, IsHeard};
ghost use Rattle.editor_client.specs.Faults.{range_fault, fault_named};

use crate::faults::TypeFault;
use crate::notes::HeardNote;
use crate::states::ClientState;
use rpc_message::{FromEditor, MessageFault, MessageId, ToEditor, read_reply, write_request};
use std::alloc::{AllocError, Global};
use std::marker::Model;
use text_position::{EditsFault, from_edits, position_of};
use tt_base::{Blob, List, Text, TextEdit, Uri};

/// An editor of one text.
///
/// Contracts see its URI, the text that it shows, whether it has opened it, how many requests it has sent,
/// the id of its last open, and the two counts of edits since then.
#[derive(Debug, Drop)]
pub struct Client {
    uri: Uri,
    text: Text,
    state: ClientState,
    requests: u64,
    last_open: Option<u64>,
    own: u64,
    shown: u64,
}

impl Model for Client {
    ghost use Rattle.editor_client.specs.Editor.{Editor};

    ghost Value = { Editor };

    ghost view = { λ c. record { uri = c.uri; text = c.text; state = c.state; requests = c.requests; last_open = c.last_open; own = c.own; shown = c.shown } };
}

/// The same URI in memory of its own.
fn copied(alloc: Global, uri: &Uri) -> Result<Uri, AllocError>
    ensures { IfOk result (λ copy. copy ≡ uri.now) }
{
    Uri::from_str(alloc, uri.as_str())
}

impl Client {
    /// An editor that shows this text and has not opened it. The call takes no memory, and never fails.
    pub fn new(_alloc: Global, uri: Uri, text: Text) -> Result<Client, AllocError>
        ensures { result ≡ Ok (new_editor uri text) }
    {
        Ok(Client {
            uri,
            text,
            state: ClientState::Closed,
            requests: 0,
            last_open: None,
            own: 0,
            shown: 0,
        })
    }

    /// The text that it shows.
    pub fn shown(&self) -> &Text
        ensures { result.now ≡ self.now.text }
    {
        &self.text
    }

    /// Whether it has opened its text.
    pub fn state(&self) -> ClientState
        ensures { result ≡ self.now.state }
    {
        self.state
    }

    /// Whether one more request, and one more edit of each side, can be counted in u64.
    pub fn has_room(&self) -> bool
        ensures { IsTrue result ↔ HasRoom self.now }
    {
        self.requests < u64::MAX && self.own < u64::MAX && self.shown < u64::MAX
    }

    /// Asks for the text: the body of an `open` with the text that is shown. Both counts begin again.
    /// After want of memory the editor is as it was.
    pub fn open(&mut self, alloc: Global) -> Result<Blob, AllocError>
        requires closed { self.old.state ≡ ClientState.Closed }
        requires room { HasRoom self.old }
        ensures ok { OnOk result (self.new ≡ opened self.old) }
        ensures body { IfOk result (λ body. body ≡ body_of (open_request self.old) self.old) }
        ensures back { IfOk result (IsNextRequest self.old (open_request self.old)) }
        ensures err { OnErr result (self.new ≡ self.old) }
    {
        let message = FromEditor::Open {
            uri: copied(alloc, &self.uri)?,
            content: self.text.copied(alloc)?,
        };
        let body = write_request(alloc, self.requests + 1, &message)?;
        self.requests += 1;
        self.state = ClientState::Opening;
        self.last_open = Some(self.requests);
        self.own = 0;
        self.shown = 0;
        Ok(body)
    }

    /// Closes the text: the body of a `close`. After want of memory the editor is as it was.
    pub fn close(&mut self, alloc: Global) -> Result<Blob, AllocError>
        requires open { self.old.state ≢ ClientState.Closed }
        requires room { HasRoom self.old }
        ensures ok { OnOk result (self.new ≡ closed self.old) }
        ensures body { IfOk result (λ body. body ≡ body_of (close_request self.old) self.old) }
        ensures back { IfOk result (IsNextRequest self.old (close_request self.old)) }
        ensures err { OnErr result (self.new ≡ self.old) }
    {
        let message = FromEditor::Close {
            uri: copied(alloc, &self.uri)?,
        };
        let body = write_request(alloc, self.requests + 1, &message)?;
        self.requests += 1;
        self.state = ClientState::Closed;
        Ok(body)
    }

    /// The connection has ended. The text that is shown stays.
    pub fn lose(&mut self)
        ensures { self.new ≡ lost self.old }
    {
        self.state = ClientState::Closed;
    }

    /// The body of an `edit` with one edit: what is typed.
    fn edit_body(
        &self,
        alloc: Global,
        start: usize,
        end: usize,
        text: &Text,
    ) -> Result<Blob, AllocError>
        requires order { start ≤ end }
        requires within { end ≤ length self.now.text }
        requires room { HasRoom self.now }
        ensures body { IfOk result (λ body. body ≡ body_of (edit_request (record { start = start; end = end; text = text.now }) self.now) self.now) }
        ensures back { IfOk result (IsNextRequest self.now (edit_request (record { start = start; end = end; text = text.now }) self.now)) }
    {
        let mut edits = Vec::new(alloc);
        edits.push(TextEdit {
            start: position_of(&self.text, start),
            end: position_of(&self.text, end),
            replacement: text.copied(alloc)?,
        })?;
        let message = FromEditor::Edit {
            uri: copied(alloc, &self.uri)?,
            revision: self.shown,
            edits: List::from_vec(edits),
        };
        write_request(alloc, self.requests + 1, &message)
    }

    /// Types a change: from the place `at` on, `gone` characters give way to a text. It is shown at once.
    /// Where the text is not closed, the body of an `edit` comes.
    ///
    /// A change that ends behind the text is `OutOfRange` with the text's length. Any fault leaves the
    /// editor as it was.
    pub fn type_edit(
        &mut self,
        alloc: Global,
        at: usize,
        gone: usize,
        text: &Text,
    ) -> Result<Option<Blob>, TypeFault>
        requires { HasRoom self.old }
        ensures ok { OnOk result (self.new ≡ typed (change_at at gone text.now) self.old) }
        ensures text { OnOk result (self.new.text ≡ splice self.old.text at (at + gone) text.now) }
        ensures body { IfOk result (λ body. body ≡ edit_body (change_at at gone text.now) self.old) }
        ensures back { IfOk result (λ body. IfSome body (IsNextRequest self.old (edit_request (change_at at gone text.now) self.old))) }
        ensures fits { OnOk result (range_fault (at + gone) (length self.old.text) ≡ None) }
        ensures fault { IfErr result (λ fault. range_fault (at + gone) (length self.old.text) ≡ fault_named fault) }
        ensures err { OnErr result (self.new ≡ self.old) }
    {
        let length = self.text.len();
        if at > length || gone > length - at {
            return Err(TypeFault::OutOfRange(length));
        }
        if self.state.is_closed() {
            self.text.splice_text(alloc, at, at + gone, text)?;
            return Ok(None);
        }
        let body = self.edit_body(alloc, at, at + gone, text)?;
        self.text.splice_text(alloc, at, at + gone, text)?;
        self.requests += 1;
        self.own += 1;
        Ok(Some(body))
    }

    /// Whether a daemon's edit of this URI and revision is for the text that is shown.
    fn waits_for(&self, uri: &Uri, revision: u64) -> bool
        ensures { result ≡ waits_for uri.now revision self.now }
    {
        self.state == ClientState::Open && revision == self.own && *uri == self.uri
    }

    /// Shows a daemon's edit and counts it, or passes over it.
    fn show(
        &mut self,
        alloc: Global,
        uri: &Uri,
        revision: u64,
        edits: &[TextEdit],
    ) -> Result<HeardNote, AllocError>
        requires { HasRoom self.old }
        ensures ok { OnOk result (self.new ≡ with_shown (to_show uri.now revision edits.now self.old) self.old) }
        ensures note { IfOk result (λ note. note ≡ note_of_shown (to_show uri.now revision edits.now self.old)) }
        ensures err { OnErr result (self.new ≡ self.old) }
    {
        if !self.waits_for(uri, revision) {
            return Ok(HeardNote::Ignored);
        }
        match from_edits(alloc, &self.text, edits) {
            Ok(delta) => {
                delta.apply_at_once(alloc, &mut self.text)?;
                self.shown += 1;
                Ok(HeardNote::Shown)
            }
            Err(EditsFault::BadPosition(_) | EditsFault::BackwardRange(_)) => {
                Ok(HeardNote::Ignored)
            }
            Err(EditsFault::Memory) => Err(AllocError),
        }
    }

    /// A request with this id has succeeded.
    fn admit(&mut self, id: &MessageId) -> HeardNote
        ensures new { self.new ≡ with_success id.now self.old }
        ensures note { result ≡ note_of_success id.now self.old }
    {
        match (id, self.last_open) {
            (MessageId::Number(id), Some(opening)) if *id == opening => {
                if self.state == ClientState::Opening {
                    self.state = ClientState::Open;
                }
                HeardNote::Replied
            }
            _ => HeardNote::Other,
        }
    }

    /// A request with this id was refused.
    fn refuse(&mut self, id: &MessageId)
        ensures { self.new ≡ with_refusal id.now self.old }
    {
        if let (MessageId::Number(id), Some(opening)) = (id, self.last_open)
            && opening <= *id
            && *id <= self.requests
        {
            self.state = ClientState::Closed;
        }
    }

    /// Does what a message asks for, and tells of it.
    fn take(&mut self, alloc: Global, message: &ToEditor) -> Result<HeardNote, AllocError>
        requires { HasRoom self.old }
        ensures ok { OnOk result (self.new ≡ heard message.now self.old) }
        ensures note { IfOk result (λ note. note ≡ note_of message.now self.old) }
        ensures err { OnErr result (self.new ≡ self.old) }
    {
        match message {
            ToEditor::Success(id) => Ok(self.admit(id)),
            ToEditor::Refused(id, refusal) => {
                self.refuse(id);
                Ok(HeardNote::RefusedBy(refusal.code()))
            }
            ToEditor::Edit {
                uri,
                revision,
                edits,
            } => self.show(alloc, uri, *revision, edits.as_slice()),
        }
    }

    /// Hears one body, and tells what became of it.
    ///
    /// A body that is no message to an editor is `ParseError` or `InvalidRequest`. Any fault leaves the
    /// editor as it was.
    pub fn hear(&mut self, alloc: Global, body: &[u8]) -> Result<HeardNote, MessageFault>
        requires { HasRoom self.old }
        ensures heard { IfOk result (λ note. IsHeard body.now self.old note self.new) }
        // A body that is a message is heard as that one.
        ensures only { (message : ToEditor) → IsReply body.now message
            → MatchResult result
            (λ note. (note ≡ note_of message self.old) × (self.new ≡ heard message self.old))
            (λ fault. fault ≡ message_fault.Memory) }
        ensures fault { IfErr result (λ fault. (fault ≡ message_fault.Memory) ⊎ (fault ≡ fault_of (json_of body.now))) }
        // Bytes that are not UTF-8 are refused before memory is asked for.
        ensures no_text { is_utf8 body.now ≡ false → result ≡ Err (message_fault.Refused (Some Null) ParseError) }
        ensures err { OnErr result (self.new ≡ self.old) }
    {
        let message = read_reply(alloc, body)?;
        let note = self.take(alloc, &message)?;
        Ok(note)
    }
}
