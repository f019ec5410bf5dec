ghost use Rattle.std.specs.Prelude.{◌≡◌, ◌+◌, ◌-◌, ◌^◌, ◌<◌, ◌++◌, ◌∷◌, true, length, map, None, [], ◌==◌, IfOk, OnOk, OnErr};
ghost use Rattle.delta.specs.Cells.{base_length, nothing};
ghost use Rattle.editor_bridge.specs.Link.{with_edit, carried_edit, new_link, first_deltas};
ghost use Rattle.editor_bridge.specs.Faults.{edit_fault};
ghost use Rattle.editor_bridge.specs.Frames.{frames};
ghost use Rattle.bridge_world.specs.Kept.{as_kind, as_verdict};
ghost use Rattle.bridge_world.specs.Plain.{Accepts};
ghost use Rattle.bridge_world.specs.Room.{new_counted};
ghost use Rattle.bridge_world.specs.Counted.{Opens, Edits, Closes, typed, opened, closed, lost, pushed, told, answered, ended};
ghost use Rattle.bridge_world.specs.Counted.{aged_frame, new_frame, linked, took, handled_by, handled, effect_by, shown_if, heard, delivered};
ghost use Rattle.bridge_world.specs.Steps.{shows, FrameApplies, FirstApplies, CanTake, CanTakeFirst, first_effect, IsForLink, link_has_room, has_room, LinkHasRoom, HeldHasRoom, HasRoom};

use crate::marks::{Cause, Kind, Mark, State, Verdict};
use delta::{Delta, replace_all};
use editor_bridge::{Bridge, BridgeFrame, Taken};
use std::alloc::{AllocError, Global};
use std::marker::Model;
use std::mem::replace;
use tt_base::{List, Text};

/// What an editor tells the daemon.
#[derive(Debug, Drop)]
pub enum Message {
    /// It opens its text, which is this.
    Opens(Text),
    /// Its text has changed. The number says how many of the daemon's deltas it had shown.
    Edits(u64, Delta),
    /// It closes its text.
    Closes,
}

/// A message on its way to the daemon, with its session.
#[derive(Debug, Drop)]
pub struct Sent {
    /// The number of the editor's open that it belongs to.
    pub session: u64,
    /// What the editor tells.
    pub message: Message,
}

impl Model for Sent {
    ghost use Rattle.bridge_world.specs.Counted as counted;
    ghost use Rattle.bridge_world.specs.Kept.{as_message};

    ghost Value = { counted.Sent };

    ghost view = { λ m. record { session = m.session; message = as_message m.message } };
}

/// A frame on its way to an editor. An answer has neither a number nor a delta.
#[derive(Debug, Drop)]
pub struct Frame {
    /// What it is, and its session.
    pub mark: Mark,
    /// How many of the editor's deltas of the session the text has that it is for; 0 in an answer.
    pub revision: u64,
    /// What the editor is to show; empty in an answer.
    pub delta: Delta,
}

impl Model for Frame {
    ghost use Rattle.bridge_world.specs.Counted as counted;
    ghost use Rattle.bridge_world.specs.Kept.{as_mark};

    ghost Value = { counted.Frame };

    ghost view = { λ f. record { mark = as_mark f.mark; revision = f.revision; delta = f.delta } };
}

/// The daemon's link to an editor.
#[derive(Debug, Drop)]
pub struct Held {
    /// The number of the editor's open that it belongs to.
    pub session: u64,
    /// How many of the daemon's deltas of this link the editor has shown.
    pub seen: u64,
    /// The link itself, with its counts.
    pub link: Bridge,
}

impl Model for Held {
    ghost use Rattle.bridge_world.specs.Counted as counted;

    ghost Value = { counted.Held };

    ghost view = { λ h. record { session = h.session; seen = h.seen; link = h.link } };
}

/// An editor of the text, and what is under way between it and its link.
#[derive(Debug, Drop)]
pub struct Editor {
    /// The text that it shows.
    pub text: Text,
    /// Whether it has asked for the daemon's text, has it, or has closed it.
    pub state: State,
    /// How often it has opened the text, which numbers its sessions.
    pub session: u64,
    /// How many deltas of its own it has sent in this session.
    pub own: u64,
    /// How many of the daemon's deltas it has shown in this session.
    pub shown: u64,
    /// Its messages under way to the daemon, the first at the front.
    pub sent: List<Sent>,
    /// What is under way to it, the first at the front.
    pub wire: List<Frame>,
    /// The daemon's link to it, while there is one.
    pub link: Option<Held>,
}

impl Model for Editor {
    ghost use Rattle.bridge_world.specs.Counted as counted;
    ghost use Rattle.bridge_world.specs.Kept.{as_state};

    ghost Value = { counted.Editor };

    ghost view = { λ e. record { text = e.text; state = as_state e.state; session = e.session; own = e.own; shown = e.shown; sent = e.sent; wire = e.wire; link = e.link } };
}

/// The first of the items, which is taken out of the list.
fn take_first<T: Drop>(alloc: Global, list: &mut List<T>) -> T
    requires { 0 < length list.old }
    ensures { list.old ≡ result ∷ list.new }
{
    let mut items = replace(list, List::from_vec(Vec::new(alloc))).into_vec();
    let first = items.remove(0);
    *list = List::from_vec(items);
    first
}

/// A delta for no text: what an answer carries.
fn no_delta(alloc: Global) -> Result<Delta, AllocError>
    ensures { IfOk result (λ delta. delta ≡ nothing) }
{
    replace_all(alloc, 0, &Text::empty(alloc)?)
}

impl Frame {
    /// What is to be shown is overtaken.
    fn age(&mut self)
        ensures { self.new ≡ aged_frame self.old }
    {
        self.mark.kind = self.mark.kind.aged();
    }
}

/// All that is to be shown is overtaken.
fn age_all(frames: &mut Vec<Frame>)
    ensures { frames.new.items ≡ map aged_frame frames.old.items }
{
    for frame in frames.iter_mut() {
        frame.age();
    }
}

/// A bridge's frames go under way to the editor.
fn append(
    alloc: Global,
    wire: &mut List<Frame>,
    session: u64,
    again: &[BridgeFrame],
) -> Result<(), AllocError>
    ensures { OnOk result (wire.new ≡ wire.old ++ map (λ f. new_frame session f.revision f.delta) again.now) }
{
    for frame in again {
        let mark = Mark {
            session,
            kind: Kind::New,
        };
        let revision = frame.revision;
        let delta = frame.delta.copied(alloc)?;
        wire.push(
            alloc,
            Frame {
                mark,
                revision,
                delta,
            },
        )?;
    }
    Ok(())
}

impl Held {
    /// The link to an editor that opens with this text.
    fn new(alloc: Global, session: u64, content: Text) -> Result<Held, AllocError>
        ensures { IfOk result (λ held. held ≡ record { session = session; seen = 0; link = new_link content }) }
    {
        let link = Bridge::new(alloc, content)?;
        Ok(Held {
            session,
            seen: 0,
            link,
        })
    }

    /// Whether one more delta of each side can be counted in u64.
    fn has_room(&self) -> bool
        ensures { result ≡ link_has_room self.now }
    {
        self.link.issued() < u64::MAX && (self.link.taken() < u64::MAX && self.seen < u64::MAX)
    }

    /// The link takes an edit in which it finds no fault.
    fn take(&mut self, alloc: Global, seen: u64, p: Delta) -> Result<Taken, AllocError>
        requires fits { edit_fault seen p self.old.link ≡ None }
        requires room { LinkHasRoom self.old }
        ensures new { OnOk result (self.new ≡ record self.old { link = with_edit seen p self.old.link }) }
        ensures carried { IfOk result (λ taken. taken.carried ≡ carried_edit seen p self.old.link) }
        ensures again { IfOk result (λ taken. taken.again ≡ frames self.new.link.taken self.new.link.unconfirmed) }
    {
        match self.link.take(alloc, seen, p) {
            Ok(taken) => Ok(taken),
            Err(_) => Err(AllocError),
        }
    }
}

impl Editor {
    /// An editor with a text, before its first open.
    pub(crate) fn new(alloc: Global, text: Text) -> Editor
        ensures { result ≡ new_counted text }
    {
        Editor {
            text,
            state: State::Closed,
            session: 0,
            own: 0,
            shown: 0,
            sent: List::from_vec(Vec::new(alloc)),
            wire: List::from_vec(Vec::new(alloc)),
            link: None,
        }
    }

    /// Whether one more open, and one more delta of each side, can be counted in u64.
    pub(crate) fn has_room(&self) -> bool
        ensures { result ≡ has_room self.now }
    {
        if self.session == u64::MAX || self.own == u64::MAX || self.shown == u64::MAX {
            return false;
        }
        match &self.link {
            None => true,
            Some(held) => held.has_room(),
        }
    }

    /// Types a delta, and tells the daemon unless the text is closed. After want of memory the editor is
    /// as it was.
    pub(crate) fn type_delta(&mut self, alloc: Global, p: &Delta) -> Result<(), AllocError>
        requires fits { base_length p.now ≡ length self.old.text }
        requires room { HasRoom self.old }
        ensures ok { OnOk result (self.new ≡ typed p.now self.old) }
        ensures err { OnErr result (self.new ≡ self.old) }
    {
        if self.state.is_closed() {
            return p.apply_at_once(alloc, &mut self.text);
        }
        let text = p.apply(alloc, &self.text)?;
        let session = self.session;
        let message = Message::Edits(self.shown, p.copied(alloc)?);
        self.sent.push(alloc, Sent { session, message })?;
        self.text = text;
        self.own += 1;
        Ok(())
    }

    /// Asks for the text, in a new session. After want of memory the editor is as it was.
    pub(crate) fn open(&mut self, alloc: Global) -> Result<(), AllocError>
        requires { HasRoom self.old }
        ensures ok { OnOk result (self.new ≡ opened self.old) }
        ensures err { OnErr result (self.new ≡ self.old) }
    {
        let message = Message::Opens(self.text.copied(alloc)?);
        let session = self.session + 1;
        self.sent.push(alloc, Sent { session, message })?;
        self.session = session;
        self.state = State::Opening;
        self.own = 0;
        self.shown = 0;
        Ok(())
    }

    /// Closes the text. After want of memory the editor is as it was.
    pub(crate) fn close(&mut self, alloc: Global) -> Result<(), AllocError>
        ensures ok { OnOk result (self.new ≡ closed self.old) }
        ensures err { OnErr result (self.new ≡ self.old) }
    {
        let session = self.session;
        let message = Message::Closes;
        self.sent.push(alloc, Sent { session, message })?;
        self.state = State::Closed;
        Ok(())
    }

    /// The connection ends, with all that is under way.
    pub(crate) fn lose(&mut self, alloc: Global)
        ensures { self.new ≡ lost self.old }
    {
        self.state = State::Closed;
        self.sent = List::from_vec(Vec::new(alloc));
        self.wire = List::from_vec(Vec::new(alloc));
        self.link = None;
    }

    /// The daemon's text has changed by a delta, and the link tells the editor.
    fn push(&mut self, alloc: Global, d: &Delta) -> Result<(), AllocError>
        requires fits { IsForLink d.now self.old.link }
        requires room { HeldHasRoom self.old.link }
        ensures { OnOk result (self.new ≡ pushed d.now self.old) }
    {
        if let Some(held) = &mut self.link {
            let sent = held.link.push(alloc, d.copied(alloc)?)?;
            let mark = Mark {
                session: held.session,
                kind: Kind::New,
            };
            let frame = Frame {
                mark,
                revision: sent.revision,
                delta: sent.delta,
            };
            self.wire.push(alloc, frame)?;
        }
        Ok(())
    }

    /// The same, where a delta that changes nothing is not told.
    pub(crate) fn tell(&mut self, alloc: Global, d: &Delta) -> Result<(), AllocError>
        requires fits { IsForLink d.now self.old.link }
        requires room { HeldHasRoom self.old.link }
        ensures { OnOk result (self.new ≡ told d.now self.old) }
    {
        if d.is_empty() {
            return Ok(());
        }
        self.push(alloc, d)
    }

    /// A message of this session has an answer.
    fn answer(&mut self, alloc: Global, session: u64, kind: Kind) -> Result<(), AllocError>
        ensures { OnOk result (self.new ≡ answered session (as_kind kind) self.old) }
    {
        let frame = Frame {
            mark: Mark { session, kind },
            revision: 0,
            delta: no_delta(alloc)?,
        };
        self.wire.push(alloc, frame)
    }

    /// All that is to be shown is overtaken.
    fn age(&mut self, alloc: Global)
        ensures { self.new ≡ record self.old { wire = map aged_frame self.old.wire } }
    {
        let mut frames = replace(&mut self.wire, List::from_vec(Vec::new(alloc))).into_vec();
        age_all(&mut frames);
        self.wire = List::from_vec(frames);
    }

    /// A message of this session has an answer, and the link ends.
    fn end(&mut self, alloc: Global, session: u64, kind: Kind) -> Result<(), AllocError>
        ensures { OnOk result (self.new ≡ ended session (as_kind kind) self.old) }
    {
        self.link = None;
        self.age(alloc);
        self.answer(alloc, session, kind)
    }

    /// An open of this session is taken. One replacement follows, unless the editor has the daemon's text.
    fn begin(
        &mut self,
        alloc: Global,
        session: u64,
        content: Text,
        view: &Text,
    ) -> Result<(), AllocError>
        ensures { OnOk result (self.new ≡ linked session content (first_deltas content view.now) self.old) }
    {
        self.answer(alloc, session, Kind::OpenDone)?;
        let length = content.len();
        let has_view = content == *view;
        let held = Held::new(alloc, session, content)?;
        self.link = Some(held);
        if has_view {
            return Ok(());
        }
        let first = replace_all(alloc, length, view)?;
        self.push(alloc, &first)
    }

    /// An open of this session comes to the daemon.
    fn take_open(
        &mut self,
        alloc: Global,
        session: u64,
        content: Text,
        verdict: Verdict,
        view: &Text,
    ) -> Result<(), AllocError>
        ensures { OnOk result (self.new ≡ handled_by (Opens content) self.old.link (as_verdict verdict) view.now session self.old) }
    {
        if self.link.is_some() {
            return self.answer(alloc, session, Kind::Failed(Cause::AlreadyOpen));
        }
        match verdict {
            Verdict::Accepts => self.begin(alloc, session, content, view),
            Verdict::Refuses(cause) => self.answer(alloc, session, Kind::Failed(cause)),
        }
    }

    /// An edit of this session is taken by a link, which is the editor's from then on. It gives what the
    /// edit is in the daemon's text.
    fn carry(
        &mut self,
        alloc: Global,
        session: u64,
        mut held: Held,
        seen: u64,
        p: Delta,
    ) -> Result<Delta, AllocError>
        requires fits { edit_fault seen p held.link ≡ None }
        requires room { LinkHasRoom held }
        ensures new { OnOk result (self.new ≡ took session seen p held self.old) }
        ensures carried { IfOk result (λ d. d ≡ carried_edit seen p held.link) }
    {
        let taken = held.take(alloc, seen, p)?;
        self.age(alloc);
        self.answer(alloc, session, Kind::Done)?;
        append(alloc, &mut self.wire, held.session, taken.again.as_slice())?;
        self.link = Some(held);
        Ok(taken.carried)
    }

    /// An edit of this session comes to the daemon. It gives what the edit changes in the daemon's text,
    /// if it is taken.
    fn take_edit(
        &mut self,
        alloc: Global,
        session: u64,
        seen: u64,
        p: Delta,
        verdict: Verdict,
    ) -> Result<Option<Delta>, AllocError>
        requires fits { CanTake (Edits seen p) self.old.link }
        requires room { HeldHasRoom self.old.link }
        ensures new { OnOk result (self.new ≡ handled_by (Edits seen p) self.old.link (as_verdict verdict) [] session self.old) }
        ensures effect { IfOk result (λ d. d ≡ effect_by (Edits seen p) self.old.link (as_verdict verdict)) }
    {
        let Some(held) = replace(&mut self.link, None) else {
            self.answer(alloc, session, Kind::Failed(Cause::NotOpen))?;
            return Ok(None);
        };
        match verdict {
            Verdict::Accepts => {
                let carried = self.carry(alloc, session, held, seen, p)?;
                Ok(Some(carried))
            }
            Verdict::Refuses(cause) => {
                self.end(alloc, session, Kind::Failed(cause))?;
                Ok(None)
            }
        }
    }

    /// A close of this session comes to the daemon.
    fn take_close(&mut self, alloc: Global, session: u64) -> Result<(), AllocError>
        ensures { OnOk result (self.new ≡ handled_by Closes self.old.link Accepts [] session self.old) }
    {
        if self.link.is_some() {
            self.end(alloc, session, Kind::Done)
        } else {
            self.answer(alloc, session, Kind::Failed(Cause::NotOpen))
        }
    }

    /// The first message under way comes to the daemon, which has this text and judges the message so. It
    /// gives what the message changes in the daemon's text, if it changes it.
    pub(crate) fn handle(
        &mut self,
        alloc: Global,
        verdict: Verdict,
        view: &Text,
    ) -> Result<Option<Delta>, AllocError>
        requires fits { CanTakeFirst self.old.sent self.old.link }
        requires room { HeldHasRoom self.old.link }
        ensures new { OnOk result (self.new ≡ handled (as_verdict verdict) view.now self.old) }
        ensures effect { IfOk result (λ d. d ≡ first_effect self.old.sent self.old.link (as_verdict verdict)) }
    {
        if self.sent.is_empty() {
            return Ok(None);
        }
        let Sent { session, message } = take_first(alloc, &mut self.sent);
        match message {
            Message::Opens(content) => {
                self.take_open(alloc, session, content, verdict, view)?;
                Ok(None)
            }
            Message::Edits(seen, p) => self.take_edit(alloc, session, seen, p, verdict),
            Message::Closes => {
                self.take_close(alloc, session)?;
                Ok(None)
            }
        }
    }

    /// Whether the editor shows a frame.
    fn shows(&self, frame: &Frame) -> bool
        ensures { result ≡ shows frame.now self.now }
    {
        frame.mark.kind.carries_delta() && (self.state.is_open() && frame.revision == self.own)
    }

    /// Shows a delta of the daemon, and counts it.
    fn show(&mut self, alloc: Global, d: &Delta) -> Result<(), AllocError>
        requires fits { base_length d.now ≡ length self.old.text }
        requires room { HasRoom self.old }
        ensures { OnOk result (self.new ≡ shown_if true d.now self.old) }
    {
        d.apply_at_once(alloc, &mut self.text)?;
        self.shown += 1;
        if let Some(held) = &mut self.link {
            held.seen += 1;
        }
        Ok(())
    }

    /// A frame comes to the editor.
    fn hear(&mut self, alloc: Global, frame: &Frame) -> Result<(), AllocError>
        requires fits { FrameApplies self.old frame.now }
        requires room { HasRoom self.old }
        ensures { OnOk result (self.new ≡ heard frame.now.mark.kind self.old.state (frame.now.mark.session == self.old.session) frame.now self.old) }
    {
        if self.shows(frame) {
            return self.show(alloc, &frame.delta);
        }
        let present = frame.mark.session == self.session;
        self.state = self.state.after(frame.mark.kind, present);
        Ok(())
    }

    /// The first frame under way comes to the editor.
    pub(crate) fn deliver(&mut self, alloc: Global) -> Result<(), AllocError>
        requires fits { FirstApplies self.old self.old.wire }
        requires room { HasRoom self.old }
        ensures { OnOk result (self.new ≡ delivered self.old) }
    {
        if self.wire.is_empty() {
            return Ok(());
        }
        let frame = take_first(alloc, &mut self.wire);
        self.hear(alloc, &frame)
    }
}
