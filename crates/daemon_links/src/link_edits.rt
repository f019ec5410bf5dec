ghost use Rattle.std.specs.Prelude.{◌≡◌, ◌<◌, ◌^◌, ◌-◌, ℕ, List, [], Ok, None, IfOk, IfErr, OnOk, MatchResult};
ghost use Rattle.editor_bridge.specs.Faults.{revision_fault};
ghost use Rattle.editor_bridge.specs.Frames.{frames};
ghost use Rattle.editor_bridge.specs.Link.{new_link, first_deltas, with_confirmed};
ghost use Rattle.file_uri.specs.UriOf.{uri_of};
ghost use Rattle.text_position.specs.Edits.{delta_of_edits};
ghost use Rattle.daemon_core.specs.Outcome.{opened_link};
ghost use Rattle.daemon_core.specs.Outputs.{whole_queue};
ghost use Rattle.daemon_core.specs.Refusing.{closed, text_shown, good_edits};
ghost use Rattle.daemon_links.specs.Editing.{Stops, IsEditRefused, IsTaken};

use crate::sending::queue_messages;
use crate::stops::Stop;
use delta::{Delta, replace_all};
use editor_bridge::{Bridge, BridgeFault, BridgeFrame};
use file_uri::Base;
use rpc_message::{Refusal, ToEditor};
use std::alloc::{AllocError, Global};
use text_position::{EditsFault, from_edits};
use tt_base::{List, SharedPath, Text, TextEdit};

/// The link to an editor that has opened a file, and what it is sent behind the reply.
#[derive(Debug, Drop)]
pub struct Opened {
    pub link: Bridge,
    pub messages: List<ToEditor>,
}

/// An edit that a link has taken.
#[derive(Debug, Drop)]
pub struct LinkEdit {
    /// The link afterwards.
    pub link: Bridge,
    /// What the edit is in the daemon's text.
    pub carried: Delta,
    /// All that the editor had not shown, to be sent again.
    pub again: List<BridgeFrame>,
}

/// A link that has begun is led to the daemon's text by one replacement, unless the editor has that text.
fn lead(alloc: Global, link: &mut Bridge, view: &Text) -> Result<List<BridgeFrame>, AllocError>
    requires { link.old ≡ new_link link.old.base }
    ensures link { OnOk result (link.new ≡ opened_link link.old.base (first_deltas link.old.base view.now)) }
    ensures first { IfOk result (λ first. first ≡ frames 0 (first_deltas link.old.base view.now)) }
{
    let mut first = List::empty(alloc)?;
    if *link.confirmed_text() != *view {
        let d = replace_all(alloc, link.confirmed_text().len(), view)?;
        first.push(alloc, link.push(alloc, d)?)?;
    }
    Ok(first)
}

/// The link to an editor that opens the file at a path with this content, where the file has the text `view`.
pub fn open_link(
    alloc: Global,
    base: &Base,
    path: &SharedPath,
    content: Text,
    view: &Text,
) -> Result<Opened, AllocError>
    ensures link { IfOk result (λ opened. opened.link ≡ opened_link content (first_deltas content view.now)) }
    ensures messages { IfOk result (λ opened. opened.messages ≡ whole_queue (uri_of base.now path.now) opened.link) }
{
    let mut link = Bridge::new(alloc, content)?;
    let first = lead(alloc, &mut link, view)?;
    let messages = queue_messages(alloc, base, path, &link, &first)?;
    Ok(Opened { link, messages })
}

/// The editor of a link has shown `seen` of the daemon's deltas, or its revision is bad.
fn confirm(alloc: Global, link: &mut Bridge, seen: u64) -> Result<(), Stop>
    ensures ok { OnOk result (link.new ≡ with_confirmed seen link.old) }
    ensures fits { OnOk result (revision_fault seen link.old ≡ None) }
    ensures stop { IfErr result (Stops (λ refusal. (path : List ℕ) → text_shown path seen link.old ≡ closed path refusal)) }
{
    let confirmed = link.confirmed();
    let issued = link.issued();
    match link.confirm(alloc, seen) {
        Ok(()) => Ok(()),
        Err(BridgeFault::Memory) => Err(Stop::Memory),
        Err(_) => Err(Stop::Refused(Refusal::BadRevision {
            confirmed,
            issued,
            seen,
        })),
    }
}

/// The delta of the edits of a message on a text, or the first bad edit.
fn read_edits(alloc: Global, text: &Text, edits: &[TextEdit]) -> Result<Delta, Stop>
    ensures ok { IfOk result (λ d. delta_of_edits text.now edits.now ≡ Ok d) }
    ensures stop { IfErr result (Stops (λ refusal. (path : List ℕ) → good_edits path text.now edits.now ≡ closed path refusal)) }
{
    match from_edits(alloc, text, edits) {
        Ok(d) => Ok(d),
        Err(EditsFault::BadPosition(edit)) => Err(Stop::Refused(Refusal::BadPosition(edit as u64))),
        Err(EditsFault::BackwardRange(edit)) => {
            Err(Stop::Refused(Refusal::BackwardRange(edit as u64)))
        }
        Err(EditsFault::Memory) => Err(Stop::Memory),
    }
}

/// The link takes an edit of its editor, made when that had shown `seen` of the daemon's deltas; or the edit is refused,
/// for its revision or for the first bad edit, and the link is gone.
pub fn take_edit(
    alloc: Global,
    link: Bridge,
    seen: u64,
    edits: &[TextEdit],
) -> Result<LinkEdit, Stop>
    requires { link.taken < 2 ^ 64 - 1 }
    ensures { MatchResult result (IsTaken link seen edits.now) (Stops (IsEditRefused link seen edits.now)) }
{
    let mut link = link;
    confirm(alloc, &mut link, seen)?;
    let edit = read_edits(alloc, link.confirmed_text(), edits)?;
    let Ok(taken) = link.take(alloc, seen, edit) else {
        return Err(Stop::Memory);
    };
    Ok(LinkEdit {
        link,
        carried: taken.carried,
        again: taken.again,
    })
}
