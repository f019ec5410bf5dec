ghost use Rattle.std.specs.Prelude.{◌≡◌, ◌<◌, ◌^◌, ◌-◌, [], true, false, IfOk, IfErr, OnOk, OnErr, Err, Some, None};
ghost use Rattle.std.specs.Cmp.Lexicographic.{slice_cmp};
ghost use Rattle.std.specs.List.Sorted.{IsStrictlySortedBy};
ghost use Rattle.std.specs.Map.{keys_of};
ghost use Rattle.std.specs.Ordering.{nat_cmp};
ghost use Rattle.file_uri.specs.Base.{BaseView};
ghost use Rattle.file_uri.specs.PathOf.{path_of};
ghost use Rattle.daemon_core.specs.History.{History};
ghost use Rattle.daemon_core.specs.Laws.{IsLinked};
ghost use Rattle.daemon_core.specs.Outcome.{Gone, own_links};
ghost use Rattle.daemon_core.specs.Refusing as spec;
ghost use Rattle.daemon_core.specs.State.{Links, link_at};
ghost use Rattle.daemon_events.specs.Wanting as wanting;
ghost use Rattle.daemon_events.specs.Wanting.{Desk, opening};
ghost use Rattle.daemon_links.specs.Changing.{AllLinked};
ghost use Rattle.daemon_links.specs.Editing.{Stops};
ghost use Rattle.daemon_links.specs.declared.stops.Stop.TheVariants.{Memory};
ghost use Rattle.message_steps.specs.Asking.{View, desk, if_named, Shows, IsEnough};
ghost use Rattle.message_steps.specs.Editing.{edit_on};
ghost use Rattle.message_steps.specs.Following.{Asked, or_refused, Meets, Follows};
ghost use Rattle.rpc_message.specs.declared.refusals.Refusal.TheVariants.{TextTooLong};

use crate::paths::path_named;
use daemon_core::LONGEST_TEXT;
use daemon_links::{Change, Files, OpenFiles, Stop, open_link, queue_messages, take_edit};
use delta::replace_all;
use editor_bridge::Bridge;
use file_uri::Base;
use rpc_message::{Refusal, ToEditor};
use std::alloc::{AllocError, Global};
use tt_base::{List, SharedPath, Text, TextEdit, Uri};

/// What is answered to a message that has an id.
#[derive(Debug, Drop)]
pub enum Answer {
    /// Nothing: the message is a response.
    Silence,
    /// It is done.
    Success,
    /// It is refused.
    Refuses(Refusal),
}

/// What a message asks for.
#[derive(Debug, Drop)]
pub struct Step {
    /// What is answered.
    pub answer: Answer,
    /// What the message's own connection is sent behind the answer.
    pub messages: List<ToEditor>,
    /// The one change of the files, if there is one. It is still to be made.
    pub change: Option<Change>,
    /// The path that an editor has opened by it, which is to be noted.
    pub opens: Option<SharedPath>,
    /// Whether the daemon is to stop.
    pub shuts_down: bool,
}

/// Nothing is asked for but this answer, and whether to stop.
pub fn quiet(alloc: Global, answer: Answer, shuts_down: bool) -> Step
    ensures { result ≡ record { answer = answer; messages = []; change = None; opens = None; shuts_down = shuts_down } }
{
    Step {
        answer,
        messages: List::from_vec(Vec::new(alloc)),
        change: None,
        opens: None,
        shuts_down,
    }
}

/// A step as what it asks for: a refusal is answered.
pub fn answered(alloc: Global, done: Result<Step, Stop>) -> Result<Step, AllocError>
    ensures step { (files : History) (d : Desk) (asked : Asked) (own : Links) → Follows files d asked own done → IfOk result (Meets files d (or_refused asked) own) }
    ensures memory { OnErr result (done ≡ Err Memory) }
{
    match done {
        Ok(step) => Ok(step),
        Err(Stop::Refused(refusal)) => Ok(quiet(alloc, Answer::Refuses(refusal), false)),
        Err(Stop::Memory) => Err(AllocError),
    }
}

/// A text may be this long after a change of one that was so long.
fn may_grow(before: usize, after: usize) -> Result<(), Stop>
    ensures ok { OnOk result (spec.may_grow before after ≡ true) }
    ensures stop { IfErr result (Stops (λ refusal. (spec.may_grow before after ≡ false) × (refusal ≡ TextTooLong after))) }
{
    if after <= LONGEST_TEXT || after <= before {
        Ok(())
    } else {
        Err(Stop::Refused(Refusal::TextTooLong(after as u64)))
    }
}

/// The file at a path is opened by the text that it has.
fn open_there(
    alloc: Global,
    base: &Base,
    own: &mut OpenFiles,
    path: SharedPath,
    content: Text,
    view: &Text,
) -> Result<Step, Stop>
    ensures { (files : History) (shown : View) → let d = desk base.now shown own.old in Follows files d (opening path content (Some view.now)) own.new result }
{
    let opened = open_link(alloc, base, &path, content, view)?;
    own.open(path.copied(alloc)?, opened.link)?;
    Ok(Step {
        answer: Answer::Success,
        messages: opened.messages,
        change: None,
        opens: Some(path),
        shuts_down: false,
    })
}

/// A file that is absent is to be made from the content, and is opened.
fn open_new(
    alloc: Global,
    own: &mut OpenFiles,
    path: SharedPath,
    content: Text,
) -> Result<Step, Stop>
    requires { link_at own.old path ≡ None }
    ensures { (base : BaseView) (files : History) (view : View) → view path ≡ None → Shows files view path
        → let d = desk base view own.old in Follows files d (opening path content None) own.new result }
{
    may_grow(0, content.len())?;
    let delta = replace_all(alloc, 0, &content)?;
    let link = Bridge::new(alloc, content)?;
    let opened = path.copied(alloc)?;
    own.open(path.copied(alloc)?, link)?;
    Ok(Step {
        answer: Answer::Success,
        messages: List::from_vec(Vec::new(alloc)),
        change: Some(Change { path, delta }),
        opens: Some(opened),
        shuts_down: false,
    })
}

/// An editor opens a file.
pub(crate) fn on_open(
    alloc: Global,
    base: &Base,
    files: &Files,
    own: &mut OpenFiles,
    uri: &Uri,
    content: Text,
) -> Result<Step, Stop>
    ensures { (view : View) → IsEnough files.now view own.old (if_named (path_of base.now uri.now))
        → let d = desk base.now view own.old in Follows files.now d (wanting.on_open d uri.now content) own.new result }
{
    let path = path_named(alloc, base, uri)?;
    if own.is_open(&path) {
        return Err(Stop::Refused(Refusal::AlreadyOpen));
    }
    match files.view(&path) {
        Some(view) => open_there(alloc, base, own, path, content, view),
        None => open_new(alloc, own, path, content),
    }
}

/// An editor closes a file.
pub(crate) fn on_close(
    alloc: Global,
    base: &Base,
    own: &mut OpenFiles,
    uri: &Uri,
) -> Result<Step, Stop>
    ensures { (files : History) (view : View) → let d = desk base.now view own.old in Follows files d (wanting.on_close d uri.now) own.new result }
{
    let path = path_named(alloc, base, uri)?;
    let Some(_link) = own.close(&path) else {
        return Err(Stop::Refused(Refusal::NotOpen));
    };
    Ok(quiet(alloc, Answer::Success, false))
}

/// An edit comes by a link that is taken out of those of its connection, and goes back unless the edit is refused.
fn edit_by(
    alloc: Global,
    base: &Base,
    files: &Files,
    own: &mut OpenFiles,
    path: SharedPath,
    link: Bridge,
    seen: u64,
    edits: &[TextEdit],
) -> Result<Step, Stop>
    requires linked { IsLinked files.now path link }
    requires room { files.now.held < 2 ^ 64 - 2 }
    ensures { (links : Links) (view : View) → Some link ≡ link_at links path → IsStrictlySortedBy (slice_cmp nat_cmp) (keys_of links) → own.old ≡ own_links (Gone path) links
        → Shows files.now view path
        → let d = desk base.now view links in Follows files.now d (edit_on d path seen edits.now link) own.new result }
{
    let edit = take_edit(alloc, link, seen, edits)?;
    may_grow(files.length_at(&path), edit.carried.result_length())?;
    let messages = queue_messages(alloc, base, &path, &edit.link, &edit.again)?;
    own.open(path.copied(alloc)?, edit.link)?;
    Ok(Step {
        answer: Answer::Success,
        messages,
        change: Some(Change {
            path,
            delta: edit.carried,
        }),
        opens: None,
        shuts_down: false,
    })
}

/// An editor's edit.
pub(crate) fn on_edit(
    alloc: Global,
    base: &Base,
    files: &Files,
    own: &mut OpenFiles,
    uri: &Uri,
    seen: u64,
    edits: &[TextEdit],
) -> Result<Step, Stop>
    requires linked { AllLinked files.now own.old }
    requires room { files.now.held < 2 ^ 64 - 2 }
    ensures { (view : View) → IsEnough files.now view own.old None
        → let d = desk base.now view own.old in Follows files.now d (wanting.on_edit d uri.now seen edits.now) own.new result }
{
    let path = path_named(alloc, base, uri)?;
    let Some(link) = own.close(&path) else {
        return Err(Stop::Refused(Refusal::NotOpen));
    };
    edit_by(alloc, base, files, own, path, link, seen, edits)
}
