ghost use Rattle.std.specs.Prelude.{◌≡◌, ◌<◌, ◌^◌, ◌-◌, true, false, IfOk, IfErr, OnOk, Ok, Some, None};
ghost use Rattle.std.specs.Cmp.Lexicographic.{slice_cmp};
ghost use Rattle.std.specs.List.Sorted.{IsStrictlySortedBy};
ghost use Rattle.std.specs.Map.{keys_of};
ghost use Rattle.std.specs.Ordering.{nat_cmp};
ghost use Rattle.file_uri.specs.Base.{BaseView};
ghost use Rattle.file_uri.specs.PathOf.{path_of};
ghost use Rattle.daemon_core.specs.History.{History, view_at};
ghost use Rattle.daemon_core.specs.Laws.{IsLinked};
ghost use Rattle.daemon_core.specs.Outcome.{Gone, own_links};
ghost use Rattle.daemon_core.specs.Refusing as spec;
ghost use Rattle.daemon_core.specs.Refusing.{refused, unless_bad_uri};
ghost use Rattle.daemon_core.specs.Serving as serving;
ghost use Rattle.daemon_core.specs.State.{Links, link_at};
ghost use Rattle.daemon_links.specs.Changing.{AllLinked};
ghost use Rattle.daemon_links.specs.Editing.{Stops};
ghost use Rattle.daemon_server.specs.Following.{desk, Follows};
ghost use Rattle.daemon_server.specs.Editing.{edit_on};
ghost use Rattle.rpc_message.specs.declared.refusals.Refusal.TheVariants.{TextTooLong};

use crate::handled::{Answer, Handled, quiet};
use daemon_core::LONGEST_TEXT;
use daemon_links::{Change, Files, OpenFiles, Stop, open_link, queue_messages, take_edit};
use delta::replace_all;
use editor_bridge::Bridge;
use file_uri::{Base, UriFault, path_of};
use rpc_message::{Refusal, UriCause};
use std::alloc::Global;
use tt_base::{List, PathFault, SharedPath, Text, TextEdit, Uri};

/// The name of a rule of paths among the causes.
fn path_cause(fault: PathFault) -> UriCause
    ensures { result ≡ spec.path_cause fault }
{
    match fault {
        PathFault::TooLong => UriCause::TooLong,
        PathFault::NulByte => UriCause::NulByte,
        PathFault::Absolute => UriCause::Absolute,
        PathFault::Empty | PathFault::Memory => UriCause::Empty,
        PathFault::DotPart => UriCause::DotPart,
        PathFault::Reserved => UriCause::Reserved,
        PathFault::TooDeep => UriCause::TooDeep,
    }
}

/// The name of a rule of URIs among the causes.
fn uri_cause(fault: UriFault) -> UriCause
    ensures { result ≡ spec.uri_cause fault }
{
    match fault {
        UriFault::NotAUri | UriFault::NotABase | UriFault::Memory => UriCause::NotAUri,
        UriFault::NotFile => UriCause::NotFile,
        UriFault::HasHost => UriCause::HasHost,
        UriFault::OutsideBase => UriCause::OutsideBase,
        UriFault::NotUtf8 => UriCause::NotUtf8,
        UriFault::BadPath(fault) => path_cause(fault),
    }
}

/// The path that a URI names below the base.
fn path_named(alloc: Global, base: &Base, uri: &Uri) -> Result<SharedPath, Stop>
    ensures ok { IfOk result (λ path. path_of base.now uri.now ≡ Ok path) }
    ensures stop { IfErr result (Stops (λ refusal. unless_bad_uri (path_of base.now uri.now) ≡ refused refusal)) }
{
    match path_of(alloc, base, uri.as_str()) {
        Ok(path) => Ok(path),
        Err(UriFault::Memory) => Err(Stop::Memory),
        Err(fault) => Err(Stop::Refused(Refusal::BadUri(uri_cause(fault)))),
    }
}

/// A text may be this long after a change of one that was so long.
fn may_grow(before: usize, after: usize) -> Result<(), Stop>
    ensures ok { OnOk result (spec.may_grow before after ≡ true) }
    ensures stop { IfErr result (Stops (λ refusal. (spec.may_grow before after ≡ false) × (refusal ≡ TextTooLong after))) }
{
    if after <= LONGEST_TEXT || after <= before {
        Ok(())
    } else {
        Err(Stop::Refused(Refusal::TextTooLong(after as u64)))
    }
}

/// The file at a path is opened by the text that it has.
fn open_there(
    alloc: Global,
    base: &Base,
    own: &mut OpenFiles,
    path: SharedPath,
    content: Text,
    view: &Text,
) -> Result<Handled, Stop>
    ensures { (h : History) → Follows (desk base.now h own.old) (serving.opening (desk base.now h own.old) path content (Some view.now)) own.new result }
{
    let opened = open_link(alloc, base, &path, content, view)?;
    own.open(path, opened.link)?;
    Ok(Handled {
        answer: Answer::Success,
        messages: opened.messages,
        change: None,
        shuts_down: false,
    })
}

/// A file that is absent is made from the content, and opened.
fn open_new(
    alloc: Global,
    own: &mut OpenFiles,
    path: SharedPath,
    content: Text,
) -> Result<Handled, Stop>
    ensures { (base : BaseView) (h : History) → view_at h path ≡ None → Follows (desk base h own.old) (serving.opening (desk base h own.old) path content None) own.new result }
{
    may_grow(0, content.len())?;
    let delta = replace_all(alloc, 0, &content)?;
    let link = Bridge::new(alloc, content)?;
    own.open(path.copied(alloc)?, link)?;
    Ok(Handled {
        answer: Answer::Success,
        messages: List::empty(alloc)?,
        change: Some(Change { path, delta }),
        shuts_down: false,
    })
}

/// An editor opens a file.
pub(crate) fn on_open(
    alloc: Global,
    base: &Base,
    files: &Files,
    own: &mut OpenFiles,
    uri: &Uri,
    content: Text,
) -> Result<Handled, Stop>
    ensures { let s = desk base.now files.now own.old in Follows s (serving.on_open s 0 uri.now content) own.new result }
{
    let path = path_named(alloc, base, uri)?;
    if own.is_open(&path) {
        return Err(Stop::Refused(Refusal::AlreadyOpen));
    }
    match files.view(&path) {
        Some(view) => open_there(alloc, base, own, path, content, view),
        None => open_new(alloc, own, path, content),
    }
}

/// An editor closes a file.
pub(crate) fn on_close(
    alloc: Global,
    base: &Base,
    own: &mut OpenFiles,
    uri: &Uri,
) -> Result<Handled, Stop>
    ensures { (h : History) → Follows (desk base.now h own.old) (serving.on_close (desk base.now h own.old) 0 uri.now) own.new result }
{
    let path = path_named(alloc, base, uri)?;
    let Some(_link) = own.close(&path) else {
        return Err(Stop::Refused(Refusal::NotOpen));
    };
    Ok(quiet(alloc, Answer::Success, false)?)
}

/// An edit comes by a link that is taken out of those of its connection, and goes back unless the edit is refused.
fn edit_by(
    alloc: Global,
    base: &Base,
    files: &Files,
    own: &mut OpenFiles,
    path: SharedPath,
    link: Bridge,
    seen: u64,
    edits: &[TextEdit],
) -> Result<Handled, Stop>
    requires linked { IsLinked files.now path link }
    requires room { files.now.held < 2 ^ 64 - 2 }
    ensures { (links : Links) → Some link ≡ link_at links path → IsStrictlySortedBy (slice_cmp nat_cmp) (keys_of links) → own.old ≡ own_links (Gone path) links
        → Follows (desk base.now files.now links) (edit_on (desk base.now files.now links) path seen edits.now link) own.new result }
{
    let edit = take_edit(alloc, link, seen, edits)?;
    may_grow(files.length_at(&path), edit.carried.result_length())?;
    let messages = queue_messages(alloc, base, &path, &edit.link, &edit.again)?;
    own.open(path.copied(alloc)?, edit.link)?;
    Ok(Handled {
        answer: Answer::Success,
        messages,
        change: Some(Change {
            path,
            delta: edit.carried,
        }),
        shuts_down: false,
    })
}

/// An editor's edit.
pub(crate) fn on_edit(
    alloc: Global,
    base: &Base,
    files: &Files,
    own: &mut OpenFiles,
    uri: &Uri,
    seen: u64,
    edits: &[TextEdit],
) -> Result<Handled, Stop>
    requires linked { AllLinked files.now own.old }
    requires room { files.now.held < 2 ^ 64 - 2 }
    ensures { let s = desk base.now files.now own.old in Follows s (serving.on_edit s 0 uri.now seen edits.now) own.new result }
{
    let path = path_named(alloc, base, uri)?;
    let Some(link) = own.close(&path) else {
        return Err(Stop::Refused(Refusal::NotOpen));
    };
    edit_by(alloc, base, files, own, path, link, seen, edits)
}
