ghost use Rattle.std.specs.Prelude.{◌≡◌, ◌<◌, ◌^◌, ◌-◌, true, IsOk};
ghost use Rattle.daemon_events.specs.Wanting.{wanted};
ghost use Rattle.daemon_links.specs.Changing.{AllLinked};
ghost use Rattle.message_steps.specs.Asking.{View, desk, path_to_open, IsEnough, names_no_file};
ghost use Rattle.message_steps.specs.Following.{Follows};

use crate::steps::{Answer, Step, on_close, on_edit, on_open, quiet};
use daemon_links::{Files, OpenFiles, Stop};
use file_uri::Base;
use rpc_message::FromEditor;
use std::alloc::Global;

/// What a message asks for, on a connection that has these files open, as the texts at hand tell. A cursor is read and changes
/// nothing yet.
///
/// The links are as they are once the change is made; where it cannot be made, the link at its path ends.
pub fn take_step(
    alloc: Global,
    base: &Base,
    files: &Files,
    own: &mut OpenFiles,
    message: FromEditor,
) -> Result<Step, Stop>
    requires linked { AllLinked files.now own.old }
    requires room { files.now.held < 2 ^ 64 - 2 }
    ensures follows { (view : View) → IsEnough files.now view own.old (path_to_open base.now message)
        → let d = desk base.now view own.old in Follows files.now d (wanted d message) own.new result }
    // A message that names no file is judged without memory.
    ensures sure { names_no_file message ≡ true → IsOk result }
{
    match message {
        FromEditor::Open { uri, content } => on_open(alloc, base, files, own, &uri, content),
        FromEditor::Close { uri } => on_close(alloc, base, own, &uri),
        FromEditor::Edit {
            uri,
            revision,
            edits,
        } => on_edit(alloc, base, files, own, &uri, revision, edits.as_slice()),
        FromEditor::Cursor { .. } => Ok(quiet(alloc, Answer::Success, false)),
        FromEditor::Shutdown => Ok(quiet(alloc, Answer::Success, true)),
        FromEditor::Response => Ok(quiet(alloc, Answer::Silence, false)),
    }
}
