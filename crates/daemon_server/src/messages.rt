ghost use Rattle.std.specs.Prelude.{◌<◌, ◌^◌, ◌-◌, ◌≡◌, IfOk};
ghost use Rattle.rpc_message.specs.Messages.{message_of};
ghost use Rattle.daemon_core.specs.Outputs.{id_of, outcome_of};
ghost use Rattle.daemon_core.specs.Serving as serving;
ghost use Rattle.daemon_links.specs.Changing.{AllLinked};
ghost use Rattle.daemon_server.specs.Following.{desk, Handles};

use crate::handled::{Answer, Handled, answered, quiet};
use crate::steps::{on_close, on_edit, on_open};
use daemon_links::{Files, OpenFiles};
use file_uri::Base;
use rpc_message::{FromEditor, Incoming, MessageFault, MessageId, Refusal, read_message};
use std::alloc::{AllocError, Global};

/// A body, read as a message and carried out.
#[derive(Debug, Drop)]
pub(crate) struct Heard {
    /// The id that is answered.
    pub(crate) id: Option<MessageId>,
    /// What it has come to.
    pub(crate) handled: Handled,
}

/// What a message comes to, on a connection that has these files open. A cursor is read and changes nothing yet.
fn on_message(
    alloc: Global,
    base: &Base,
    files: &Files,
    own: &mut OpenFiles,
    message: FromEditor,
) -> Result<Handled, AllocError>
    requires linked { AllLinked files.now own.old }
    requires room { files.now.held < 2 ^ 64 - 2 }
    ensures { let s = desk base.now files.now own.old in IfOk result (Handles s (serving.or_refusal s (serving.on_message s 0 message)) own.new) }
{
    match message {
        FromEditor::Open { uri, content } => {
            let done = on_open(alloc, base, files, own, &uri, content);
            answered(alloc, done)
        }
        FromEditor::Close { uri } => {
            let done = on_close(alloc, base, own, &uri);
            answered(alloc, done)
        }
        FromEditor::Edit {
            uri,
            revision,
            edits,
        } => {
            let done = on_edit(alloc, base, files, own, &uri, revision, edits.as_slice());
            answered(alloc, done)
        }
        FromEditor::Cursor { .. } => quiet(alloc, Answer::Success, false),
        FromEditor::Shutdown => quiet(alloc, Answer::Success, true),
        FromEditor::Response => quiet(alloc, Answer::Silence, false),
    }
}

/// What the body of a frame comes to.
pub(crate) fn hear(
    alloc: Global,
    base: &Base,
    files: &Files,
    own: &mut OpenFiles,
    body: &[u8],
) -> Result<Heard, AllocError>
    requires linked { AllLinked files.now own.old }
    requires room { files.now.held < 2 ^ 64 - 2 }
    ensures id { IfOk result (λ heard. heard.id ≡ id_of (message_of body.now)) }
    ensures handled { let s = desk base.now files.now own.old in IfOk result (λ heard. Handles s (outcome_of s 0 (message_of body.now)) own.new heard.handled) }
{
    match read_message(alloc, body) {
        Ok(Incoming { id, message }) => {
            let handled = on_message(alloc, base, files, own, message)?;
            Ok(Heard { id, handled })
        }
        Err(MessageFault::Refused { id, cause }) => {
            let handled = quiet(alloc, Answer::Refuses(Refusal::from(cause)), false)?;
            Ok(Heard { id, handled })
        }
        Err(MessageFault::Memory) => Err(AllocError),
    }
}
