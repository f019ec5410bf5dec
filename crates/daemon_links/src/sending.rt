ghost use Rattle.std.specs.Prelude.{◌≡◌, ◌++◌, length, map, IfOk, OnOk};
ghost use Rattle.delta.specs.Cells.{base_length};
ghost use Rattle.editor_bridge.specs.Frames.{frames};
ghost use Rattle.file_uri.specs.UriOf.{uri_of};
ghost use Rattle.rpc_message.specs.declared.messages.ToEditor.TheVariants.{Edit};
ghost use Rattle.text_position.specs.Changes.{edits_of};
ghost use Rattle.transform.specs.Carried.{IsChain};
ghost use Rattle.daemon_core.specs.Outputs.{whole_queue, send};
ghost use Rattle.daemon_core.specs.Sending.{CanBeSent, EachCanBeSent};
ghost use Rattle.daemon_links.specs.Sending.{deltas_of, messages_of};

use daemon_core::Output;
use delta::Delta;
use editor_bridge::{Bridge, BridgeFrame};
use file_uri::{Base, uri_of};
use rpc_frame::write_frame;
use rpc_message::{ToEditor, write_message};
use std::alloc::{AllocError, Global};
use text_position::to_edits;
use tt_base::{List, SharedPath, Text};

/// A message as a frame on a connection.
pub fn send(alloc: Global, n: u64, message: &ToEditor) -> Result<Output, AllocError>
    ensures frame { IfOk result (λ output. output ≡ send n message.now) }
    ensures reads { OnOk result (CanBeSent message.now) }
{
    let body = write_message(alloc, message)?;
    let _size = body.len();
    let frame = write_frame(alloc, body.as_slice())?;
    Ok(Output::Send(n, frame))
}

/// Messages as frames on a connection, behind what is sent already.
pub fn send_all(
    alloc: Global,
    n: u64,
    messages: &[ToEditor],
    sent: &mut Vec<Output>,
) -> Result<(), AllocError>
    ensures frames { OnOk result (sent.new.items ≡ sent.old.items ++ map (send n) messages.now) }
    ensures read { OnOk result (EachCanBeSent messages.now) }
{
    for message in messages {
        sent.push(send(alloc, n, message)?)?;
    }
    Ok(())
}

/// A delta on a text, as the message of a link of this revision to the file at a path.
pub(crate) fn edit_message(
    alloc: Global,
    base: &Base,
    path: &SharedPath,
    revision: u64,
    text: &Text,
    d: &Delta,
) -> Result<ToEditor, AllocError>
    requires { base_length d.now ≡ length text.now }
    ensures { IfOk result (λ message. message ≡ Edit (uri_of base.now path.now) revision (edits_of text.now d.now)) }
{
    let uri = uri_of(alloc, base, path)?;
    let edits = to_edits(alloc, text, d)?;
    Ok(ToEditor::Edit {
        uri,
        revision,
        edits,
    })
}

/// Frames on a text, each for the text that those before it leave.
fn frame_messages(
    alloc: Global,
    base: &Base,
    path: &SharedPath,
    text: &Text,
    queue: &[BridgeFrame],
) -> Result<List<ToEditor>, AllocError>
    requires { IsChain (length text.now) (deltas_of queue.now) }
    ensures { IfOk result (λ messages. messages ≡ messages_of (uri_of base.now path.now) text.now queue.now) }
{
    let mut messages = Vec::new(alloc);
    let mut reached = text.copied(alloc)?;
    for frame in queue {
        messages.push(edit_message(alloc, base, path, frame.revision, &reached, &frame.delta)?)?;
        frame.delta.apply_at_once(alloc, &mut reached)?;
    }
    Ok(List::from_vec(messages))
}

/// All that a link has not had confirmed, of which the frames are told, as messages.
pub fn queue_messages(
    alloc: Global,
    base: &Base,
    path: &SharedPath,
    link: &Bridge,
    queue: &List<BridgeFrame>,
) -> Result<List<ToEditor>, AllocError>
    requires told { queue.now ≡ frames link.now.taken link.now.unconfirmed }
    requires chain { IsChain (length link.now.base) link.now.unconfirmed }
    ensures { IfOk result (λ messages. messages ≡ whole_queue (uri_of base.now path.now) link.now) }
{
    if queue.is_empty() {
        return List::empty(alloc);
    }
    frame_messages(alloc, base, path, link.confirmed_text(), queue.as_slice())
}
