//! That what is written is read as the same.
ghost use Rattle.std.specs.Prelude.{◌≡◌, false, Some, MatchResult};
ghost use Rattle.rpc_message.specs.Replies.{HasSignedId};
ghost use Rattle.rpc_message.specs.Requests.{is_response};
ghost use Rattle.rpc_message.specs.declared.faults.MessageFault.TheVariants.{Memory};
ghost use Rattle.rpc_message.specs.declared.messages.MessageId.TheVariants.{Number};

use crate::answers::write_message;
use crate::faults::MessageFault;
use crate::messages::{FromEditor, Incoming, ToEditor};
use crate::reading::read_message;
use crate::replies::read_reply;
use crate::requests::write_request;
use std::alloc::Global;

/// A message to an editor, written and read again: it is that message, or memory has run out.
pub fn reply_comes_back(alloc: Global, message: &ToEditor) -> Result<ToEditor, MessageFault>
    requires { HasSignedId message.now }
    ensures { MatchResult result (λ found. found ≡ message.now) (λ fault. fault ≡ Memory) }
{
    let body = write_message(alloc, message)?;
    read_reply(alloc, body.as_slice())
}

/// A request, written and read again: it is that request, or memory has run out.
pub fn request_comes_back(
    alloc: Global,
    id: u64,
    message: &FromEditor,
) -> Result<Incoming, MessageFault>
    requires { is_response message.now ≡ false }
    ensures { MatchResult result
        (λ found. found ≡ record { id = Some (Number id); message = message.now })
        (λ fault. fault ≡ Memory) }
{
    let body = write_request(alloc, id, message)?;
    read_message(alloc, body.as_slice())
}
