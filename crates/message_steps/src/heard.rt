ghost use Rattle.std.specs.Prelude.{◌≡◌, false, Some, Ok, Err, IfOk};
ghost use Rattle.std.specs.Str.{is_utf8};
ghost use Rattle.rpc_message.specs.Messages.{message_of};
ghost use Rattle.rpc_message.specs.declared.messages.MessageId.TheVariants.{Null};
ghost use Rattle.rpc_message.specs.declared.refusals.Refusal.TheVariants.{ParseError};
ghost use Rattle.message_steps.specs.Following.{Hears};

use rpc_message::{FromEditor, Incoming, MessageFault, MessageId, Refusal, read_message};
use std::alloc::{AllocError, Global};

/// What was read of the body of a frame.
#[derive(Debug, Drop)]
pub struct Heard {
    /// The id that is answered.
    pub id: Option<MessageId>,
    /// The message, or with which refusal a body is answered that is none.
    pub asked: Result<FromEditor, Refusal>,
}

/// Reads the body of a frame.
pub fn hear(alloc: Global, body: &[u8]) -> Result<Heard, AllocError>
    ensures read { IfOk result (Hears (message_of body.now)) }
    // Bytes that are not UTF-8 are refused before memory is asked for.
    ensures no_text { is_utf8 body.now ≡ false → result ≡ Ok (record { id = Some Null; asked = Err ParseError }) }
{
    match read_message(alloc, body) {
        Ok(Incoming { id, message }) => Ok(Heard {
            id,
            asked: Ok(message),
        }),
        Err(MessageFault::Refused { id, cause }) => Ok(Heard {
            id,
            asked: Err(Refusal::from(cause)),
        }),
        Err(MessageFault::Memory) => Err(AllocError),
    }
}
