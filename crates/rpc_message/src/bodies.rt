ghost use Rattle.std.specs.Prelude.{◌≡◌, ◌⊎◌, ◌≤◌, true, false, None, Some, Err, IfOk, IfErr, OnOk};
ghost use Rattle.std.specs.Str.{is_utf8};
ghost use Rattle.serde_json.specs.Data.{depth};
ghost use Rattle.serde_json.specs.Read.{max_depth};
ghost use Rattle.serde_json.specs.View.{view};
ghost use Rattle.rpc_message.specs.Json.{json_of};
ghost use Rattle.rpc_message.specs.declared.faults.Cause.TheVariants.{ParseError};
ghost use Rattle.rpc_message.specs.declared.faults.MessageFault.TheVariants.{Refused, Memory};
ghost use Rattle.rpc_message.specs.declared.messages.MessageId.TheVariants.{Null};

use crate::faults::{Cause, MessageFault};
use crate::messages::MessageId;
use serde_json::Value;
use simdutf8::basic::from_utf8;
use std::alloc::Global;

fn no_json() -> MessageFault
    ensures { result ≡ Refused (Some Null) ParseError }
{
    MessageFault::Refused {
        id: Some(MessageId::Null),
        cause: Cause::ParseError,
    }
}

/// The value that a body is as JSON. Bytes that are not UTF-8 are refused before memory is asked for.
pub(crate) fn value_of(alloc: Global, body: &[u8]) -> Result<Value, MessageFault>
    ensures value { IfOk result (λ value. json_of body.now ≡ Some (view value)) }
    ensures nests { IfOk result (λ value. depth (view value) ≤ max_depth) }
    ensures none { IfErr result (λ fault. (fault ≡ Memory) ⊎ ((fault ≡ Refused (Some Null) ParseError) × (json_of body.now ≡ None))) }
    ensures text { OnOk result (is_utf8 body.now ≡ true) }
    ensures no_text { is_utf8 body.now ≡ false → result ≡ Err (Refused (Some Null) ParseError) }
{
    let text = match from_utf8(body) {
        Ok(text) => text,
        Err(_) => return Err(no_json()),
    };
    match Value::from_str(alloc, text) {
        Ok(value) => Ok(value),
        Err(error) => {
            if error.is_memory() {
                Err(MessageFault::Memory)
            } else {
                Err(no_json())
            }
        }
    }
}
