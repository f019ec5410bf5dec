ghost use Rattle.std.specs.Prelude.{◌≡◌, IfOk, IfSome};
ghost use Rattle.serde_json.specs.View.{view};
ghost use Rattle.rpc_message.specs.Messages as spec;
ghost use Rattle.rpc_message.specs.Ids.{IsSigned};

use crate::forms::text_of;
use crate::messages::MessageId;
use serde_json::Value;
use std::alloc::{AllocError, Global};

/// The id that a value is.
pub(crate) fn id_form(alloc: Global, value: &Value) -> Result<Option<MessageId>, AllocError>
    ensures id { IfOk result (λ id. id ≡ spec.id_form (view value.now)) }
    ensures signed { IfOk result (λ id. IfSome id IsSigned) }
{
    if value.is_null() {
        return Ok(Some(MessageId::Null));
    }
    if let Some(number) = value.as_u64() {
        return Ok(Some(MessageId::Number(number)));
    }
    if let Some(number) = value.as_i64()
        && number < 0
    {
        return Ok(Some(MessageId::Below(number)));
    }
    match text_of(alloc, value)? {
        Some(text) => Ok(Some(MessageId::Words(text))),
        None => Ok(None),
    }
}
