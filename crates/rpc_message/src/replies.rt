ghost use Rattle.std.specs.Prelude.{◌≡◌, ◌⊎◌, ◌↔◌, ◌≤◌, false, Some, IsTrue, Err, IfOk, IfErr, IfSome, MatchResult};
ghost use Rattle.std.specs.Str.{is_utf8};
ghost use Rattle.serde_json.specs.Data.{depth};
ghost use Rattle.serde_json.specs.Read.{max_depth};
ghost use Rattle.serde_json.specs.View.{view};
ghost use Rattle.rpc_message.specs.Answers.{value};
ghost use Rattle.rpc_message.specs.Candidates as spec;
ghost use Rattle.rpc_message.specs.Json.{json_of};
ghost use Rattle.rpc_message.specs.Replies.{IsReply, IsToEditor, HasSignedId, fault_of};
ghost use Rattle.rpc_message.specs.declared.faults.Cause.TheVariants.{ParseError, InvalidRequest};
ghost use Rattle.rpc_message.specs.declared.faults.MessageFault.TheVariants.{Refused, Memory};
ghost use Rattle.rpc_message.specs.declared.messages.MessageId.TheVariants.{Null};
ghost use Rattle.rpc_message.specs.declared.messages.ToEditor.{ToEditor};

use crate::answers::write_message;
use crate::bodies::value_of;
use crate::errors::refusal_of;
use crate::faults::{Cause, MessageFault};
use crate::forms::{edits_of, uri_of};
use crate::ids::id_form;
use crate::messages::{MessageId, ToEditor};
use crate::methods::Method;
use serde_json::Value;
use std::alloc::{AllocError, Global};

fn success(alloc: Global, value: &Value) -> Result<Option<ToEditor>, AllocError>
    ensures reply { IfOk result (λ reply. reply ≡ spec.success (view value.now)) }
    ensures signed { IfOk result (λ reply. IfSome reply HasSignedId) }
{
    let Some(id) = value.get("id") else {
        return Ok(None);
    };
    match id_form(alloc, id)? {
        Some(id) => Ok(Some(ToEditor::Success(id))),
        None => Ok(None),
    }
}

fn refused(alloc: Global, error: &Value, value: &Value) -> Result<Option<ToEditor>, AllocError>
    ensures reply { IfOk result (λ reply. reply ≡ spec.refused (view error.now) (view value.now)) }
    ensures signed { IfOk result (λ reply. IfSome reply HasSignedId) }
{
    let Some(id) = value.get("id") else {
        return Ok(None);
    };
    let Some(id) = id_form(alloc, id)? else {
        return Ok(None);
    };
    match refusal_of(alloc, error)? {
        Some(refusal) => Ok(Some(ToEditor::Refused(id, refusal))),
        None => Ok(None),
    }
}

fn edit_notice(alloc: Global, params: &Value) -> Result<Option<ToEditor>, AllocError>
    ensures reply { IfOk result (λ reply. reply ≡ spec.edit_notice (view params.now)) }
    ensures signed { IfOk result (λ reply. IfSome reply HasSignedId) }
{
    let Some(delta) = params.get("delta") else {
        return Ok(None);
    };
    let Some(edits) = edits_of(alloc, delta)? else {
        return Ok(None);
    };
    let Some(revision) = params.get("revision").and_then(Value::as_u64) else {
        return Ok(None);
    };
    let Some(uri) = params.get("uri") else {
        return Ok(None);
    };
    match uri_of(alloc, uri)? {
        Some(uri) => Ok(Some(ToEditor::Edit {
            uri,
            revision,
            edits,
        })),
        None => Ok(None),
    }
}

fn notice(alloc: Global, method: &str, value: &Value) -> Result<Option<ToEditor>, AllocError>
    ensures reply { IfOk result (λ reply. reply ≡ spec.notice method.now (view value.now)) }
    ensures signed { IfOk result (λ reply. IfSome reply HasSignedId) }
{
    match value.get("params") {
        Some(params) if Method::Edit.is_named(method) => edit_notice(alloc, params),
        _ => Ok(None),
    }
}

/// The one message that may have this value.
fn candidate(alloc: Global, value: &Value) -> Result<Option<ToEditor>, AllocError>
    ensures reply { IfOk result (λ reply. reply ≡ spec.candidate (view value.now)) }
    ensures signed { IfOk result (λ reply. IfSome reply HasSignedId) }
{
    if let Some(method) = value.get("method").and_then(Value::as_str) {
        return notice(alloc, method, value);
    }
    match value.get("error") {
        Some(error) => refused(alloc, error, value),
        None => success(alloc, value),
    }
}

/// The fault of a value that is no message.
fn no_message() -> MessageFault
    ensures { result ≡ Refused (Some Null) InvalidRequest }
{
    MessageFault::Refused {
        id: Some(MessageId::Null),
        cause: Cause::InvalidRequest,
    }
}

/// Whether the value is that of the message. Two values are one where their bytes are.
fn is_value_of(alloc: Global, json: &Value, message: &ToEditor) -> Result<bool, AllocError>
    requires nests { depth (view json.now) ≤ max_depth }
    requires signed { HasSignedId message.now }
    ensures same { IfOk result (λ is. IsTrue is ↔ (view json.now ≡ value message.now)) }
    ensures message { IfOk result (λ is. IsToEditor message.now) }
{
    let bytes = json.to_vec(alloc)?;
    let expected = write_message(alloc, message)?;
    let is = bytes.as_slice() == expected.as_slice();
    Ok(is)
}

/// The message to an editor that a body is, or why it is none: `ParseError` or `InvalidRequest`.
pub fn read_reply(alloc: Global, body: &[u8]) -> Result<ToEditor, MessageFault>
    ensures found { IfOk result (IsReply body.now) }
    // A body that is a message is read as that one.
    ensures only { (message : ToEditor) → IsReply body.now message
        → MatchResult result (λ found. found ≡ message) (λ fault. fault ≡ Memory) }
    ensures fault { IfErr result (λ fault. (fault ≡ Memory) ⊎ (fault ≡ fault_of (json_of body.now))) }
    // Bytes that are not UTF-8 are refused before memory is asked for.
    ensures no_text { is_utf8 body.now ≡ false → result ≡ Err (Refused (Some Null) ParseError) }
{
    let value = value_of(alloc, body)?;
    let Some(message) = candidate(alloc, &value)? else {
        return Err(no_message());
    };
    if is_value_of(alloc, &value, &message)? {
        Ok(message)
    } else {
        Err(no_message())
    }
}
