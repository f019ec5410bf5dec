ghost use Rattle.std.specs.Prelude.{◌≡◌, false, codes, Some, Err, IfOk};
ghost use Rattle.std.specs.Str.{is_utf8};
ghost use Rattle.serde_json.specs.Find.{as_str, get};
ghost use Rattle.serde_json.specs.View.{view};
ghost use Rattle.rpc_message.specs.Json.{member};
ghost use Rattle.rpc_message.specs.Messages as spec;
ghost use Rattle.rpc_message.specs.Methods.{method_named};
ghost use Rattle.rpc_message.specs.Reads.{Reads};
ghost use Rattle.rpc_message.specs.declared.faults.Cause.TheVariants.{ParseError};
ghost use Rattle.rpc_message.specs.declared.faults.MessageFault.TheVariants.{Refused, Memory};
ghost use Rattle.rpc_message.specs.declared.messages.MessageId.TheVariants.{Null};
ghost use Rattle.tt_base.specs.Answers.{Gives};

use crate::bodies::value_of;
use crate::faults::{Cause, Fault, MessageFault};
use crate::ids::id_form;
use crate::messages::{FromEditor, Incoming, MessageId};
use crate::methods::Method;
use crate::params::called;
use serde_json::Value;
use std::alloc::{AllocError, Global};

/// The id in a value.
fn id_of(alloc: Global, value: &Value) -> Result<Option<MessageId>, AllocError>
    ensures { IfOk result (λ id. id ≡ spec.id_of (view value.now)) }
{
    match value.get("id") {
        Some(id) => id_form(alloc, id),
        None => Ok(None),
    }
}

fn has_version(value: &Value) -> bool
    ensures { result ≡ spec.has_version (view value.now) }
{
    match value.get("jsonrpc").and_then(Value::as_str) {
        Some(version) => version == "2.0",
        None => false,
    }
}

fn has_good_id(value: &Value, id: &Option<MessageId>) -> bool
    requires { id.now ≡ spec.id_of (view value.now) }
    ensures { result ≡ spec.has_good_id (view value.now) }
{
    value.get("id").is_none() || id.is_some()
}

fn is_response(value: &Value) -> bool
    ensures { result ≡ spec.is_response (view value.now) }
{
    let has_result = value.get("result").is_some();
    let has_error = value.get("error").is_some();
    value.get("id").is_some() && ((has_result && !has_error) || (has_error && !has_result))
}

fn has_good_method(value: &Value) -> bool
    ensures { result ≡ spec.has_good_method (get (codes "method") (view value.now)) (view value.now) }
{
    match value.get("method") {
        Some(method) => method.is_string(),
        None => is_response(value),
    }
}

fn is_valid(value: &Value, id: &Option<MessageId>) -> bool
    requires { id.now ≡ spec.id_of (view value.now) }
    ensures { result ≡ spec.is_valid (view value.now) }
{
    value.is_object() && has_version(value) && has_good_id(value, id) && has_good_method(value)
}

fn unless_unknown(alloc: Global, name: &str, value: &Value) -> Result<FromEditor, Fault>
    ensures { Reads result (spec.unless_unknown (method_named name.now) (view value.now)) }
{
    match Method::named(name) {
        Some(method) => called(alloc, method, value),
        None => Err(Fault::Cause(Cause::UnknownMethod)),
    }
}

fn by_method(alloc: Global, value: &Value) -> Result<FromEditor, Fault>
    ensures { Reads result (spec.by_method (member (codes "method") as_str (view value.now)) (view value.now)) }
{
    match value.get("method").and_then(Value::as_str) {
        Some(name) => unless_unknown(alloc, name, value),
        None => Ok(FromEditor::Response),
    }
}

/// The request or response in a value.
fn request_in(alloc: Global, value: &Value, id: &Option<MessageId>) -> Result<FromEditor, Fault>
    requires { id.now ≡ spec.id_of (view value.now) }
    ensures { Reads result (spec.request_in (view value.now)) }
{
    if is_valid(value, id) {
        by_method(alloc, value)
    } else {
        Err(Fault::Cause(Cause::InvalidRequest))
    }
}

/// The id to answer a fault with, by the id that was read. A notification is never answered.
fn answer_id(cause: Cause, id: Option<MessageId>) -> Option<MessageId>
    ensures { result ≡ spec.answer_id cause id }
{
    match cause {
        Cause::ParseError | Cause::InvalidRequest => Some(id.unwrap_or(MessageId::Null)),
        Cause::UnknownMethod | Cause::BadParams(_) => id,
    }
}

/// The message that a body is, or why it is none.
///
/// The body is judged in the order of the causes of [`Cause`], and the members of the parameters in
/// the order of the table of methods. Members without a meaning are passed over.
pub fn read_message(alloc: Global, body: &[u8]) -> Result<Incoming, MessageFault>
    ensures message { Gives Memory result (spec.message_of body.now) }
    // Bytes that are not UTF-8 are refused before memory is asked for.
    ensures no_text { is_utf8 body.now ≡ false → result ≡ Err (Refused (Some Null) ParseError) }
{
    let value = value_of(alloc, body)?;
    let id = id_of(alloc, &value)?;
    match request_in(alloc, &value, &id) {
        Ok(message) => Ok(Incoming { id, message }),
        Err(Fault::Cause(cause)) => Err(MessageFault::Refused {
            id: answer_id(cause, id),
            cause,
        }),
        Err(Fault::Memory) => Err(MessageFault::Memory),
    }
}
