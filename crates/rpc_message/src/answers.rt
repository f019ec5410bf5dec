ghost use Rattle.std.specs.Prelude.{◌≡◌, IfOk, Some, None, MatchOption};
ghost use Rattle.serde_json.specs.Data.{string};
ghost use Rattle.serde_json.specs.View.{view};
ghost use Rattle.rpc_message.specs.Answers as spec;
ghost use Rattle.rpc_message.specs.Codes.{message};
ghost use Rattle.rpc_message.specs.Replies.{IsRefusal, IsToEditor, HasSignedId, IsReply};
ghost use Rattle.rpc_message.specs.Written.{written};
ghost use Rattle.rpc_message.specs.declared.messages.ToEditor.TheVariants as to_editor;
ghost use Rattle.rpc_message.specs.declared.refusals.Refusal.TheVariants as refused;

use crate::causes::UriCause;
use crate::codes::code_table;
use crate::messages::{MessageId, ToEditor};
use crate::methods::Method;
use crate::refusals::{Refusal, code_of};
use crate::values::{bytes_value, edit_params, id_value};
use serde_json::{Value, json};
use std::alloc::{AllocError, Global};
use tt_base::{Blob, List, TextEdit, Uri};

fn message_value(alloc: Global, refusal: &Refusal) -> Result<Value, AllocError>
    ensures { IfOk result (λ v. view v ≡ string (message refusal.now)) }
{
    let table = code_table();
    Value::try_from_str(alloc, table.find_number(code_of(refusal)).unwrap_or(""))
}

fn bad_uri_data(alloc: Global, cause: UriCause) -> Result<Value, AllocError>
    ensures { IfOk result (λ v. spec.facts (refused.BadUri cause) ≡ Some (view v)) }
{
    let cause = cause.value(alloc)?;
    json!(in alloc; {"cause": cause})
}

fn bad_revision_data(
    alloc: Global,
    confirmed: u64,
    issued: u64,
    seen: u64,
) -> Result<Value, AllocError>
    ensures { IfOk result (λ v. spec.facts (refused.BadRevision confirmed issued seen) ≡ Some (view v)) }
{
    json!(in alloc; {"confirmed": confirmed, "issued": issued, "seen": seen})
}

fn clash_data(alloc: Global, given: &Blob, held: &Blob) -> Result<Value, AllocError>
    ensures value { IfOk result (λ v. spec.facts (refused.Clash given.now held.now) ≡ Some (view v)) }
    ensures bytes { IfOk result (λ v. IsRefusal (refused.Clash given.now held.now)) }
{
    let given = bytes_value(alloc, given.as_slice())?;
    let held = bytes_value(alloc, held.as_slice())?;
    json!(in alloc; {"given": given, "held": held})
}

/// The data of a refusal, where the table of codes has some.
fn data_of(alloc: Global, refusal: &Refusal) -> Result<Option<Value>, AllocError>
    ensures value { IfOk result (λ facts. MatchOption facts (spec.facts refusal.now ≡ None) (λ v. spec.facts refusal.now ≡ Some (view v))) }
    ensures refusal { IfOk result (λ facts. IsRefusal refusal.now) }
{
    match refusal {
        Refusal::BadParams(member) => { Ok(Some(json!(in alloc; {"member": (member.name())})?)) }
        Refusal::BadUri(cause) => Ok(Some(bad_uri_data(alloc, *cause)?)),
        Refusal::BadPosition(edit) => Ok(Some(json!(in alloc; {"edit": (*edit)})?)),
        Refusal::BadRevision {
            confirmed,
            issued,
            seen,
        } => { Ok(Some(bad_revision_data(alloc, *confirmed, *issued, *seen)?)) }
        Refusal::TextTooLong(length) => Ok(Some(json!(in alloc; {"length": (*length)})?)),
        Refusal::Clash { given, held } => Ok(Some(clash_data(alloc, given, held)?)),
        Refusal::BackwardRange(edit) => Ok(Some(json!(in alloc; {"edit": (*edit)})?)),
        _ => Ok(None),
    }
}

fn error_value(alloc: Global, refusal: &Refusal) -> Result<Value, AllocError>
    ensures value { IfOk result (λ v. view v ≡ spec.error refusal.now) }
    ensures refusal { IfOk result (λ v. IsRefusal refusal.now) }
{
    let message = message_value(alloc, refusal)?;
    let code = refusal.code();
    match data_of(alloc, refusal)? {
        Some(data) => json!(in alloc; {"code": code, "data": data, "message": message}),
        None => json!(in alloc; {"code": code, "message": message}),
    }
}

fn success_value(alloc: Global, id: &MessageId) -> Result<Value, AllocError>
    ensures value { IfOk result (λ v. view v ≡ spec.value (to_editor.Success id.now)) }
    ensures message { IfOk result (λ v. HasSignedId (to_editor.Success id.now) → IsToEditor (to_editor.Success id.now)) }
{
    let id = id_value(alloc, id)?;
    json!(in alloc; {"id": id, "jsonrpc": "2.0", "result": "success"})
}

fn refused_value(alloc: Global, id: &MessageId, refusal: &Refusal) -> Result<Value, AllocError>
    ensures value { IfOk result (λ v. view v ≡ spec.value (to_editor.Refused id.now refusal.now)) }
    ensures message { IfOk result (λ v. HasSignedId (to_editor.Refused id.now refusal.now) → IsToEditor (to_editor.Refused id.now refusal.now)) }
{
    let id = id_value(alloc, id)?;
    let error = error_value(alloc, refusal)?;
    json!(in alloc; {"error": error, "id": id, "jsonrpc": "2.0"})
}

fn edit_notice(
    alloc: Global,
    uri: &Uri,
    revision: u64,
    edits: &List<TextEdit>,
) -> Result<Value, AllocError>
    ensures value { IfOk result (λ v. view v ≡ spec.value (to_editor.Edit uri.now revision edits.now)) }
    ensures message { IfOk result (λ v. IsToEditor (to_editor.Edit uri.now revision edits.now)) }
{
    let params = edit_params(alloc, uri, revision, edits)?;
    let method = Method::Edit.value(alloc)?;
    json!(in alloc; {"jsonrpc": "2.0", "method": method, "params": params})
}

/// The value of a message to an editor.
fn message_to_editor(alloc: Global, message: &ToEditor) -> Result<Value, AllocError>
    ensures value { IfOk result (λ v. view v ≡ spec.value message.now) }
    ensures message { IfOk result (λ v. HasSignedId message.now → IsToEditor message.now) }
{
    match message {
        ToEditor::Success(id) => success_value(alloc, id),
        ToEditor::Refused(id, refusal) => refused_value(alloc, id, refusal),
        ToEditor::Edit {
            uri,
            revision,
            edits,
        } => edit_notice(alloc, uri, *revision, edits),
    }
}

/// The body of a message to an editor: compact JSON, with the members in rising order of their names.
///
/// An id in `Below` is meant to be below 0; another is written as the number that it is.
pub fn write_message(alloc: Global, message: &ToEditor) -> Result<Blob, AllocError>
    ensures text { IfOk result (λ blob. blob ≡ written message.now) }
    // The body is that message.
    ensures back { IfOk result (λ blob. HasSignedId message.now → IsReply blob message.now) }
{
    let value = message_to_editor(alloc, message)?;
    let bytes = value.to_vec(alloc)?;
    Ok(Blob::from_vec(bytes))
}
