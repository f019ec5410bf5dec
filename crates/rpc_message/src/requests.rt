ghost use Rattle.std.specs.Prelude.{◌≡◌, Some, Ok, IfOk, map, false};
ghost use Rattle.serde_json.specs.Data.{string};
ghost use Rattle.serde_json.specs.View.{view, items_view};
ghost use Rattle.serde_json.specs.Written.{compact_text};
ghost use Rattle.rpc_message.specs.Messages.{message_of};
ghost use Rattle.rpc_message.specs.Requests as spec;
ghost use Rattle.rpc_message.specs.Characters.{HasCharacters};
ghost use Rattle.rpc_message.specs.Values as values;
ghost use Rattle.rpc_message.specs.declared.messages.FromEditor.TheVariants as from_editor;
ghost use Rattle.rpc_message.specs.declared.messages.MessageId.TheVariants.{Number};

use crate::messages::FromEditor;
use crate::methods::Method;
use crate::values::{edit_params, span_value, text_value};
use serde_json::{Map, Value, json};
use std::alloc::{AllocError, Global};
use tt_base::{Blob, List, Text, TextRange, Uri};

fn range_values(alloc: Global, ranges: &[TextRange]) -> Result<Vec<Value>, AllocError>
    ensures { IfOk result (λ vs. items_view vs.items ≡ values.items_of (map values.range ranges.now)) }
{
    let mut list = Vec::new(alloc);
    for range in ranges {
        list.push(span_value(alloc, range.start, range.end)?)?;
    }
    Ok(list)
}

fn open_params(alloc: Global, uri: &Uri, content: &Text) -> Result<Value, AllocError>
    ensures value { IfOk result (λ v. view v ≡ spec.params (from_editor.Open uri.now content.now)) }
    ensures characters { IfOk result (λ v. HasCharacters (from_editor.Open uri.now content.now)) }
{
    let content = text_value(alloc, content)?;
    json!(in alloc; {"content": content, "uri": (uri.as_str())})
}

fn cursor_params(alloc: Global, uri: &Uri, ranges: &List<TextRange>) -> Result<Value, AllocError>
    ensures { IfOk result (λ v. view v ≡ spec.params (from_editor.Cursor uri.now ranges.now)) }
{
    let ranges = range_values(alloc, ranges.as_slice())?;
    json!(in alloc; {"ranges": ranges, "uri": (uri.as_str())})
}

fn params(alloc: Global, message: &FromEditor) -> Result<Value, AllocError>
    ensures value { IfOk result (λ v. view v ≡ spec.params message.now) }
    ensures characters { IfOk result (λ v. HasCharacters message.now) }
{
    match message {
        FromEditor::Open { uri, content } => open_params(alloc, uri, content),
        FromEditor::Close { uri } => json!(in alloc; {"uri": (uri.as_str())}),
        FromEditor::Edit {
            uri,
            revision,
            edits,
        } => edit_params(alloc, uri, *revision, edits),
        FromEditor::Cursor { uri, ranges } => cursor_params(alloc, uri, ranges),
        FromEditor::Shutdown | FromEditor::Response => Ok(Value::Object(Map::new(alloc))),
    }
}

fn method(alloc: Global, message: &FromEditor) -> Result<Value, AllocError>
    ensures { IfOk result (λ v. view v ≡ string (spec.method message.now)) }
{
    match message {
        FromEditor::Open { .. } => Method::Open.value(alloc),
        FromEditor::Close { .. } => Method::Close.value(alloc),
        FromEditor::Edit { .. } => Method::Edit.value(alloc),
        FromEditor::Cursor { .. } => Method::Cursor.value(alloc),
        FromEditor::Shutdown => Method::Shutdown.value(alloc),
        FromEditor::Response => Value::try_from_str(alloc, ""),
    }
}

fn request(alloc: Global, id: u64, message: &FromEditor) -> Result<Value, AllocError>
    ensures value { IfOk result (λ v. view v ≡ spec.request id message.now) }
    ensures characters { IfOk result (λ v. HasCharacters message.now) }
{
    let params = params(alloc, message)?;
    let method = method(alloc, message)?;
    json!(in alloc; {"id": id, "jsonrpc": "2.0", "method": method, "params": params})
}

/// The body of a request of an editor: compact JSON, with the members in rising order of their names.
pub fn write_request(alloc: Global, id: u64, message: &FromEditor) -> Result<Blob, AllocError>
    requires { spec.is_response message.now ≡ false }
    ensures text { IfOk result (λ blob. blob ≡ compact_text (spec.request id message.now)) }
    // The body is that message.
    ensures back { IfOk result (λ blob. message_of blob ≡ Ok (record { id = Some (Number id); message = message.now })) }
{
    let value = request(alloc, id, message)?;
    let bytes = value.to_vec(alloc)?;
    Ok(Blob::from_vec(bytes))
}
