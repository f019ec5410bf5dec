ghost use Rattle.std.specs.Prelude.{◌≡◌, ◌++◌, ◌∷◌, [], OnOk, IfOk, true, encode_utf8_all, string_bytes, map};
ghost use Rattle.std.specs.Str.{all_scalars};
ghost use Rattle.std.specs.List.{AllByRecursion};
ghost use Rattle.hex.specs.Hex.{IsBytes};
ghost use Rattle.serde_json.specs.View.{view, items_view};
ghost use Rattle.rpc_message.specs.Ids.{IsId, IsSigned};
ghost use Rattle.rpc_message.specs.Replies.{IsEdit};
ghost use Rattle.rpc_message.specs.Values as values;

use crate::messages::MessageId;
use serde_json::{Value, json};
use std::alloc::{AllocError, Global};
use tt_base::{List, Position, Text, TextEdit, Uri};

/// Adds a character, which is a Unicode scalar value as each `char` is.
fn push_character(string: &mut String, character: char) -> Result<(), AllocError>
    ensures bytes { OnOk result (string_bytes string.new ≡ string_bytes string.old ++ encode_utf8_all (character ∷ [])) }
    ensures scalar { all_scalars (character ∷ []) ≡ true }
{
    string.push(character)?;
    Ok(())
}

/// The characters in UTF-8. They are known to be Unicode scalar values once they were seen.
fn encoded(alloc: Global, characters: &[char]) -> Result<String, AllocError>
    ensures bytes { IfOk result (λ string. string_bytes string ≡ encode_utf8_all characters.now) }
    ensures scalars { IfOk result (λ string. all_scalars characters.now ≡ true) }
{
    let mut string = String::with_capacity(alloc, characters.len())?;
    for character in characters {
        push_character(&mut string, *character)?;
    }
    Ok(string)
}

/// The text as a string.
fn string_of(alloc: Global, text: &Text) -> Result<String, AllocError>
    ensures bytes { IfOk result (λ string. string_bytes string ≡ encode_utf8_all text.now) }
    ensures scalars { IfOk result (λ string. all_scalars text.now ≡ true) }
{
    let mut characters = Vec::with_capacity(alloc, text.len())?;
    text.append_to(&mut characters)?;
    let string = encoded(alloc, characters.as_slice())?;
    Ok(string)
}

pub(crate) fn text_value(alloc: Global, text: &Text) -> Result<Value, AllocError>
    ensures value { IfOk result (λ v. view v ≡ values.text text.now) }
    ensures characters { IfOk result (λ v. all_scalars text.now ≡ true) }
{
    let string = string_of(alloc, text)?;
    Ok(Value::String(string))
}

pub(crate) fn bytes_value(alloc: Global, bytes: &[u8]) -> Result<Value, AllocError>
    ensures value { IfOk result (λ v. view v ≡ values.bytes bytes.now) }
    ensures bytes { IsBytes bytes.now }
{
    let digits = hex::encode(alloc, bytes)?;
    Ok(Value::String(digits))
}

pub(crate) fn id_value(alloc: Global, id: &MessageId) -> Result<Value, AllocError>
    ensures value { IfOk result (λ v. view v ≡ values.id id.now) }
    ensures id { IfOk result (λ v. IsSigned id.now → IsId id.now) }
{
    match id {
        MessageId::Words(text) => text_value(alloc, text),
        MessageId::Below(number) => Ok(Value::from(*number)),
        MessageId::Number(number) => Ok(Value::from(*number)),
        MessageId::Null => Ok(Value::Null),
    }
}

fn position_value(alloc: Global, position: Position) -> Result<Value, AllocError>
    ensures { IfOk result (λ v. view v ≡ values.position position) }
{
    json!(in alloc; {"character": position.character, "line": position.line})
}

/// The range from `start` up to `end`.
pub(crate) fn span_value(alloc: Global, start: Position, end: Position) -> Result<Value, AllocError>
    ensures { IfOk result (λ v. view v ≡ values.span start end) }
{
    let start = position_value(alloc, start)?;
    let end = position_value(alloc, end)?;
    json!(in alloc; {"end": end, "start": start})
}

fn edit_value(alloc: Global, edit: &TextEdit) -> Result<Value, AllocError>
    ensures value { IfOk result (λ v. view v ≡ values.edit edit.now) }
    ensures characters { IfOk result (λ v. IsEdit edit.now) }
{
    let range = span_value(alloc, edit.start, edit.end)?;
    let replacement = text_value(alloc, &edit.replacement)?;
    json!(in alloc; {"range": range, "replacement": replacement})
}

fn edit_values(alloc: Global, edits: &[TextEdit]) -> Result<Vec<Value>, AllocError>
    ensures values { IfOk result (λ vs. items_view vs.items ≡ values.items_of (map values.edit edits.now)) }
    ensures characters { IfOk result (λ vs. AllByRecursion IsEdit edits.now) }
{
    let mut list = Vec::new(alloc);
    for edit in edits {
        list.push(edit_value(alloc, edit)?)?;
    }
    Ok(list)
}

/// The parameters of an edit, of the editor or of the daemon.
pub(crate) fn edit_params(
    alloc: Global,
    uri: &Uri,
    revision: u64,
    edits: &List<TextEdit>,
) -> Result<Value, AllocError>
    ensures value { IfOk result (λ v. view v ≡ values.edit_params uri.now revision edits.now) }
    ensures characters { IfOk result (λ v. AllByRecursion IsEdit edits.now) }
{
    let delta = edit_values(alloc, edits.as_slice())?;
    json!(in alloc; {"delta": delta, "revision": revision, "uri": (uri.as_str())})
}
