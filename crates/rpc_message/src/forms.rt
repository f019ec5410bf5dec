ghost use Rattle.std.specs.Prelude.{◌≡◌, IfOk};
ghost use Rattle.serde_json.specs.Find.{as_str};
ghost use Rattle.serde_json.specs.View.{view};
ghost use Rattle.rpc_message.specs.Forms as forms;

use hex::FromHexError;
use serde_json::Value;
use std::alloc::{AllocError, Global};
use tt_base::{Blob, List, Position, Text, TextEdit, TextRange, Uri};

/// A string, as a URI.
pub(crate) fn uri_of(alloc: Global, value: &Value) -> Result<Option<Uri>, AllocError>
    ensures { IfOk result (λ uri. uri ≡ as_str (view value.now)) }
{
    match value.as_str() {
        Some(text) => Ok(Some(Uri::from_str(alloc, text)?)),
        None => Ok(None),
    }
}

/// A string, as a text.
pub(crate) fn text_of(alloc: Global, value: &Value) -> Result<Option<Text>, AllocError>
    ensures { IfOk result (λ text. text ≡ forms.text (view value.now)) }
{
    match value.as_str() {
        Some(text) => Ok(Some(Text::from_str(alloc, text)?)),
        None => Ok(None),
    }
}

/// The bytes that some pairs of hexadecimal digits are.
fn decoded(alloc: Global, digits: &str) -> Result<Option<Blob>, AllocError>
    ensures { IfOk result (λ bytes. bytes ≡ forms.decoded digits.now) }
{
    match hex::decode(alloc, digits) {
        Ok(bytes) => Ok(Some(Blob::from_vec(bytes))),
        Err(FromHexError::OutOfMemory) => Err(AllocError),
        Err(_) => Ok(None),
    }
}

/// A string of hexadecimal digits, as its bytes.
pub(crate) fn bytes_of(alloc: Global, value: &Value) -> Result<Option<Blob>, AllocError>
    ensures { IfOk result (λ bytes. bytes ≡ forms.bytes (view value.now)) }
{
    match value.as_str() {
        Some(digits) => decoded(alloc, digits),
        None => Ok(None),
    }
}

/// A position in a text.
fn position_of(value: &Value) -> Option<Position>
    ensures { result ≡ forms.position (view value.now) }
{
    let line = value.get("line").and_then(Value::as_u64)?;
    let character = value.get("character").and_then(Value::as_u64)?;
    Some(Position { line, character })
}

/// A range of a text.
fn range_of(value: &Value) -> Option<TextRange>
    ensures { result ≡ forms.range (view value.now) }
{
    let start = value.get("start").and_then(position_of)?;
    let end = value.get("end").and_then(position_of)?;
    Some(TextRange { start, end })
}

/// A range and what replaces it.
fn edit_of(alloc: Global, value: &Value) -> Result<Option<TextEdit>, AllocError>
    ensures { IfOk result (λ edit. edit ≡ forms.edit (view value.now)) }
{
    let Some(range) = value.get("range").and_then(range_of) else {
        return Ok(None);
    };
    let Some(text) = value.get("replacement") else {
        return Ok(None);
    };
    match text_of(alloc, text)? {
        Some(replacement) => Ok(Some(TextEdit {
            start: range.start,
            end: range.end,
            replacement,
        })),
        None => Ok(None),
    }
}

/// An array of ranges.
pub(crate) fn ranges_of(alloc: Global, value: &Value) -> Result<Option<List<TextRange>>, AllocError>
    ensures { IfOk result (λ ranges. ranges ≡ forms.array forms.range (view value.now)) }
{
    let Some(values) = value.as_array() else {
        return Ok(None);
    };
    let mut ranges = List::empty(alloc)?;
    for value in values {
        match range_of(value) {
            Some(range) => ranges.push(alloc, range)?,
            None => return Ok(None),
        }
    }
    Ok(Some(ranges))
}

/// An array of edits.
pub(crate) fn edits_of(alloc: Global, value: &Value) -> Result<Option<List<TextEdit>>, AllocError>
    ensures { IfOk result (λ edits. edits ≡ forms.array forms.edit (view value.now)) }
{
    let Some(values) = value.as_array() else {
        return Ok(None);
    };
    let mut edits = List::empty(alloc)?;
    for value in values {
        match edit_of(alloc, value)? {
            Some(edit) => edits.push(alloc, edit)?,
            None => return Ok(None),
        }
    }
    Ok(Some(edits))
}
