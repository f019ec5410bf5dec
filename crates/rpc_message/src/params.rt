ghost use Rattle.serde_json.specs.View.{view};
ghost use Rattle.serde_json.specs.Find.{as_str};
ghost use Rattle.rpc_message.specs.Forms as forms;
ghost use Rattle.rpc_message.specs.Params as spec;
ghost use Rattle.rpc_message.specs.Reads.{Reads, ReadsBy};
ghost use Rattle.rpc_message.specs.declared.members.Member.TheVariants as member;
ghost use Rattle.rpc_message.specs.declared.methods.Method.TheVariants as method;

use crate::faults::{Cause, Fault};
use crate::forms::{edits_of, ranges_of, text_of, uri_of};
use crate::members::Member;
use crate::messages::FromEditor;
use crate::methods::Method;
use serde_json::Value;
use std::alloc::Global;
use tt_base::{List, Text, TextEdit, TextRange, Uri};

/// The value of a member, unless it is missing or of another form.
fn unless_bad<T: Drop>(member: Member, value: Option<T>) -> Result<T, Fault>
    ensures { Reads result (spec.unless_bad member value) }
{
    match value {
        Some(value) => Ok(value),
        None => Err(Fault::Cause(Cause::BadParams(member))),
    }
}

/// The parameters, which are an object.
fn params_of(value: &Value) -> Result<&Value, Fault>
    ensures { ReadsBy (λ params. view params.now) result (spec.wanted member.Params spec.object (view value.now)) }
{
    match value.get("params") {
        Some(params) if params.is_object() => Ok(params),
        _ => Err(Fault::Cause(Cause::BadParams(Member::Params))),
    }
}

fn uri(alloc: Global, params: &Value) -> Result<Uri, Fault>
    ensures { Reads result (spec.wanted member.Uri as_str (view params.now)) }
{
    match params.get("uri") {
        Some(value) => unless_bad(Member::Uri, uri_of(alloc, value)?),
        None => Err(Fault::Cause(Cause::BadParams(Member::Uri))),
    }
}

fn content(alloc: Global, params: &Value) -> Result<Text, Fault>
    ensures { Reads result (spec.wanted member.Content forms.text (view params.now)) }
{
    match params.get("content") {
        Some(value) => unless_bad(Member::Content, text_of(alloc, value)?),
        None => Err(Fault::Cause(Cause::BadParams(Member::Content))),
    }
}

fn revision(params: &Value) -> Result<u64, Fault>
    ensures { Reads result (spec.wanted member.Revision forms.whole (view params.now)) }
{
    unless_bad(
        Member::Revision,
        params.get("revision").and_then(Value::as_u64),
    )
}

fn delta(alloc: Global, params: &Value) -> Result<List<TextEdit>, Fault>
    ensures { Reads result (spec.wanted member.Delta (forms.array forms.edit) (view params.now)) }
{
    match params.get("delta") {
        Some(value) => unless_bad(Member::Delta, edits_of(alloc, value)?),
        None => Err(Fault::Cause(Cause::BadParams(Member::Delta))),
    }
}

fn ranges(alloc: Global, params: &Value) -> Result<List<TextRange>, Fault>
    ensures { Reads result (spec.wanted member.Ranges (forms.array forms.range) (view params.now)) }
{
    match params.get("ranges") {
        Some(value) => unless_bad(Member::Ranges, ranges_of(alloc, value)?),
        None => Err(Fault::Cause(Cause::BadParams(Member::Ranges))),
    }
}

fn open(alloc: Global, value: &Value) -> Result<FromEditor, Fault>
    ensures { Reads result (spec.called method.Open (view value.now)) }
{
    let params = params_of(value)?;
    let uri = uri(alloc, params)?;
    let content = content(alloc, params)?;
    Ok(FromEditor::Open { uri, content })
}

fn close(alloc: Global, value: &Value) -> Result<FromEditor, Fault>
    ensures { Reads result (spec.called method.Close (view value.now)) }
{
    let params = params_of(value)?;
    let uri = uri(alloc, params)?;
    Ok(FromEditor::Close { uri })
}

fn edit(alloc: Global, value: &Value) -> Result<FromEditor, Fault>
    ensures { Reads result (spec.called method.Edit (view value.now)) }
{
    let params = params_of(value)?;
    let uri = uri(alloc, params)?;
    let revision = revision(params)?;
    let edits = delta(alloc, params)?;
    Ok(FromEditor::Edit {
        uri,
        revision,
        edits,
    })
}

fn cursor(alloc: Global, value: &Value) -> Result<FromEditor, Fault>
    ensures { Reads result (spec.called method.Cursor (view value.now)) }
{
    let params = params_of(value)?;
    let uri = uri(alloc, params)?;
    let ranges = ranges(alloc, params)?;
    Ok(FromEditor::Cursor { uri, ranges })
}

/// The request of a method, by the members in its row of the table.
pub(crate) fn called(alloc: Global, method: Method, value: &Value) -> Result<FromEditor, Fault>
    ensures { Reads result (spec.called method (view value.now)) }
{
    match method {
        Method::Open => open(alloc, value),
        Method::Close => close(alloc, value),
        Method::Edit => edit(alloc, value),
        Method::Cursor => cursor(alloc, value),
        Method::Shutdown => Ok(FromEditor::Shutdown),
    }
}
