ghost use Rattle.std.specs.Prelude.{◌≡◌, IfOk};
ghost use Rattle.serde_json.specs.View.{view};
ghost use Rattle.rpc_message.specs.Candidates as spec;

use crate::causes::UriCause;
use crate::codes::{
    ALREADY_OPEN, BACKWARD_RANGE, BAD_PARAMS, BAD_POSITION, BAD_REVISION, BAD_URI, CLASH,
    INVALID_REQUEST, NOT_OPEN, PARSE_ERROR, TEXT_TOO_LONG, UNKNOWN_METHOD,
};
use crate::forms::bytes_of;
use crate::members::member_named;
use crate::refusals::Refusal;
use serde_json::Value;
use std::alloc::{AllocError, Global};

fn bad_params(facts: &Value) -> Option<Refusal>
    ensures { result ≡ spec.bad_params (view facts.now) }
{
    let name = facts.get("member").and_then(Value::as_str)?;
    Some(Refusal::BadParams(member_named(name)?))
}

fn bad_uri(facts: &Value) -> Option<Refusal>
    ensures { result ≡ spec.bad_uri (view facts.now) }
{
    let name = facts.get("cause").and_then(Value::as_str)?;
    Some(Refusal::BadUri(UriCause::named(name)?))
}

fn bad_revision(facts: &Value) -> Option<Refusal>
    ensures { result ≡ spec.bad_revision (view facts.now) }
{
    let confirmed = facts.get("confirmed").and_then(Value::as_u64)?;
    let issued = facts.get("issued").and_then(Value::as_u64)?;
    let seen = facts.get("seen").and_then(Value::as_u64)?;
    Some(Refusal::BadRevision {
        confirmed,
        issued,
        seen,
    })
}

fn clash(alloc: Global, facts: &Value) -> Result<Option<Refusal>, AllocError>
    ensures { IfOk result (λ refusal. refusal ≡ spec.clash (view facts.now)) }
{
    let Some(given) = facts.get("given") else {
        return Ok(None);
    };
    let Some(held) = facts.get("held") else {
        return Ok(None);
    };
    let Some(given) = bytes_of(alloc, given)? else {
        return Ok(None);
    };
    match bytes_of(alloc, held)? {
        Some(held) => Ok(Some(Refusal::Clash { given, held })),
        None => Ok(None),
    }
}

/// The refusal of a code without its sign, where the error has no data.
fn plain(code: u64) -> Option<Refusal>
    ensures { result ≡ spec.plain code }
{
    match code {
        PARSE_ERROR => Some(Refusal::ParseError),
        INVALID_REQUEST => Some(Refusal::InvalidRequest),
        UNKNOWN_METHOD => Some(Refusal::UnknownMethod),
        NOT_OPEN => Some(Refusal::NotOpen),
        ALREADY_OPEN => Some(Refusal::AlreadyOpen),
        _ => None,
    }
}

/// The same where it has some.
fn with_facts(alloc: Global, code: u64, facts: &Value) -> Result<Option<Refusal>, AllocError>
    ensures { IfOk result (λ refusal. refusal ≡ spec.with_facts code (view facts.now)) }
{
    let edit = facts.get("edit").and_then(Value::as_u64);
    let length = facts.get("length").and_then(Value::as_u64);
    match code {
        BAD_PARAMS => Ok(bad_params(facts)),
        BAD_URI => Ok(bad_uri(facts)),
        BAD_POSITION => Ok(edit.map(Refusal::BadPosition)),
        BAD_REVISION => Ok(bad_revision(facts)),
        TEXT_TOO_LONG => Ok(length.map(Refusal::TextTooLong)),
        CLASH => clash(alloc, facts),
        BACKWARD_RANGE => Ok(edit.map(Refusal::BackwardRange)),
        _ => Ok(None),
    }
}

/// The one refusal that may have this value as its error.
pub(crate) fn refusal_of(alloc: Global, error: &Value) -> Result<Option<Refusal>, AllocError>
    ensures { IfOk result (λ refusal. refusal ≡ spec.refusal (view error.now)) }
{
    let Some(code) = error.get("code").and_then(Value::as_i64) else {
        return Ok(None);
    };
    match error.get("data") {
        Some(facts) => with_facts(alloc, code.unsigned_abs(), facts),
        None => Ok(plain(code.unsigned_abs())),
    }
}
