ghost use Rattle.std.specs.Prelude.{◌≡◌, ◌<◌, ◌^◌};
ghost use Rattle.rpc_message.specs.Codes as spec;

use crate::causes::UriCause;
use crate::codes::{
    ALREADY_OPEN, BACKWARD_RANGE, BAD_PARAMS, BAD_POSITION, BAD_REVISION, BAD_URI, CLASH,
    INVALID_REQUEST, NOT_OPEN, PARSE_ERROR, TEXT_TOO_LONG, UNKNOWN_METHOD,
};
use crate::faults::Cause;
use crate::members::Member;
use tt_base::Blob;

/// Why a request is refused: a row of the table of codes, with the values of its data.
#[derive(Debug, Drop)]
pub enum Refusal {
    /// The body is no JSON.
    ParseError,
    /// The body is no request of JSON-RPC 2.0.
    InvalidRequest,
    /// There is no such method.
    UnknownMethod,
    /// This member of the parameters is missing or of another form.
    BadParams(Member),
    /// The editor has not opened the file.
    NotOpen,
    /// The editor has opened the file already.
    AlreadyOpen,
    /// The URI names no shared path.
    BadUri(UriCause),
    /// The edit of this index, from 0, has a position that its text lacks.
    BadPosition(u64),
    /// The editor cannot have shown `seen` edits of the daemon: `issued` were sent, and `confirmed` of
    /// them were reported before.
    BadRevision {
        confirmed: u64,
        issued: u64,
        seen: u64,
    },
    /// The text would have this many characters.
    TextTooLong(u64),
    /// Two changes have one name. These are the bytes of the one that came and of the one that was
    /// there.
    Clash {
        given: Blob,
        held: Blob,
    },
    /// The range of the edit of this index, from 0, ends before it begins.
    BackwardRange(u64),
}

impl From<Cause> for Refusal {
    ghost use Rattle.std.specs.Prelude.{◌≡◌};
    ghost use Rattle.rpc_message.specs.Refusing.{refusal_for};

    ghost from_gives = { λ cause refusal. refusal ≡ refusal_for cause };

    fn from(cause: Cause) -> Refusal {
        match cause {
            Cause::ParseError => Refusal::ParseError,
            Cause::InvalidRequest => Refusal::InvalidRequest,
            Cause::UnknownMethod => Refusal::UnknownMethod,
            Cause::BadParams(member) => Refusal::BadParams(member),
        }
    }
}

/// The code of a refusal, without its sign.
pub(crate) fn code_of(refusal: &Refusal) -> u64
    ensures code { result ≡ spec.code refusal.now }
    ensures small { result < 2 ^ 16 }
{
    match refusal {
        Refusal::ParseError => PARSE_ERROR,
        Refusal::InvalidRequest => INVALID_REQUEST,
        Refusal::UnknownMethod => UNKNOWN_METHOD,
        Refusal::BadParams(_) => BAD_PARAMS,
        Refusal::NotOpen => NOT_OPEN,
        Refusal::AlreadyOpen => ALREADY_OPEN,
        Refusal::BadUri(_) => BAD_URI,
        Refusal::BadPosition(_) => BAD_POSITION,
        Refusal::BadRevision { .. } => BAD_REVISION,
        Refusal::TextTooLong(_) => TEXT_TOO_LONG,
        Refusal::Clash { .. } => CLASH,
        Refusal::BackwardRange(_) => BACKWARD_RANGE,
    }
}

impl Refusal {
    /// The code of the refusal, as messages have it.
    pub fn code(&self) -> i64
        ensures { result ≡ spec.signed_code self.now }
    {
        -(code_of(self) as i64)
    }
}
