//! The codes of refusals, and their messages. Each code stands without its sign: all are below 0, and the
//! numbers of a table are not.
ghost use Rattle.std.specs.Prelude.{◌≡◌};
ghost use Rattle.rpc_message.specs.Codes as spec;

use name_table::NameTable;

/// The body is no JSON (JSON-RPC 2.0, section 5.1, as the three codes after it).
pub(crate) const PARSE_ERROR: u64 = 32_700;

/// The body is no request.
pub(crate) const INVALID_REQUEST: u64 = 32_600;

/// There is no such method.
pub(crate) const UNKNOWN_METHOD: u64 = 32_601;

/// A member of the parameters is bad.
pub(crate) const BAD_PARAMS: u64 = 32_602;

/// The file is not open. This code and those after it are the project's own.
pub(crate) const NOT_OPEN: u64 = 32_001;

/// The file is open already.
pub(crate) const ALREADY_OPEN: u64 = 32_002;

/// The URI names no shared path.
pub(crate) const BAD_URI: u64 = 32_003;

/// An edit has a position that its text lacks.
pub(crate) const BAD_POSITION: u64 = 32_004;

/// The editor cannot have shown so many edits.
pub(crate) const BAD_REVISION: u64 = 32_005;

/// The text would be too long.
pub(crate) const TEXT_TOO_LONG: u64 = 32_006;

/// Two changes have one name.
pub(crate) const CLASH: u64 = 32_007;

/// A range ends before it begins.
pub(crate) const BACKWARD_RANGE: u64 = 32_008;

/// The table of codes with their messages.
pub fn code_table() -> NameTable<12>
    ensures { result ≡ spec.table }
{
    NameTable::new(&[
        (PARSE_ERROR, "parse error"),
        (INVALID_REQUEST, "invalid request"),
        (UNKNOWN_METHOD, "method not found"),
        (BAD_PARAMS, "invalid params"),
        (NOT_OPEN, "file is not open"),
        (ALREADY_OPEN, "file is already open"),
        (BAD_URI, "bad uri"),
        (BAD_POSITION, "bad position"),
        (BAD_REVISION, "bad revision"),
        (TEXT_TOO_LONG, "text too long"),
        (CLASH, "two changes have one name"),
        (BACKWARD_RANGE, "backward range"),
    ])
}
