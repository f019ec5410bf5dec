ghost use Rattle.std.specs.Prelude.{◌≡◌, IfOk};
ghost use Rattle.serde_json.specs.Data.{string};
ghost use Rattle.serde_json.specs.View.{view};
ghost use Rattle.rpc_message.specs.Causes as spec;

use name_table::{NameTable, rows};
use serde_json::Value;
use std::alloc::{AllocError, Global};

/// Why a URI names no shared path: a rule of the URI, or one of the path that it would name.
#[derive(Clone, Copy, Debug, PartialEq, Eq)]
pub enum UriCause {
    /// The text is no URL by the URL Standard.
    NotAUri,
    /// The scheme of the URI is not `file`.
    NotFile,
    /// The URI has a host.
    HasHost,
    /// Its path is not below that of the base.
    OutsideBase,
    /// The path below the base is not UTF-8 once it is decoded.
    NotUtf8,
    /// The path has more than 1,024 bytes.
    TooLong,
    /// The path has the character U+0000.
    NulByte,
    /// The path begins with a slash.
    Absolute,
    /// The path is empty, or has an empty part.
    Empty,
    /// The path has a part `.` or `..`.
    DotPart,
    /// The path has a part `.git` or `.teamd`.
    Reserved,
    /// The path has more than 32 parts.
    TooDeep,
}

/// The causes, each at the place of its number in the table.
const CAUSES: [UriCause; 12] = [
    UriCause::NotAUri,
    UriCause::NotFile,
    UriCause::HasHost,
    UriCause::OutsideBase,
    UriCause::NotUtf8,
    UriCause::TooLong,
    UriCause::NulByte,
    UriCause::Absolute,
    UriCause::Empty,
    UriCause::DotPart,
    UriCause::Reserved,
    UriCause::TooDeep,
];

/// The table of the causes' names, as messages have them.
fn causes() -> NameTable<12>
    ensures { result ≡ spec.causes }
{
    rows! {
        0 => "NotAUri",
        1 => "NotFile",
        2 => "HasHost",
        3 => "OutsideBase",
        4 => "NotUtf8",
        5 => "TooLong",
        6 => "NulByte",
        7 => "Absolute",
        8 => "Empty",
        9 => "DotPart",
        10 => "Reserved",
        11 => "TooDeep",
    }
}

impl UriCause {
    /// The cause of this name.
    pub(crate) fn named(name: &str) -> Option<UriCause>
        ensures { result ≡ spec.cause_named name.now }
    {
        let number = causes().find_word(name)? as usize;
        if number < CAUSES.len() {
            Some(CAUSES[number])
        } else {
            None
        }
    }

    /// The name of the cause as a JSON value.
    pub(crate) fn value(self, alloc: Global) -> Result<Value, AllocError>
        ensures { IfOk result (λ v. view v ≡ string (spec.name self)) }
    {
        let names = causes();
        match names.find_number(self as u64) {
            Some(name) => Value::try_from_str(alloc, name),
            None => Ok(Value::Null),
        }
    }
}
