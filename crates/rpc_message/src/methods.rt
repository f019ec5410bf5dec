ghost use Rattle.std.specs.Prelude.{◌≡◌, IfOk};
ghost use Rattle.std.specs.Str.{bytes_eq};
ghost use Rattle.serde_json.specs.Data.{string};
ghost use Rattle.serde_json.specs.View.{view};
ghost use Rattle.rpc_message.specs.Methods as spec;

use name_table::{NameTable, rows};
use serde_json::Value;
use std::alloc::{AllocError, Global};

/// What an editor may ask for: a row of the table of methods, with its number there.
#[derive(Clone, Copy, Debug, PartialEq, Eq)]
pub enum Method {
    /// `open`: a file is opened.
    Open = 1,
    /// `close`: a file is closed.
    Close = 2,
    /// `edit`: the text of an open file has changed.
    Edit = 3,
    /// `cursor`: something is selected in an open file.
    Cursor = 4,
    /// `shutdown`: the daemon is to stop.
    Shutdown = 5,
}

/// The methods, in the order of their numbers in the table.
const METHODS: [Method; 5] = [
    Method::Open,
    Method::Close,
    Method::Edit,
    Method::Cursor,
    Method::Shutdown,
];

/// The table of methods, which are numbered from 1.
pub fn method_table() -> NameTable<5>
    ensures { result ≡ spec.methods }
{
    rows! { 1 => "open", 2 => "close", 3 => "edit", 4 => "cursor", 5 => "shutdown" }
}

impl Method {
    /// The method of this name.
    pub(crate) fn named(name: &str) -> Option<Method>
        ensures { result ≡ spec.method_named name.now }
    {
        let number = method_table().find_word(name)?;
        let place = number.checked_sub(1)? as usize;
        if place < METHODS.len() {
            Some(METHODS[place])
        } else {
            None
        }
    }

    /// Whether the method has this name.
    pub(crate) fn is_named(self, name: &str) -> bool
        ensures { result ≡ bytes_eq name.now (spec.name self) }
    {
        let table = method_table();
        name == table.find_number(self as u64).unwrap_or("")
    }

    /// The name of the method as a JSON value.
    pub(crate) fn value(self, alloc: Global) -> Result<Value, AllocError>
        ensures { IfOk result (λ v. view v ≡ string (spec.name self)) }
    {
        let table = method_table();
        Value::try_from_str(alloc, table.find_number(self as u64).unwrap_or(""))
    }
}
