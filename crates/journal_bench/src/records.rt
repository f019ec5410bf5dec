ghost use Rattle.std.specs.Prelude.{IfOk};
ghost use Rattle.journal_format.specs.Encoding.{HoldsEncoding};

use anyhow::{Result, bail};
use change_journal::{Known, Note, Record};
use std::alloc::Global;
use tt_base::SharedPath;

/// A record of some hundred bytes, about as long as that of a change that types a character.
pub fn note(alloc: Global) -> Result<Record>
    ensures { IfOk result (λ entry. HoldsEncoding entry) }
{
    let Ok(path) = SharedPath::read(alloc, "notes/today.txt") else {
        bail!("no path");
    };
    Ok(Record::Note(
        path,
        Note::Two(Known::Digest([0x11; 32]), Known::Digest([0x22; 32])),
    ))
}
