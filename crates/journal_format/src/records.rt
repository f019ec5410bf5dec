ghost use Rattle.std.specs.Prelude.{◌≡◌, IfOk};
ghost use Rattle.journal_format.specs.Encoding.{kinds, kind_of};

use name_table::{NameTable, rows};
use std::alloc::{AllocError, Global};
use tt_base::{Actor, Blob, SharedPath};

/// What is known of a file's content.
#[derive(Clone, Copy, Debug, PartialEq, Eq)]
pub enum Known {
    /// There was no file.
    Absent,
    /// The SHA-256 digest of the content (FIPS 180-4).
    Digest([u8; 32]),
}

/// What a daemon has noted of a path: which contents of its file it brought there or has seen.
#[derive(Clone, Copy, Debug, PartialEq, Eq)]
pub enum Note {
    /// An editor has the path open, so the content that is there counts as known.
    Open,
    /// This content is known.
    One(Known),
    /// Both contents are known: that before a file was put, and that behind it.
    Two(Known, Known),
}

/// What a journal keeps: a fact that outlives a crash.
#[derive(Debug, Drop, PartialEq, Eq)]
pub enum Record {
    /// The daemon whose journal it is.
    Actor(Actor),
    /// A change that is held, by its encoding.
    Change(Blob),
    /// The note of a path.
    Note(SharedPath, Note),
}

/// The kinds of records, with the number that stands in bytes and the word that stands in texts.
pub fn record_kinds() -> NameTable<3>
    ensures { result ≡ kinds }
{
    rows! { 1 => "actor", 2 => "change", 3 => "note" }
}

impl Record {
    /// The number of the record's kind, a row of [`record_kinds`].
    pub fn kind(&self) -> u8
        ensures { result ≡ kind_of self.now }
    {
        match self {
            Record::Actor(_) => 1,
            Record::Change(_) => 2,
            Record::Note(_, _) => 3,
        }
    }

    /// The same record in memory of its own.
    pub fn copied(&self, alloc: Global) -> Result<Record, AllocError>
        ensures { IfOk result (λ copy. copy ≡ self.now) }
    {
        match self {
            Record::Actor(actor) => Ok(Record::Actor(*actor)),
            Record::Change(encoding) => {
                let encoding = encoding.copied(alloc)?;
                Ok(Record::Change(encoding))
            }
            Record::Note(path, note) => {
                let path = path.copied(alloc)?;
                Ok(Record::Note(path, *note))
            }
        }
    }
}
