ghost use Rattle.std.specs.Prelude.{◌≡◌, length};
ghost use Rattle.byte_format.specs.declared.faults.ReadFault.TheVariants.{Memory, At};

use std::alloc::{AllocError, AllocFailed};
use thiserror::Error;

/// Why a field is outside its format.
#[derive(Clone, Copy, Debug, PartialEq, Eq, Error)]
pub enum Kind {
    /// Other bytes than the mark that stands there.
    #[error("not the mark of this format")]
    Magic,
    /// The bytes end within the field, whatever they are.
    #[error("the bytes end too early")]
    Short,
    /// A name that is not greater than the one before it.
    #[error("names do not rise strictly")]
    Order,
    /// A byte that selects nothing.
    #[error("unknown tag")]
    Tag,
    /// A path that is not UTF-8, or that breaks a rule of shared paths.
    #[error("not a shared path")]
    Path,
    /// A text that is not UTF-8.
    #[error("not UTF-8")]
    Utf8,
    /// A length or a count of 0 where there must be one at least.
    #[error("a length or a count of 0")]
    Zero,
    /// Bytes behind the last field.
    #[error("bytes behind the end")]
    Rest,
}

/// The first field that is outside its format.
#[derive(Clone, Copy, Debug, PartialEq, Eq)]
pub struct Outside {
    pub kind: Kind,
    /// The number of bytes from the first byte of the field to the end.
    pub left: usize,
}

impl Outside {
    /// The field that begins with these bytes, to the end of all bytes, is outside its format.
    pub fn at(kind: Kind, bytes: &[u8]) -> Outside
        ensures { result ≡ record { kind = kind; left = length bytes.now } }
    {
        Outside {
            kind,
            left: bytes.len(),
        }
    }
}

/// Why a field was not read.
#[derive(Clone, Copy, Debug, PartialEq, Eq)]
pub enum ReadFault {
    /// There was no memory for its value.
    Memory,
    At(Outside),
}

impl From<Outside> for ReadFault {
    ghost from_gives = { λ field fault. fault ≡ At field };

    fn from(field: Outside) -> ReadFault {
        ReadFault::At(field)
    }
}

impl From<AllocError> for ReadFault {
    ghost from_gives = { λ _ fault. fault ≡ Memory };

    fn from(_e: AllocError) -> ReadFault {
        ReadFault::Memory
    }
}

impl<T: Drop> From<AllocFailed<T>> for ReadFault {
    ghost from_gives = { λ _ fault. fault ≡ Memory };

    fn from(_e: AllocFailed<T>) -> ReadFault {
        ReadFault::Memory
    }
}

impl ReadFault {
    /// The field that begins with these bytes, to the end of all bytes, is outside its format.
    pub fn outside(kind: Kind, bytes: &[u8]) -> ReadFault
        ensures { result ≡ ReadFault.At (record { kind = kind; left = length bytes.now }) }
    {
        ReadFault::At(Outside::at(kind, bytes))
    }
}
