ghost use Rattle.journal_format.specs.declared.unread.Unread.TheVariants.{Memory, Outside};
ghost use Rattle.journal_format.specs.Read.{unread_for};
ghost use Rattle.std.specs.Prelude.{◌≡◌};

use byte_format::ReadFault;
use std::alloc::{AllocError, AllocFailed};

/// Why no record was read. Which field is outside its format is not told: a group is good or it is not.
#[derive(Clone, Copy, Debug, PartialEq, Eq)]
pub(crate) enum Unread {
    /// There was no memory for it.
    Memory,
    /// Some field is outside its format.
    Outside,
}

impl From<ReadFault> for Unread {
    ghost from_gives = { λ fault unread. unread ≡ unread_for fault };

    fn from(fault: ReadFault) -> Unread {
        match fault {
            ReadFault::Memory => Unread::Memory,
            ReadFault::At(_) => Unread::Outside,
        }
    }
}

impl From<byte_format::Outside> for Unread {
    ghost from_gives = { λ _ unread. unread ≡ Outside };

    fn from(_field: byte_format::Outside) -> Unread {
        Unread::Outside
    }
}

impl From<AllocError> for Unread {
    ghost from_gives = { λ _ unread. unread ≡ Memory };

    fn from(_error: AllocError) -> Unread {
        Unread::Memory
    }
}

impl<T: Drop> From<AllocFailed<T>> for Unread {
    ghost from_gives = { λ _ unread. unread ≡ Memory };

    fn from(_error: AllocFailed<T>) -> Unread {
        Unread::Memory
    }
}
