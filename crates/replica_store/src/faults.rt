use std::alloc::AllocError;
use thiserror::Error;
use tt_base::Blob;

/// Why a daemon did not make a change.
#[derive(Debug, Drop, Error)]
pub enum StoreFault {
    /// The text at the path would have so many characters, which are more than it has and more than a text may have.
    #[error("the text would have {0} characters")]
    TextTooLong(usize),
    /// Another change is held under its name: the encoding of that one, and its own.
    #[error("another change has this name")]
    Clash(Blob, Blob),
    /// There was no memory for it.
    #[error("out of memory")]
    Memory,
}

impl From<AllocError> for StoreFault {
    ghost use Rattle.std.specs.Prelude.{◌≡◌};
    ghost use Rattle.replica_store.specs.declared.faults.StoreFault.TheVariants.{Memory};

    ghost from_gives = { λ _ fault. fault ≡ Memory };

    fn from(_: AllocError) -> StoreFault {
        StoreFault::Memory
    }
}
