use std::alloc::AllocError;
use thiserror::Error;

/// Why a change is not typed. The editor is as it was.
#[derive(Clone, Copy, Debug, PartialEq, Eq, Error)]
pub enum TypeFault {
    /// The change ends behind the text, which has this many characters.
    #[error("the text has {0} characters")]
    OutOfRange(usize),
    /// Memory ran out.
    #[error("out of memory")]
    Memory,
}

impl From<AllocError> for TypeFault {
    ghost use Rattle.std.specs.Prelude.{◌≡◌};
    ghost use Rattle.editor_client.specs.declared.faults.TypeFault.TheVariants.{Memory};

    ghost from_gives = { λ _ fault. fault ≡ Memory };

    fn from(_: AllocError) -> TypeFault {
        TypeFault::Memory
    }
}
