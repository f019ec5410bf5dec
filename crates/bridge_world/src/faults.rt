use std::alloc::AllocError;
use thiserror::Error;

/// Why a move is not made.
#[derive(Clone, Copy, Debug, PartialEq, Eq, Error)]
pub enum MoveFault {
    /// There are so many editors, and none of this number.
    #[error("there are {0} editors")]
    NoEditor(usize),
    /// A delta's base length is not that of the text.
    #[error("a delta for {0} characters does not fit a text of {1}")]
    LengthDiffers(usize, usize),
    /// The editor has asked for its text and has not closed it.
    #[error("the editor has not closed its text")]
    NotClosed,
    /// The editor has closed its text.
    #[error("the editor has closed its text")]
    Closed,
    /// Memory ran out.
    #[error("out of memory")]
    Memory,
}

impl From<AllocError> for MoveFault {
    ghost use Rattle.std.specs.Prelude.{◌≡◌};
    ghost use Rattle.bridge_world.specs.declared.faults.MoveFault.TheVariants.{Memory};

    ghost from_gives = { λ _ fault. fault ≡ Memory };

    fn from(_: AllocError) -> MoveFault {
        MoveFault::Memory
    }
}
