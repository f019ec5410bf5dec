use std::alloc::AllocError;
use thiserror::Error;

/// The text has no such position: it has no such line, or that line ends before the character.
#[derive(Clone, Copy, Debug, PartialEq, Eq, Error)]
#[error("the text has no such position")]
pub struct BadPosition;

/// Why a list of edits has no delta on a text. Edits are counted from 0, and the first that is
/// refused is told.
#[derive(Clone, Copy, Debug, PartialEq, Eq, Error)]
pub enum EditsFault {
    /// The start or the end of this edit is no position of the text that the edits before it leave.
    #[error("edit {0} has a position that the text does not have")]
    BadPosition(usize),
    /// This edit ends before it starts.
    #[error("edit {0} ends before it starts")]
    BackwardRange(usize),
    /// There is no memory to write the delta.
    #[error("out of memory")]
    Memory,
}

impl From<AllocError> for EditsFault {
    ghost use Rattle.std.specs.Prelude.{◌≡◌};
    ghost use Rattle.text_position.specs.declared.faults.EditsFault.TheVariants.{Memory};

    ghost from_gives = { λ _ fault. fault ≡ Memory };

    fn from(_: AllocError) -> EditsFault {
        EditsFault::Memory
    }
}
