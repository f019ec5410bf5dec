use std::alloc::AllocError;
use thiserror::Error;

/// Why the first frame under way to an editor does not come to it. The editor is as it was.
#[derive(Clone, Copy, Debug, PartialEq, Eq, Error)]
pub enum DeliverFault {
    /// No frame is under way to it.
    #[error("no frame is under way")]
    NoFrame,
    /// The first frame is not read as just one body (the base protocol of the Language Server Protocol).
    #[error("the frame is not one body")]
    NotOneBody,
    /// The body of the first frame is no message to an editor.
    #[error("the body is no message")]
    NoMessage,
    /// Memory ran out.
    #[error("out of memory")]
    Memory,
}

impl From<AllocError> for DeliverFault {
    ghost use Rattle.std.specs.Prelude.{◌≡◌};
    ghost use Rattle.editor_seat.specs.declared.faults.DeliverFault.TheVariants.{Memory};

    ghost from_gives = { λ _ fault. fault ≡ Memory };

    fn from(_: AllocError) -> DeliverFault {
        DeliverFault::Memory
    }
}
