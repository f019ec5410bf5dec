use std::alloc::AllocError;
use thiserror::Error;

/// Why a bridge does not do what its editor asks. A revision counts the daemon's deltas that the editor
/// has shown, and a length counts scalar values. Checks run in this order.
#[derive(Clone, Copy, Debug, PartialEq, Eq, Error)]
pub enum BridgeFault {
    /// The revision, first, is above the number of the daemon's deltas, second.
    #[error("revision {0} is ahead of the {1} issued")]
    RevisionAhead(u64, u64),
    /// The revision, first, is below the one that the editor has confirmed, second.
    #[error("revision {0} is behind the {1} confirmed")]
    RevisionBack(u64, u64),
    /// The delta's base length, first, is not the length of the editor's text, second.
    #[error("a delta for {0} characters does not fit a text of {1}")]
    LengthDiffers(usize, usize),
    /// Memory ran out. The bridge is as it was.
    #[error("out of memory")]
    Memory,
}

impl From<AllocError> for BridgeFault {
    ghost use Rattle.std.specs.Prelude.{◌≡◌};
    ghost use Rattle.editor_bridge.specs.declared.faults.BridgeFault.TheVariants.{Memory};

    ghost from_gives = { λ _ fault. fault ≡ Memory };

    fn from(_: AllocError) -> BridgeFault {
        BridgeFault::Memory
    }
}
