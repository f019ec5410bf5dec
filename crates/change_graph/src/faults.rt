use crate::causes::Cause;
use std::alloc::AllocError;
use thiserror::Error;
use tt_base::{Blob, List, Name};

/// What adding a change came to.
#[derive(Clone, Copy, Debug, PartialEq, Eq)]
pub enum AddNote {
    /// It is held now.
    Added,
    /// The same change was held before.
    Repeat,
}

/// Why a change was not added.
#[derive(Debug, Drop, Error)]
pub enum GraphFault {
    /// Another change is held under its name: the encoding of that one, and its own.
    #[error("another change has this name")]
    Clash(Blob, Blob),
    /// These of its dependencies are not held.
    #[error("dependencies are missing")]
    MissingDeps(List<Name>),
    /// The operation at this place, counted from 0, is the first that is refused, for this cause.
    #[error("operation {0}: {1}")]
    BadChange(usize, Cause),
    /// There was no memory for it.
    #[error("out of memory")]
    Memory,
}

impl From<AllocError> for GraphFault {
    ghost use Rattle.std.specs.Prelude.{◌≡◌};
    ghost use Rattle.change_graph.specs.declared.faults.GraphFault.TheVariants.{Memory};

    ghost from_gives = { λ _ fault. fault ≡ Memory };

    fn from(_: AllocError) -> GraphFault {
        GraphFault::Memory
    }
}
