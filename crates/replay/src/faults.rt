//! Why a replay ends before the end of its script.

use daemon_world::PlayEnd;
use replay_script::LineFault;
use std::alloc::AllocError;
use thiserror::Error;

/// Why a replay ended before the end of its script, from the reading of a line up to the call of the program.
#[derive(Clone, Copy, Debug, PartialEq, Eq, Error)]
pub enum ReplayFault {
    /// There was a word on the command line.
    #[error("there was a word on the command line")]
    Words,
    /// A line is outside the script language.
    #[error("the line is no move of the script language")]
    NotAMove,
    /// A line asks for a move that is not possible in the world that the lines before it have made.
    #[error("the move is not possible here")]
    NotPossible,
    /// The source has ended, and its last line has no LF.
    #[error("the line has no LF")]
    NoLineEnd,
    /// The source failed.
    #[error("the script could not be read further")]
    SourceFailed,
    /// The sink failed.
    #[error("the output could not be written")]
    SinkFailed,
    /// Memory ran out.
    #[error("out of memory")]
    Memory,
    /// The most bytes were taken, and the source had not answered its end.
    #[error("the script is too long")]
    TooLong,
}

impl From<AllocError> for ReplayFault {
    ghost use Rattle.std.specs.Prelude.{◌≡◌};
    ghost use Rattle.replay.specs.declared.faults.ReplayFault.TheVariants.{Memory};

    ghost from_gives = { λ _ given. given ≡ Memory };

    fn from(_error: AllocError) -> ReplayFault {
        ReplayFault::Memory
    }
}

impl From<LineFault> for ReplayFault {
    ghost use Rattle.std.specs.Prelude.{◌≡◌};
    ghost use Rattle.replay.specs.Faults.{fault_of_line};

    ghost from_gives = { λ fault given. given ≡ fault_of_line fault };

    fn from(fault: LineFault) -> ReplayFault {
        match fault {
            LineFault::NotAMove => ReplayFault::NotAMove,
            LineFault::Memory => ReplayFault::Memory,
        }
    }
}

impl From<PlayEnd> for ReplayFault {
    ghost use Rattle.std.specs.Prelude.{◌≡◌};
    ghost use Rattle.replay.specs.Faults.{fault_of_play};

    ghost from_gives = { λ fault given. given ≡ fault_of_play fault };

    fn from(fault: PlayEnd) -> ReplayFault {
        match fault {
            PlayEnd::NotPossible => ReplayFault::NotPossible,
            PlayEnd::Memory => ReplayFault::Memory,
        }
    }
}
