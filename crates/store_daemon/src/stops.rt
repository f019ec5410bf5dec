ghost use Rattle.std.specs.Prelude.{◌≡◌};
ghost use Rattle.store_daemon.specs.Stops.{stop_for};

use replica_disk::AppendFault;
use std::alloc::AllocError;
use thiserror::Error;

/// Why a daemon could not go on. It is of no more use than its disk then, which is opened again.
#[derive(Clone, Copy, Debug, PartialEq, Eq, Error)]
pub enum DaemonStop {
    /// A call of the disk failed.
    #[error("the disk failed")]
    Disk,
    /// There was no memory.
    #[error("out of memory")]
    Memory,
}

impl From<AllocError> for DaemonStop {
    ghost use Rattle.store_daemon.specs.declared.stops.DaemonStop.TheVariants.{Memory};

    ghost from_gives = { λ _ stop. stop ≡ Memory };

    fn from(_: AllocError) -> DaemonStop {
        DaemonStop::Memory
    }
}

impl From<AppendFault> for DaemonStop {
    ghost from_gives = { λ fault stop. stop ≡ stop_for fault };

    fn from(fault: AppendFault) -> DaemonStop {
        match fault {
            AppendFault::Fault => DaemonStop::Disk,
            AppendFault::Memory => DaemonStop::Memory,
        }
    }
}
