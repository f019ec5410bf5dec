use std::alloc::AllocError;
use thiserror::Error;
use tt_base::PathFault;

/// Why a URI is no base, or names no shared path. The causes are checked in the order in which
/// they stand here.
#[derive(Clone, Copy, Debug, PartialEq, Eq, Error)]
pub enum UriFault {
    /// The text is no URL by the URL Standard.
    #[error("the text is no URI")]
    NotAUri,
    /// Its scheme is not `file`.
    #[error("the scheme is not `file`")]
    NotFile,
    /// It names a host. `file:///a`, `file:/a` and `file://localhost/a` name none.
    #[error("the URI has a host")]
    HasHost,
    /// Of a base alone: the text or its URL has more than 65,536 bytes, or the URL has a query or
    /// a fragment, or its path does not end with a slash.
    #[error("the URI is no base")]
    NotABase,
    /// Its path is not below that of the base.
    #[error("the path is outside the base")]
    OutsideBase,
    /// The path below the base is not UTF-8 once it is decoded.
    #[error("the path is not UTF-8")]
    NotUtf8,
    /// The path below the base is no shared path, for this reason.
    #[error("{0}")]
    BadPath(PathFault),
    /// There is no memory to read it.
    #[error("out of memory")]
    Memory,
}

impl From<AllocError> for UriFault {
    ghost use Rattle.std.specs.Prelude.{◌≡◌};
    ghost use Rattle.file_uri.specs.declared.faults.UriFault.TheVariants.{Memory};

    ghost from_gives = { λ _ fault. fault ≡ Memory };

    fn from(_: AllocError) -> UriFault {
        UriFault::Memory
    }
}

impl From<PathFault> for UriFault {
    ghost use Rattle.std.specs.Prelude.{◌≡◌};
    ghost use Rattle.file_uri.specs.PathFaults.{fault_of};

    ghost from_gives = { λ fault uri_fault. uri_fault ≡ fault_of fault };

    fn from(fault: PathFault) -> UriFault {
        match fault {
            PathFault::Memory => UriFault::Memory,
            _ => UriFault::BadPath(fault),
        }
    }
}
