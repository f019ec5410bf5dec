ghost use Rattle.std.specs.Prelude.{◌≡◌};
ghost use Rattle.rpc_frame.specs.Faults.{answer_of};

use thiserror::Error;

/// What breaks a stream of frames, at the header part that comes next.
#[derive(Clone, Copy, Debug, PartialEq, Eq, Error)]
pub enum FrameFault {
    /// The byte at this offset of its header part, counted from 0, is the first such that no header part begins
    /// with the bytes up to and including it.
    #[error("bad header at byte {0}")]
    BadHeader(u64),
    /// A whole header part has no `Content-Length`.
    #[error("no Content-Length")]
    NoLength,
    /// A whole header part has two or more `Content-Length`.
    #[error("more than one Content-Length")]
    TwoLengths,
    /// The length, in bytes, is above the reader's limit.
    #[error("body of {0} bytes is too long")]
    TooLong(u64),
}

/// Why a piece of a stream was not read to its end.
#[derive(Clone, Copy, Debug, PartialEq, Eq, Error)]
pub enum FrameEnd {
    /// As `FrameFault::BadHeader`.
    #[error("bad header at byte {0}")]
    BadHeader(u64),
    /// As `FrameFault::NoLength`.
    #[error("no Content-Length")]
    NoLength,
    /// As `FrameFault::TwoLengths`.
    #[error("more than one Content-Length")]
    TwoLengths,
    /// As `FrameFault::TooLong`.
    #[error("body of {0} bytes is too long")]
    TooLong(u64),
    /// The stream had this fault before.
    #[error("closed after a fault: {0}")]
    Closed(FrameFault),
    /// Memory ran out, and the reader is spent.
    #[error("out of memory")]
    Memory,
}

impl From<FrameFault> for FrameEnd {
    ghost from_gives = { λ fault end. end ≡ answer_of fault };

    fn from(fault: FrameFault) -> FrameEnd {
        match fault {
            FrameFault::BadHeader(place) => FrameEnd::BadHeader(place),
            FrameFault::NoLength => FrameEnd::NoLength,
            FrameFault::TwoLengths => FrameEnd::TwoLengths,
            FrameFault::TooLong(number) => FrameEnd::TooLong(number),
        }
    }
}
