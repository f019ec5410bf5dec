use byte_format::Kind;
use thiserror::Error;

/// Why bytes are not read as a change.
#[derive(Clone, Copy, Debug, PartialEq, Eq, Error)]
pub enum BadEncoding {
    /// The bytes are no encoding: the first field outside its format begins at this offset, in bytes from 0,
    /// and is outside for this cause.
    #[error("no change: byte {0}: {1}")]
    At(usize, Kind),
    /// There was no memory for the change.
    #[error("out of memory")]
    Memory,
}
