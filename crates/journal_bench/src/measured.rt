use std::io;
use std::time::{Clock, Instant};

/// What came of an operation, and how long it took.
#[derive(Clone, Copy, Debug)]
pub struct Measured {
    /// How many bytes were written or spelled.
    pub bytes: u64,
    pub nanoseconds: u128,
}

/// What came of an operation that began at `start` and ends now.
pub fn ended(clock: &impl Clock, start: Instant, bytes: u64) -> io::Result<Measured> {
    Ok(Measured {
        bytes,
        nanoseconds: start.elapsed(clock)?.as_nanos(),
    })
}
