use std::io;
use std::time::{Clock, Instant};

/// What came of an operation, and how long it took.
#[derive(Clone, Copy, Debug)]
pub struct Measured {
    pub first: usize,
    pub second: usize,
    /// The time of all runs together.
    pub nanoseconds: u128,
}

/// What came of an operation that began at `start` and ends now.
pub fn ended(
    clock: &impl Clock,
    start: Instant,
    first: usize,
    second: usize,
) -> io::Result<Measured> {
    Ok(Measured {
        first,
        second,
        nanoseconds: start.elapsed(clock)?.as_nanos(),
    })
}
