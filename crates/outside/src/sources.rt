ghost use Rattle.std.specs.Prelude.{◌<◌, length};
ghost use Rattle.outside.specs.SourceMeaning.{SourceMeaning};
ghost use Rattle.outside.specs.Takes.{Takes};

/// What a read of a source gave.
#[derive(Clone, Copy, Debug, PartialEq, Eq)]
pub enum Took {
    /// The next bytes, in the front of the buffer: this many, at least 1.
    Bytes(usize),
    /// Nothing is left.
    Ended,
    /// The read failed, and took nothing.
    Failed,
}

/// A stream of bytes that is read from its front.
pub trait Source {
    /// What the source tells: the bytes that are left, whether it has answered that it ended, and
    /// how many of its reads have failed.
    ghost meaning: { Self → SourceMeaning };

    /// Takes the next bytes, at most as many as the buffer has places.
    fn read(&mut self, buf: &mut [u8]) -> Took
        requires { 0 < length buf.old }
        ensures takes { Takes (meaning self.old) (meaning self.new) buf.new result };
}
