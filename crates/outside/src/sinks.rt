ghost use Rattle.std.specs.Prelude.{◌<◌, length};
ghost use Rattle.outside.specs.SinkMeaning.{SinkMeaning};
ghost use Rattle.outside.specs.Gives.{Gives};

use std::alloc::Global;

/// What a write to a sink gave it.
#[derive(Clone, Copy, Debug, PartialEq, Eq)]
pub enum Gave {
    /// The first bytes of the piece: this many, at least 1.
    Bytes(usize),
    /// The write failed, and gave nothing. A sink that takes nothing of a piece has failed.
    Failed,
    /// Memory ran out, and nothing was given.
    Memory,
}

/// A stream of bytes that is written at its end.
pub trait Sink {
    /// What the sink tells: the bytes written to it, and how many of its writes have failed.
    ghost meaning: { Self → SinkMeaning };

    /// Appends the first bytes of the piece, at least one of them.
    fn write(&mut self, alloc: Global, piece: &[u8]) -> Gave
        requires { 0 < length piece.now }
        ensures gives { Gives (meaning self.old) (meaning self.new) piece.now result };
}
