//! The standard streams as a source and a sink.
//!
//! They tell no content. What each call did to the reader or the writer below is told by a clause of its own, `below`,
//! for every reader and writer.

ghost use Rattle.std.specs.Prelude.{◌≡◌, false};

use outside::{Gave, Sink, Source, Took};
use std::alloc::Global;
use std::io::{Read, Write};

/// A source over a reader of the system. It counts the reads that failed.
#[derive(Drop)]
pub struct StandardInput<R> {
    pub reader: R,
    pub ended: bool,
    pub faults: u64,
}

impl<R: Read> StandardInput<R> {
    /// A source that has not ended, and none of whose reads has failed.
    pub fn new(reader: R) -> StandardInput<R>
        ensures { result ≡ record { reader = reader; ended = false; faults = 0 } }
    {
        StandardInput {
            reader,
            ended: false,
            faults: 0,
        }
    }
}

impl<R: Read> Source for StandardInput<R> {
    ghost use Rattle.std.specs.Prelude.{◌<◌, length};
    ghost use Rattle.outside.specs.Takes.{Takes};
    ghost use Rattle.teamreplay.specs.Standard.{input_meaning};
    ghost use Rattle.teamreplay.specs.Below.{ReadBelow};

    ghost meaning = { input_meaning };

    fn read(&mut self, buf: &mut [u8]) -> Took
        requires { 0 < length buf.old }
        ensures takes { Takes (input_meaning self.old) (input_meaning self.new) buf.new result }
        ensures below { ReadBelow (R.remaining self.old.reader) (R.remaining self.new.reader) buf.new result }
    {
        match self.reader.read(buf) {
            Ok(0) => {
                self.ended = true;
                Took::Ended
            }
            Ok(count) => Took::Bytes(count),
            Err(_) => {
                self.faults = self.faults.saturating_add(1);
                Took::Failed
            }
        }
    }
}

/// A sink over a writer of the system. It counts the writes that failed.
#[derive(Drop)]
pub struct StandardOutput<W> {
    pub writer: W,
    pub faults: u64,
}

impl<W: Write> StandardOutput<W> {
    /// A sink none of whose writes has failed.
    pub fn new(writer: W) -> StandardOutput<W>
        ensures { result ≡ record { writer = writer; faults = 0 } }
    {
        StandardOutput { writer, faults: 0 }
    }
}

impl<W: Write> Sink for StandardOutput<W> {
    ghost use Rattle.std.specs.Prelude.{◌<◌, length};
    ghost use Rattle.outside.specs.Gives.{Gives};
    ghost use Rattle.teamreplay.specs.Standard.{output_meaning};
    ghost use Rattle.teamreplay.specs.Below.{WrittenBelow};

    ghost meaning = { output_meaning };

    fn write(&mut self, _alloc: Global, piece: &[u8]) -> Gave
        requires { 0 < length piece.now }
        ensures gives { Gives (output_meaning self.old) (output_meaning self.new) piece.now result }
        ensures below { WrittenBelow (W.contents self.old.writer) (W.contents self.new.writer) piece.now result }
    {
        match self.writer.write(piece) {
            Ok(0) | Err(_) => {
                self.faults = self.faults.saturating_add(1);
                Gave::Failed
            }
            Ok(count) => Gave::Bytes(count),
        }
    }
}
