ghost use Rattle.std.specs.Prelude.{◌≡◌, ◌⊎◌, [], IfOk, OnErr};
ghost use Rattle.rpc_frame.specs.Faults.{answer_of};
ghost use Rattle.rpc_frame.specs.Stream.{Begun};
ghost use Rattle.plain_world.specs.RawFrames.{Reader, read_behind};
ghost use Rattle.daemon_host.specs.Streams.{IsReadAs};

use plain_world::LONGEST_BODY;
use rpc_frame::{FrameEnd, FrameFault, FrameReader, StreamRead};
use std::alloc::{AllocError, Global};
use std::marker::Model;

/// The stream of a connection that a script feeds, as far as it has come.
///
/// It is seen as what is kept of it: the bytes of the frame begun, or the first fault in their place.
#[derive(Debug, Drop)]
pub(crate) struct KeptStream {
    reader: FrameReader,
}

impl Model for KeptStream {
    ghost use Rattle.rpc_frame.specs.Stream.{StreamEnd};
    ghost use Rattle.daemon_host.specs.Streams.{IsAtRest};

    ghost Value = { StreamEnd };

    ghost view = { λ s. s.reader.kept };

    ghost invariant = { λ s. IsAtRest s.reader };
}

/// The fault of the stream, unless memory has run out.
fn fault_of(end: FrameEnd) -> Result<FrameFault, AllocError>
    ensures met { IfOk result (λ fault. (end ≡ answer_of fault) ⊎ (end ≡ FrameEnd.Closed fault)) }
    ensures memory { OnErr result (end ≡ FrameEnd.Memory) }
{
    match end {
        FrameEnd::BadHeader(place) => Ok(FrameFault::BadHeader(place)),
        FrameEnd::NoLength => Ok(FrameFault::NoLength),
        FrameEnd::TwoLengths => Ok(FrameFault::TwoLengths),
        FrameEnd::TooLong(number) => Ok(FrameFault::TooLong(number)),
        FrameEnd::Closed(fault) => Ok(fault),
        FrameEnd::Memory => Err(AllocError),
    }
}

impl KeptStream {
    /// A stream of which nothing has come.
    pub(crate) fn new(alloc: Global) -> Result<KeptStream, AllocError>
        ensures { IfOk result (λ stream. stream ≡ Begun []) }
    {
        Ok(KeptStream {
            reader: FrameReader::new(alloc, LONGEST_BODY)?,
        })
    }

    /// Reads one more piece, and gives the stream behind it with the bodies that have ended and the fault, if there is one.
    /// Nothing is read behind a fault. Without memory the stream is lost.
    pub(crate) fn feed(
        self,
        alloc: Global,
        piece: &[u8],
    ) -> Result<(KeptStream, StreamRead), AllocError>
        ensures kept { IfOk result (λ fed. (reader : Reader) → fed.0 ≡ (read_behind reader self piece.now).kept) }
        ensures read { IfOk result (λ fed. (reader : Reader) → IsReadAs (read_behind reader self piece.now) fed.1) }
    {
        let KeptStream { mut reader } = self;
        match reader.feed(alloc, piece) {
            Ok(bodies) => {
                let read = StreamRead {
                    bodies,
                    fault: None,
                };
                Ok((KeptStream { reader }, read))
            }
            Err(end) => {
                let fault = fault_of(end)?;
                let read = StreamRead {
                    bodies: reader.take_done(),
                    fault: Some(fault),
                };
                Ok((KeptStream { reader }, read))
            }
        }
    }
}
