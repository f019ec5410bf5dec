ghost use Rattle.std.specs.Prelude.{◌≡◌, ℕ, List, IfOk, IsOk};
ghost use Rattle.std.specs.List.{concat};
ghost use Rattle.rpc_frame.specs.Stream.{StreamEnd, Reads};
ghost use Rattle.rpc_frame.specs.Pieces.{EndsWith, HasRead, EndedWith};
ghost use Rattle.rpc_frame.specs.Faults.{answer_of};

use crate::faults::{FrameEnd, FrameFault};
use crate::readers::FrameReader;
use std::alloc::{AllocError, Global};
use tt_base::{Blob, List};

/// What a stream of frames holds: its bodies in order, and its first fault, if it has one.
#[derive(Debug, Drop)]
pub struct StreamRead {
    pub bodies: List<Blob>,
    pub fault: Option<FrameFault>,
}

/// Reads a stream that comes in these pieces, with bodies of at most `limit` bytes.
///
/// However the stream is cut, the bodies and the fault are those of the pieces' bytes together.
pub fn read_pieces(alloc: Global, limit: u64, pieces: &[Blob]) -> Result<StreamRead, AllocError>
    ensures read { IfOk result (λ read. HasRead limit (concat pieces.now) read.bodies read.fault) }
    ensures only { IfOk result (λ read. (bodies : List (List ℕ)) (end : StreamEnd)
        → Reads limit (concat pieces.now) bodies end → (bodies ≡ read.bodies) × EndsWith read.fault end) }
{
    read_each(alloc, limit, pieces)
}

/// Feeds each piece to a reader, up to the first fault.
fn read_each(alloc: Global, limit: u64, pieces: &[Blob]) -> Result<StreamRead, AllocError>
    ensures { IfOk result (λ read. HasRead limit (concat pieces.now) read.bodies read.fault) }
{
    let mut reader = FrameReader::new(alloc, limit)?;
    let mut bodies = Vec::new(alloc);
    for piece in pieces {
        match reader.feed(alloc, piece.as_slice()) {
            Ok(more) => bodies.append(&mut more.into_vec())?,
            Err(end) => {
                bodies.append(&mut reader.take_done().into_vec())?;
                return ended(bodies, end);
            }
        }
    }
    Ok(StreamRead {
        bodies: List::from_vec(bodies),
        fault: None,
    })
}

/// The bodies before the fault that ended the reading, if it was one.
fn ended(bodies: Vec<Blob>, end: FrameEnd) -> Result<StreamRead, AllocError>
    ensures fault { IfOk result (λ read. EndedWith read.fault end × (read.bodies ≡ bodies.items)) }

    // No memory is asked for here, so a fault is told.
    ensures told { (fault : FrameFault) → end ≡ answer_of fault → IsOk result }
{
    let fault = match end {
        FrameEnd::BadHeader(place) => FrameFault::BadHeader(place),
        FrameEnd::NoLength => FrameFault::NoLength,
        FrameEnd::TwoLengths => FrameFault::TwoLengths,
        FrameEnd::TooLong(number) => FrameFault::TooLong(number),
        // A reader that has met no fault yet is never closed.
        FrameEnd::Closed(_) | FrameEnd::Memory => return Err(AllocError),
    };
    Ok(StreamRead {
        bodies: List::from_vec(bodies),
        fault: Some(fault),
    })
}
