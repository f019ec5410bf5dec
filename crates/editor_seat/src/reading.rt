ghost use Rattle.std.specs.Prelude.{IfOk, IfErr};
ghost use Rattle.editor_seat.specs.Delivering.{IsOneBody, IsFaultOfFrame};

use crate::faults::DeliverFault;
use rpc_frame::read_pieces;
use std::alloc::Global;
use std::slice;
use tt_base::Blob;

/// The one body that a frame is.
pub(crate) fn body_of(alloc: Global, frame: &Blob) -> Result<Blob, DeliverFault>
    ensures body { IfOk result (IsOneBody frame.now) }
    ensures fault { IfErr result (IsFaultOfFrame frame.now) }
{
    let read = read_pieces(alloc, u64::MAX, slice::from_ref(frame))?;
    let mut bodies = read.bodies.into_vec();
    let Some(body) = bodies.pop() else {
        return Err(DeliverFault::NotOneBody);
    };
    if !bodies.is_empty() {
        return Err(DeliverFault::NotOneBody);
    }
    Ok(body)
}
