ghost use Rattle.std.specs.Prelude.{◌≡◌, ◌≤◌, ℕ, length, IfOk};
ghost use Rattle.rpc_frame.specs.Stream.{IsFrame};
ghost use Rattle.rpc_frame.specs.Written.{frame_bytes};

use std::alloc::{AllocError, Global};
use tt_base::Blob;

/// The frame of a body: `Content-Length: `, the body's length in decimal, an empty line, and the body.
pub fn write_frame(alloc: Global, body: &[u8]) -> Result<Blob, AllocError>
    ensures bytes { IfOk result (λ frame. frame ≡ frame_bytes body.now) }
    ensures frame { IfOk result (λ frame. (limit : ℕ) → length body.now ≤ limit → IsFrame limit body.now frame) }
{
    let length = body.len();
    let mut bytes = format!(in alloc; "Content-Length: {length}\r\n\r\n")?.into_bytes();
    bytes.extend_from_slice(body)?;
    Ok(Blob::from_vec(bytes))
}
