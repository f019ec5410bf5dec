//! Writing over the bytes of a vector, and past its end.
ghost use Rattle.std.specs.Prelude.{◌≡◌, ◌-◌, ◌/◌, ◌++◌, length, take, replicate, IfOk, OnOk, OnErr};
ghost use Rattle.outside.specs.Images.{overwritten};

use std::alloc::{AllocError, Global};

/// Writes the bytes from a place on. After want of memory the content is as before.
pub(crate) fn overwrite(content: &mut Vec<u8>, place: u64, bytes: &[u8]) -> Result<(), AllocError>
    ensures ok { OnOk result (content.new.items ≡ overwritten content.old.items (record { place = place; bytes = bytes.now })) }
    ensures err { OnErr result (content.new.items ≡ content.old.items) }
{
    let len = content.len();
    let start = place.min(len as u64) as usize;
    let inside = bytes.len().min(len - start);
    content.extend_from_slice(&bytes[inside..])?;
    content[start..start + inside].copy_from_slice(&bytes[..inside]);
    Ok(())
}

/// The byte that stands where a torn write was not made.
const TORN_BYTE: u8 = 0xa5;

/// The bytes of a torn write: the first half, rounded down, and then torn bytes.
pub(crate) fn torn_bytes(alloc: Global, bytes: &[u8]) -> Result<Vec<u8>, AllocError>
    ensures { IfOk result (λ torn. torn.items
        ≡ take (length bytes.now / 2) bytes.now ++ replicate (length bytes.now - length bytes.now / 2) TORN_BYTE) }
{
    let half = bytes.len() / 2;
    let mut torn = bytes[..half].to_vec(alloc)?;
    torn.resize(bytes.len(), TORN_BYTE)?;
    Ok(torn)
}
