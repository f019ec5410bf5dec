ghost use Rattle.std.specs.Prelude.{◌≤◌, ◌+◌, length};
ghost use Rattle.outside.specs.DiskMeaning.{DiskMeaning};
ghost use Rattle.outside.specs.DiskCalls.{Measures, Reads, Writes, Syncs};

use std::alloc::{AllocError, Global};
use thiserror::Error;

/// A call of a device failed.
#[derive(Clone, Copy, Debug, PartialEq, Eq, Error)]
#[error("the device failed")]
pub struct Fault;

/// Why a write to a disk was not made.
#[derive(Clone, Copy, Debug, PartialEq, Eq, Error)]
pub enum DiskFault {
    /// The disk failed. Some of the bytes may have been written, here as after a crash.
    #[error("the disk failed")]
    Failed,
    /// Memory ran out, and nothing was changed.
    #[error("out of memory")]
    Memory,
}

impl From<AllocError> for DiskFault {
    ghost use Rattle.std.specs.Prelude.{◌≡◌};
    ghost use Rattle.outside.specs.declared.disks.DiskFault.TheVariants.{Memory};

    ghost from_gives = { λ _ fault. fault ≡ Memory };

    fn from(_error: AllocError) -> DiskFault {
        DiskFault::Memory
    }
}

/// A disk of bytes that are read and written in place, and that a crash may meet at any moment.
///
/// Between two syncs that succeed, each range that was written, and the part past the old end, may
/// hold any bytes after a crash; bytes outside of these stay. After a sync that succeeds a crash
/// leaves what a read gives. Writes and syncs are the counted calls.
pub trait Disk {
    ghost use Rattle.outside.specs.DiskMeaning.{IsSound};

    /// What the disk tells: what a read gives, what it gave after the last sync, the writes since, its
    /// clock and what a crash might have left since a moment, its counted calls, its plan and its faults.
    ghost meaning: { Self → DiskMeaning };

    /// The number of its bytes.
    fn len(&mut self) -> Result<u64, Fault>
        ensures measures { Measures (meaning self.old) (meaning self.new) result };

    /// Reads the bytes from a place on, as many as the buffer has places. After a fault the buffer may
    /// hold anything.
    fn read_at(&mut self, place: u64, buf: &mut [u8]) -> Result<(), Fault>
        requires { (meaning self.old).told → place + length buf.old ≤ length (meaning self.old).seen }
        ensures reads { Reads (meaning self.old) (meaning self.new) place buf.new result };

    /// Writes bytes from a place on, over what is there and past the end.
    fn write_at(&mut self, alloc: Global, place: u64, bytes: &[u8]) -> Result<(), DiskFault>
        requires { (meaning self.old).told → place ≤ length (meaning self.old).seen }
        ensures writes { Writes (meaning self.old) (meaning self.new)
            (record { place = place; bytes = bytes.now }) result };

    /// Makes the disk keep what a read gives, whatever crash may come.
    fn sync(&mut self) -> Result<(), Fault>
        ensures syncs { Syncs (meaning self.old) (meaning self.new) result };

    /// The clock and the images belong together, and the disk as it reads is one of its images.
    ghost sound: { (disk : Self) → IsSound (meaning disk) };
}
