ghost use Rattle.std.specs.Prelude.{◌≡◌, IfOk};
ghost use Rattle.outside_mem.specs.DiskHistory.{begun};

use crate::histories::History;
use outside::{Disk, DiskFault, Fault};
use std::alloc::{AllocError, Global};
use std::marker::Model;
use tt_base::Blob;

/// A disk over memory that never fails.
#[derive(Debug, Drop)]
pub struct SureDisk {
    history: History,
    calls: u64,
}

impl Model for SureDisk {
    ghost use Rattle.outside_mem.specs.SureDisk.{SureDiskView};

    ghost Value = { SureDiskView };

    ghost view = { λ d. record { history = d.history; calls = d.calls } };
}

impl SureDisk {
    /// A disk that begins with these bytes. They count as synced.
    pub fn new(alloc: Global, bytes: Blob) -> Result<SureDisk, AllocError>
        ensures { IfOk result (λ disk. disk ≡ record { history = begun bytes; calls = 0 }) }
    {
        Ok(SureDisk {
            history: History::new(alloc, bytes)?,
            calls: 0,
        })
    }
}

impl Disk for SureDisk {
    ghost use Rattle.std.specs.Prelude.{◌≡◌, ◌≤◌, ◌+◌, length, take, drop, Ok};
    ghost use Rattle.outside.specs.DiskCalls.{Measures, Reads, Writes, Syncs};
    ghost use Rattle.outside_mem.specs.DiskHistory.{seen_of};
    ghost use Rattle.outside_mem.specs.SureDisk.{sure_disk, sure_disk_is_sound, sure_written, sure_synced, IsSureWrite};

    ghost meaning = { sure_disk };

    ghost sound = { sure_disk_is_sound };

    fn len(&mut self) -> Result<u64, Fault>
        ensures measures { Measures (sure_disk self.old) (sure_disk self.new) result }
        ensures answer { result ≡ Ok (length (seen_of self.old.history.present)) }
        ensures unchanged { self.new ≡ self.old }
    {
        Ok(self.history.bytes().len() as u64)
    }

    fn read_at(&mut self, place: u64, buf: &mut [u8]) -> Result<(), Fault>
        requires { place + length buf.old ≤ length (seen_of self.old.history.present) }
        ensures reads { Reads (sure_disk self.old) (sure_disk self.new) place buf.new result }
        ensures answer { result ≡ Ok tt }
        ensures bytes { buf.new ≡ take (length buf.new) (drop place (seen_of self.old.history.present)) }
        ensures unchanged { self.new ≡ self.old }
    {
        let start = place as usize;
        buf.copy_from_slice(&self.history.bytes()[start..start + buf.len()]);
        Ok(())
    }

    fn write_at(&mut self, alloc: Global, place: u64, bytes: &[u8]) -> Result<(), DiskFault>
        requires { place ≤ length (seen_of self.old.history.present) }
        ensures writes { Writes (sure_disk self.old) (sure_disk self.new)
            (record { place = place; bytes = bytes.now }) result }
        ensures answer { IsSureWrite self.old self.new (record { place = place; bytes = bytes.now }) result }
    {
        self.history.write(alloc, place, bytes, true)?;
        self.calls = self.calls.saturating_add(1);
        Ok(())
    }

    fn sync(&mut self) -> Result<(), Fault>
        ensures syncs { Syncs (sure_disk self.old) (sure_disk self.new) result }
        ensures answer { result ≡ Ok tt }
        ensures synced { self.new ≡ sure_synced self.old }
    {
        self.history.sync();
        self.calls = self.calls.saturating_add(1);
        Ok(())
    }
}
