//! A disk over a file of the system, for measuring alone: it tells nothing but its faults, so nothing is promised of it.

ghost use Rattle.journal_bench.specs.FileDisk.{IsCounted};

use outside::{Disk, DiskFault, Fault};
use std::alloc::Global;
use std::fs::File;
use std::io;
use std::os::unix::fs::FileExt;

/// A disk over a file. It counts the calls that failed.
#[derive(Drop)]
pub struct FileDisk {
    file: File,
    faults: u64,
}

impl FileDisk {
    pub fn new(file: File) -> FileDisk {
        FileDisk { file, faults: 0 }
    }

    /// What a call gave, counted where it failed.
    fn counted<T: Drop>(&mut self, answer: io::Result<T>) -> Result<T, Fault>
        ensures { IsCounted self.old.faults self.new.faults result }
    {
        match answer {
            Ok(given) => Ok(given),
            Err(_) => {
                self.faults = self.faults.saturating_add(1);
                Err(Fault)
            }
        }
    }
}

impl Disk for FileDisk {
    ghost use Rattle.outside.specs.DiskCalls.{Measures, Reads, Writes, Syncs};
    ghost use Rattle.journal_bench.specs.FileDisk.{file_disk, file_disk_is_sound};

    ghost meaning = { λ disk. file_disk disk.faults };

    ghost sound = { λ disk. file_disk_is_sound disk.faults };

    fn len(&mut self) -> Result<u64, Fault> {
        let answer = self.file.metadata().map(|metadata| metadata.len());
        self.counted(answer)
    }

    fn read_at(&mut self, place: u64, buf: &mut [u8]) -> Result<(), Fault> {
        let answer = self.file.read_exact_at(buf, place);
        self.counted(answer)
    }

    fn write_at(&mut self, _alloc: Global, place: u64, bytes: &[u8]) -> Result<(), DiskFault> {
        let answer = self.file.write_all_at(bytes, place);
        match self.counted(answer) {
            Ok(()) => Ok(()),
            Err(_) => Err(DiskFault::Failed),
        }
    }

    fn sync(&mut self) -> Result<(), Fault> {
        let answer = self.file.sync_all();
        self.counted(answer)
    }
}
