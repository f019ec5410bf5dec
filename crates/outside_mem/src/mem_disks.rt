ghost use Rattle.std.specs.Prelude.{◌≡◌, ◌≤◌, IfOk, OnOk, OnErr};
ghost use Rattle.outside.specs.DiskMeaning.{MayLeave};
ghost use Rattle.outside_mem.specs.DiskHistory.{begun, seen_of};
ghost use Rattle.outside_mem.specs.MemDisk.{mem_disk, unarmed, fails_at, tried_once, restarted};

use crate::histories::History;
use outside::{Disk, DiskFault, Fault, Mode, Stops, StopsDisk};
use std::alloc::{AllocError, Global};
use std::marker::Model;
use tt_base::{Blob, List};

/// A disk over memory whose calls fail where their numbers, counted from 1, are among `failing`, and
/// from the call on at which it is armed to stop.
#[derive(Debug, Drop)]
pub struct MemDisk {
    history: History,
    failing: List<u64>,
    tries: u64,
    faults: u64,
    /// The counted call at which it stops and how, if it is armed.
    stop: Option<Stop>,
    calls: u64,
}

/// A stop: the number of the counted call at which it comes, since the disk was armed, and its mode.
#[derive(Clone, Copy, Debug, PartialEq, Eq)]
pub struct Stop {
    call: u64,
    mode: Mode,
}

impl Model for MemDisk {
    ghost use Rattle.outside_mem.specs.MemDisk.{MemDiskView, planned};

    ghost Value = { MemDiskView };

    ghost view = { λ d. record {
      history = d.history;
      failing = d.failing;
      tries = d.tries;
      faults = d.faults;
      arming = record { stop = planned d.stop; calls = d.calls };
    } };
}

impl MemDisk {
    /// A disk that begins with these bytes, and whose calls with these numbers are to fail. The bytes
    /// count as synced.
    pub fn new(alloc: Global, bytes: Blob, failing: List<u64>) -> Result<MemDisk, AllocError>
        ensures { IfOk result (λ disk. disk
            ≡ record { history = begun bytes; failing = failing; tries = 0; faults = 0; arming = unarmed }) }
    {
        Ok(MemDisk {
            history: History::new(alloc, bytes)?,
            failing,
            tries: 0,
            faults: 0,
            stop: None,
            calls: 0,
        })
    }

    /// Begins the disk anew with the image that the stop leaves: by its mode where one is armed, whether it has
    /// come or not, and else what a read gives. Nothing is armed then. After want of memory nothing is changed.
    pub fn restart(&mut self, alloc: Global) -> Result<(), AllocError>
        ensures ok { OnOk result (self.new ≡ restarted self.old) }
        // What it then reads is what a crash might have left.
        ensures left { OnOk result (MayLeave (mem_disk self.old) (seen_of self.new.history.present)) }
        ensures err { OnErr result (self.new ≡ self.old) }
    {
        let left = match self.stop {
            None => self.history.bytes().to_vec(alloc)?,
            Some(stop) => self.history.left_by(alloc, stop.mode)?,
        };
        self.history = History::new(alloc, Blob::from_vec(left))?;
        self.stop = None;
        self.calls = 0;
        Ok(())
    }

    /// Whether the next call fails, when so many calls are counted.
    fn fails_at(&self, calls: u64) -> bool
        ensures { result ≡ fails_at self.now calls }
    {
        let stopped = self.stop.is_some_and(|stop| stop.call <= calls);
        stopped
            || self
                .failing
                .as_slice()
                .contains(&self.tries.saturating_add(1))
    }

    /// Counts a call, and its fault.
    fn count_try(&mut self, failed: bool)
        ensures counted { self.new ≡ tried_once self.old failed }
        ensures later { self.old.faults ≤ self.new.faults }
    {
        self.tries = self.tries.saturating_add(1);
        if failed {
            self.faults = self.faults.saturating_add(1);
        }
    }
}

impl Stops for MemDisk {
    ghost use Rattle.std.specs.Prelude.{◌≡◌, Some};
    ghost use Rattle.outside.specs.Plan.{left_of};
    ghost use Rattle.outside_mem.specs.MemDisk.{armed};

    ghost arming = { λ disk. disk.arming };

    ghost same = { λ old new. new ≡ record old { arming = new.arming } };

    fn arm(&mut self, k: u64, mode: Mode)
        ensures armed { self.new ≡ armed self.old k mode }
    {
        self.stop = Some(Stop { call: k, mode });
        self.calls = 0;
    }

    fn left(&self) -> Option<u64>
        ensures left { result ≡ left_of self.now.arming }
    {
        self.stop.map(|stop| stop.call.saturating_sub(self.calls))
    }
}

impl StopsDisk for MemDisk {
    ghost use Rattle.outside_mem.specs.MemDisk.{told_arming, rearmed};

    ghost told_arming = { told_arming };

    ghost rearmed = { rearmed };
}

impl Disk for MemDisk {
    ghost use Rattle.std.specs.Prelude.{◌≡◌, ◌≤◌, ◌+◌, ◌↔◌, length, take, drop, IsErr, IsTrue, IfOk, OnOk};
    ghost use Rattle.outside.specs.DiskCalls.{Measures, Reads, Writes, Syncs};
    ghost use Rattle.outside_mem.specs.DiskHistory.{seen_of};
    ghost use Rattle.outside_mem.specs.MemDisk.{mem_disk, mem_disk_is_sound, fails_at, counted_fails, tried_once, mem_synced, IsMemWrittenAt};

    ghost meaning = { mem_disk };

    ghost sound = { mem_disk_is_sound };

    fn len(&mut self) -> Result<u64, Fault>
        ensures measures { Measures (mem_disk self.old) (mem_disk self.new) result }
        ensures fails { IsErr result ↔ IsTrue (fails_at self.old self.old.arming.calls) }
        ensures len { IfOk result (λ len. len ≡ length (seen_of self.old.history.present)) }
        ensures counted { self.new ≡ tried_once self.old (fails_at self.old self.old.arming.calls) }
    {
        let fails = self.fails_at(self.calls);
        self.count_try(fails);
        if fails {
            return Err(Fault);
        }
        Ok(self.history.bytes().len() as u64)
    }

    fn read_at(&mut self, place: u64, buf: &mut [u8]) -> Result<(), Fault>
        requires { place + length buf.old ≤ length (seen_of self.old.history.present) }
        ensures reads { Reads (mem_disk self.old) (mem_disk self.new) place buf.new result }
        ensures fails { IsErr result ↔ IsTrue (fails_at self.old self.old.arming.calls) }
        ensures bytes { OnOk result (buf.new ≡ take (length buf.new) (drop place (seen_of self.old.history.present))) }
        ensures counted { self.new ≡ tried_once self.old (fails_at self.old self.old.arming.calls) }
    {
        let fails = self.fails_at(self.calls);
        self.count_try(fails);
        if fails {
            return Err(Fault);
        }
        let start = place as usize;
        buf.copy_from_slice(&self.history.bytes()[start..start + buf.len()]);
        Ok(())
    }

    fn write_at(&mut self, alloc: Global, place: u64, bytes: &[u8]) -> Result<(), DiskFault>
        requires { place ≤ length (seen_of self.old.history.present) }
        ensures writes { Writes (mem_disk self.old) (mem_disk self.new)
            (record { place = place; bytes = bytes.now }) result }
        ensures answer { IsMemWrittenAt self.old self.new (record { place = place; bytes = bytes.now }) result }
    {
        let calls = self.calls.saturating_add(1);
        let fails = self.fails_at(calls);
        self.history.write(alloc, place, bytes, !fails)?;
        self.calls = calls;
        self.count_try(fails);
        if fails {
            return Err(DiskFault::Failed);
        }
        Ok(())
    }

    fn sync(&mut self) -> Result<(), Fault>
        ensures syncs { Syncs (mem_disk self.old) (mem_disk self.new) result }
        ensures fails { IsErr result ↔ IsTrue (counted_fails self.old) }
        ensures synced { self.new ≡ mem_synced self.old (counted_fails self.old) }
    {
        self.calls = self.calls.saturating_add(1);
        let fails = self.fails_at(self.calls);
        self.count_try(fails);
        if fails {
            return Err(Fault);
        }
        self.history.sync();
        Ok(())
    }
}
