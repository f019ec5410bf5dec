ghost use Rattle.std.specs.Prelude.{◌≡◌, ◌<◌, length, min, take, false, IfOk};
ghost use Rattle.outside.specs.Takes.{Takes};

use outside::{Source, Took};
use std::alloc::{AllocError, Global};
use std::marker::Model;
use tt_base::{Blob, List};

/// Copies the front of `from` into the front of `buf`: all that fits.
fn copy_front(buf: &mut [u8], from: &[u8]) -> usize
    ensures count { result ≡ min (length from.now) (length buf.old) }
    ensures copied { take result buf.new ≡ take result from.now }
{
    let count = from.len().min(buf.len());
    buf[..count].copy_from_slice(&from[..count]);
    count
}

/// A source over memory that never fails. Each read gives as many bytes as the buffer takes.
#[derive(Debug, Drop)]
pub struct SureSource {
    bytes: Vec<u8>,
    place: usize,
    ended: bool,
}

impl Model for SureSource {
    ghost use Rattle.std.specs.Prelude.{◌≤◌, length, drop};
    ghost use Rattle.outside_mem.specs.MemSource.{SureSourceView};

    ghost Value = { SureSourceView };

    ghost view = { λ s. record { left = drop s.place s.bytes.items; ended = s.ended } };

    ghost invariant = { λ s. s.place ≤ length s.bytes.items };
}

impl SureSource {
    /// A source that has these bytes left.
    pub fn new(_alloc: Global, bytes: Blob) -> Result<SureSource, AllocError>
        ensures { IfOk result (λ source. source ≡ record { left = bytes; ended = false }) }
    {
        Ok(SureSource {
            bytes: bytes.into_vec(),
            place: 0,
            ended: false,
        })
    }
}

impl Source for SureSource {
    ghost use Rattle.std.specs.Prelude.{◌≡◌, ◌<◌, length};
    ghost use Rattle.outside.specs.Takes.{Takes};
    ghost use Rattle.outside_mem.specs.MemSource.{sure_source, read_of, rest_of};

    ghost meaning = { sure_source };

    fn read(&mut self, buf: &mut [u8]) -> Took
        requires { 0 < length buf.old }
        ensures takes { Takes (sure_source self.old) (sure_source self.new) buf.new result }
        ensures answer { result ≡ read_of self.old.left (length buf.old) }
        ensures left { self.new.left ≡ rest_of self.old.left (length buf.old) }
    {
        let left = &self.bytes[self.place..];
        if left.is_empty() {
            self.ended = true;
            return Took::Ended;
        }
        let count = copy_front(buf, left);
        self.place += count;
        Took::Bytes(count)
    }
}

/// A source over memory whose reads fail where their numbers, counted from 1, are among `failing`.
#[derive(Debug, Drop)]
pub struct MemSource {
    source: SureSource,
    failing: List<u64>,
    calls: u64,
    faults: u64,
}

impl Model for MemSource {
    ghost use Rattle.outside_mem.specs.MemSource.{MemSourceView};

    ghost Value = { MemSourceView };

    ghost view = { λ s. record { left = s.source.left; ended = s.source.ended; failing = s.failing; calls = s.calls; faults = s.faults } };
}

impl MemSource {
    /// A source that has these bytes left, and whose calls with these numbers are to fail.
    pub fn new(alloc: Global, bytes: Blob, failing: List<u64>) -> Result<MemSource, AllocError>
        ensures { IfOk result (λ source. source
            ≡ record { left = bytes; ended = false; failing = failing; calls = 0; faults = 0 }) }
    {
        Ok(MemSource {
            source: SureSource::new(alloc, bytes)?,
            failing,
            calls: 0,
            faults: 0,
        })
    }
}

impl Source for MemSource {
    ghost use Rattle.std.specs.Prelude.{◌≡◌, ◌<◌, length};
    ghost use Rattle.outside.specs.Takes.{Takes};
    ghost use Rattle.outside_mem.specs.MemSource.{mem_source, mem_read_of};
    ghost use Rattle.outside.specs.Calls.{counted};
    ghost use Rattle.outside_mem.specs.Calls.{faults_after};

    ghost meaning = { mem_source };

    fn read(&mut self, buf: &mut [u8]) -> Took
        requires { 0 < length buf.old }
        ensures takes { Takes (mem_source self.old) (mem_source self.new) buf.new result }
        ensures answer { result ≡ mem_read_of self.old (length buf.old) }
        ensures call { self.new.calls ≡ counted self.old.calls }
        ensures failing { self.new.failing ≡ self.old.failing }
        ensures faults { self.new.faults ≡ faults_after self.old.failing self.old.calls self.old.faults }
    {
        self.calls = self.calls.saturating_add(1);
        if self.failing.as_slice().contains(&self.calls) {
            self.faults = self.faults.saturating_add(1);
            return Took::Failed;
        }
        self.source.read(buf)
    }
}
