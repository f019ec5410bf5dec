ghost use Rattle.std.specs.Prelude.{◌≡◌, ◌<◌, length, IfOk};
ghost use Rattle.outside.specs.Gives.{Gives};

use outside::{Gave, Sink};
use std::alloc::{AllocError, Global};
use std::marker::Model;
use tt_base::{Blob, List};

/// A sink over memory that never fails. Each write gives the whole piece, unless memory runs out.
#[derive(Debug, Drop)]
pub struct SureSink {
    bytes: Vec<u8>,
}

impl Model for SureSink {
    ghost use Rattle.std.specs.Prelude.{List, ℕ};

    ghost Value = { List ℕ };

    ghost view = { λ s. s.bytes.items };
}

impl SureSink {
    /// A sink to which these bytes were written.
    pub fn new(_alloc: Global, bytes: Blob) -> Result<SureSink, AllocError>
        ensures { IfOk result (λ sink. sink ≡ bytes) }
    {
        Ok(SureSink {
            bytes: bytes.into_vec(),
        })
    }

    /// The bytes written so far.
    pub fn written(&self) -> &[u8]
        ensures { result.now ≡ self.now }
    {
        self.bytes.as_slice()
    }
}

impl Sink for SureSink {
    ghost use Rattle.std.specs.Prelude.{◌≡◌, ◌<◌, ◌⊎◌, length};
    ghost use Rattle.outside.specs.Gives.{Gives};
    ghost use Rattle.outside_mem.specs.MemSink.{sure_sink};

    ghost meaning = { sure_sink };

    fn write(&mut self, _alloc: Global, piece: &[u8]) -> Gave
        requires { 0 < length piece.now }
        ensures gives { Gives (sure_sink self.old) (sure_sink self.new) piece.now result }
        ensures answer { (result ≡ Gave.Bytes (length piece.now)) ⊎ (result ≡ Gave.Memory) }
    {
        match self.bytes.extend_from_slice(piece) {
            Ok(()) => Gave::Bytes(piece.len()),
            Err(_) => Gave::Memory,
        }
    }
}

/// A sink over memory whose writes fail where their numbers, counted from 1, are among `failing`.
#[derive(Debug, Drop)]
pub struct MemSink {
    sink: SureSink,
    failing: List<u64>,
    calls: u64,
    faults: u64,
}

impl Model for MemSink {
    ghost use Rattle.outside_mem.specs.MemSink.{MemSinkView};

    ghost Value = { MemSinkView };

    ghost view = { λ s. record { written = s.sink; failing = s.failing; calls = s.calls; faults = s.faults } };
}

impl MemSink {
    /// A sink to which these bytes were written, and whose calls with these numbers are to fail.
    pub fn new(alloc: Global, bytes: Blob, failing: List<u64>) -> Result<MemSink, AllocError>
        ensures { IfOk result (λ sink. sink
            ≡ record { written = bytes; failing = failing; calls = 0; faults = 0 }) }
    {
        Ok(MemSink {
            sink: SureSink::new(alloc, bytes)?,
            failing,
            calls: 0,
            faults: 0,
        })
    }

    /// The bytes written so far.
    pub fn written(&self) -> &[u8]
        ensures { result.now ≡ self.now.written }
    {
        self.sink.written()
    }
}

impl Sink for MemSink {
    ghost use Rattle.std.specs.Prelude.{◌≡◌, ◌<◌, length};
    ghost use Rattle.outside.specs.Gives.{Gives};
    ghost use Rattle.outside_mem.specs.MemSink.{mem_sink, IsMemWrite};
    ghost use Rattle.outside.specs.Calls.{counted};
    ghost use Rattle.outside_mem.specs.Calls.{faults_after};

    ghost meaning = { mem_sink };

    fn write(&mut self, alloc: Global, piece: &[u8]) -> Gave
        requires { 0 < length piece.now }
        ensures gives { Gives (mem_sink self.old) (mem_sink self.new) piece.now result }
        ensures answer { IsMemWrite self.old (length piece.now) result }
        ensures call { self.new.calls ≡ counted self.old.calls }
        ensures failing { self.new.failing ≡ self.old.failing }
        ensures faults { self.new.faults ≡ faults_after self.old.failing self.old.calls self.old.faults }
    {
        self.calls = self.calls.saturating_add(1);
        if self.failing.as_slice().contains(&self.calls) {
            self.faults = self.faults.saturating_add(1);
            return Gave::Failed;
        }
        self.sink.write(alloc, piece)
    }
}
