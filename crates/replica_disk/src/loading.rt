//! What the records of a journal give.
ghost use Rattle.std.specs.Prelude.{◌≡◌, IsTrue, OnOk, IfOk, IfErr};
ghost use Rattle.std.specs.List.{AllByRecursion};
ghost use Rattle.byte_format.specs.Format.{whole};
ghost use Rattle.change_codec.specs.Encoding.{change_format};
ghost use Rattle.journal_format.specs.Encoding.{HoldsEncoding};
ghost use Rattle.journal_format.specs.declared.records.Record.TheVariants as records;
ghost use Rattle.replica_views.specs.Views.{beginning};
ghost use Rattle.replica_store.specs.Records.{no_notes, with_read, with_record, history_from, IsTakenAs, IsTaken, AreTaken, with_note, notes_from};
ghost use Rattle.replica_disk.specs.Loading.{StopsAt, IsInside, IsFirstStop};

use change_codec::{BadEncoding, read_change};
use change_graph::GraphFault;
use change_journal::{Note, Record};
use replica_history::{Replica, indices_fit};
use std::alloc::{AllocError, AllocFailed, Global};
use std::collections::BTreeMap;
use tt_base::{Blob, SharedPath};

/// Why a record was not taken.
#[derive(Clone, Copy, Debug, PartialEq, Eq)]
pub(crate) enum Refusal {
    /// It holds no change, or one that is refused.
    Refused,
    /// There was no memory.
    Memory,
}

impl From<AllocError> for Refusal {
    ghost use Rattle.replica_disk.specs.declared.loading.Refusal.TheVariants.{Memory};

    ghost from_gives = { λ _ given. given ≡ Memory };

    fn from(_error: AllocError) -> Refusal {
        Refusal::Memory
    }
}

impl<T: Drop> From<AllocFailed<T>> for Refusal {
    ghost use Rattle.replica_disk.specs.declared.loading.Refusal.TheVariants.{Memory};

    ghost from_gives = { λ _ given. given ≡ Memory };

    fn from(_error: AllocFailed<T>) -> Refusal {
        Refusal::Memory
    }
}

/// Why records were not loaded.
#[derive(Clone, Copy, Debug, PartialEq, Eq)]
pub(crate) enum Stop {
    /// The record at this place, counted from 0, is the first that was not taken.
    At(usize),
    /// There was no memory.
    Memory,
}

impl From<AllocError> for Stop {
    ghost use Rattle.replica_disk.specs.declared.loading.Stop.TheVariants.{Memory};

    ghost from_gives = { λ _ given. given ≡ Memory };

    fn from(_error: AllocError) -> Stop {
        Stop::Memory
    }
}

/// The history and the notes of records.
#[derive(Debug, Drop)]
pub(crate) struct Loaded {
    pub(crate) replica: Replica,
    pub(crate) notes: BTreeMap<SharedPath, Note>,
}

/// Takes the change of a record.
fn load_change(alloc: Global, replica: &mut Replica, encoding: &Blob) -> Result<(), Refusal>
    requires live { IsTrue replica.old.live }
    ensures live { OnOk result (IsTrue replica.new.live) }
    ensures history { OnOk result (replica.new.history ≡ with_read replica.old.history (whole change_format encoding.now)) }
    ensures taken { OnOk result (IsTakenAs replica.old.history (whole change_format encoding.now)) }
    ensures refused { HoldsEncoding (records.Change encoding.now)
        → IfErr result (StopsAt replica.old.history (records.Change encoding.now)) }
{
    let change = match read_change(alloc, encoding.as_slice()) {
        Ok(change) => change,
        Err(BadEncoding::Memory) => return Err(Refusal::Memory),
        Err(BadEncoding::At(_, _)) => return Err(Refusal::Refused),
    };
    if !indices_fit(&change) {
        return Err(Refusal::Memory);
    }
    match replica.add(alloc, change) {
        Ok(_) => Ok(()),
        Err(GraphFault::Memory) => Err(Refusal::Memory),
        Err(_) => Err(Refusal::Refused),
    }
}

/// Takes a record.
fn load_record(alloc: Global, loaded: &mut Loaded, entry: &Record) -> Result<(), Refusal>
    requires live { IsTrue loaded.old.replica.live }
    ensures live { OnOk result (IsTrue loaded.new.replica.live) }
    ensures history { OnOk result (loaded.new.replica.history ≡ with_record loaded.old.replica.history entry.now) }
    ensures notes { OnOk result (loaded.new.notes.entries ≡ with_note loaded.old.notes.entries entry.now) }
    ensures taken { OnOk result (IsTaken loaded.old.replica.history entry.now) }
    ensures refused { HoldsEncoding entry.now → IfErr result (StopsAt loaded.old.replica.history entry.now) }
{
    match entry {
        Record::Actor(_) => Ok(()),
        Record::Change(encoding) => load_change(alloc, &mut loaded.replica, encoding),
        Record::Note(path, note) => {
            let path = path.copied(alloc)?;
            loaded.notes.insert(path, *note)?;
            Ok(())
        }
    }
}

/// Takes records one after another, up to the first that is refused.
pub(crate) fn load(alloc: Global, records: &[Record]) -> Result<Loaded, Stop>
    ensures live { IfOk result (λ loaded. IsTrue loaded.replica.live) }
    ensures history { IfOk result (λ loaded. loaded.replica.history ≡ history_from beginning records.now) }
    ensures notes { IfOk result (λ loaded. loaded.notes.entries ≡ notes_from no_notes records.now) }
    ensures taken { OnOk result (AreTaken beginning records.now) }
    ensures inside { IfErr result (IsInside records.now) }
    ensures first { AllByRecursion HoldsEncoding records.now → IfErr result (IsFirstStop records.now) }
{
    let mut loaded = Loaded {
        replica: Replica::new(alloc)?,
        notes: BTreeMap::new(alloc),
    };
    for (place, entry) in records.iter().enumerate() {
        match load_record(alloc, &mut loaded, entry) {
            Ok(()) => {}
            Err(Refusal::Refused) => return Err(Stop::At(place)),
            Err(Refusal::Memory) => return Err(Stop::Memory),
        }
    }
    Ok(loaded)
}
