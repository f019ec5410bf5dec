//! Opens the journal of a disk, and takes its records.
ghost use Rattle.std.specs.Prelude.{◌≡◌, ◌≤◌, IsTrue, OnOk, IfOk, IfErr, IsErrOf};
ghost use Rattle.outside.specs.Faults.{Rose};
ghost use Rattle.outside.specs.Moments.{LeavesNow, LeavesOnly};
ghost use Rattle.journal_format.specs.Image.{StandsFor};
ghost use Rattle.change_journal.specs.Journal.{IsBeforeOrAfter, AppendsSo};
ghost use Rattle.replica_store.specs.Calls.{IsWritten};
ghost use Rattle.replica_store.specs.Disk.{commit_steps, first_records};
ghost use Rattle.replica_store.specs.Records.{actor_from};
ghost use Rattle.replica_disk.specs.Loading.{IsInside};
ghost use Rattle.replica_disk.specs.Opening.{fault_at, IsReadBack, IsNotRead};

use crate::commits::append_staged;
use crate::loading::{Loaded, Stop, load};
use change_journal::{AppendFault, Journal, JournalFault, NotOpened, Record};
use outside::Disk;
use std::alloc::Global;
use tt_base::Actor;

/// The fault for records that were not taken.
fn fault_of<D: Disk>(journal: &Journal<D>, stop: Stop) -> JournalFault
    requires live { IsTrue journal.now.live }
    requires inside { IsInside journal.now.records stop }
    ensures { result ≡ fault_at journal.now.gates stop }
{
    match stop {
        Stop::At(place) => JournalFault::BadRecord(journal.place(place)),
        Stop::Memory => JournalFault::Memory,
    }
}

/// An open journal, and what its records give.
#[derive(Debug, Drop)]
pub(crate) struct Begun<D: Disk> {
    pub(crate) journal: Journal<D>,
    pub(crate) loaded: Loaded,
}

/// Opens the journal of a disk, and takes its records.
pub(crate) fn read_back<D: Disk>(alloc: Global, disk: D) -> Result<Begun<D>, NotOpened<D>>
    ensures read { IfOk result (λ begun. IsReadBack (D.meaning disk) (D.meaning begun.journal.disk) begun.journal begun.loaded) }
    ensures fault { IfErr result (λ refusal. IsNotRead (D.meaning disk) (D.meaning refusal.disk) refusal.fault) }
{
    match Journal::open(alloc, disk) {
        Ok(journal) => match load(alloc, journal.records().as_slice()) {
            Ok(loaded) => Ok(Begun { journal, loaded }),
            Err(stop) => {
                let fault = fault_of(&journal, stop);
                let disk = journal.into_disk();
                Err(NotOpened { fault, disk })
            }
        },
        Err(refusal) => Err(refusal),
    }
}

/// Whose journal it is with these records: its own daemon's, or this one's where there are none.
pub(crate) fn owner_of(records: &[Record], given: Actor) -> Actor
    ensures { result ≡ actor_from given records.now }
{
    match records {
        [Record::Actor(owner), ..] => *owner,
        _ => given,
    }
}

/// Appends the daemon's record to a journal without records.
pub(crate) fn begin<D: Disk>(
    alloc: Global,
    journal: &mut Journal<D>,
    given: Actor,
) -> Result<(), AppendFault>
    requires live { IsTrue journal.old.live }
    ensures written { OnOk result (IsWritten journal.old journal.new (first_records given journal.old.records)) }
    ensures moments { LeavesOnly (D.meaning journal.old.disk) (D.meaning journal.new.disk)
        (IsBeforeOrAfter journal.old.records (first_records given journal.old.records)) }
    ensures durable { OnOk result (LeavesNow (D.meaning journal.new.disk) (λ image. StandsFor image journal.new.records)) }
    ensures steps { (D.meaning journal.old.disk).told → AppendsSo (commit_steps journal.old.end (first_records given journal.old.records))
        (D.meaning journal.old.disk) (D.meaning journal.new.disk) result }
    ensures plan { (D.meaning journal.new.disk).plan ≡ (D.meaning journal.old.disk).plan }
    ensures later { (D.meaning journal.old.disk).faults ≤ (D.meaning journal.new.disk).faults }
    ensures fault { IsErrOf result AppendFault.Fault → Rose (D.meaning journal.old.disk).faults (D.meaning journal.new.disk).faults }
{
    if !journal.records().is_empty() {
        return Ok(());
    }
    append_staged(alloc, journal, &[Record::Actor(given)])
}
