//! A journal as a value over its disk.
ghost use Rattle.std.specs.Prelude.{◌≡◌, ◌≢◌, ◌+◌, ◌<◌, ◌≤◌, ◌++◌, [], false, length, replicate, slice_index, IsTrue, IfOk, OnOk, OnErr, IfErr, IsErrOf, MatchResult};
ghost use Rattle.std.specs.List.{AllByRecursion};
ghost use Rattle.outside.specs.Faults.{Rose};
ghost use Rattle.outside.specs.Images.{IsImage};
ghost use Rattle.outside.specs.Moments.{LeavesNow, LeavesOnly};
ghost use Rattle.journal_format.specs.Encoding.{HoldsEncoding};
ghost use Rattle.journal_format.specs.Image.{actor_is_first, open_group, StandsFor, IsPlaced};
ghost use Rattle.change_journal.specs.Journal.{Rests, IsBeforeOrAfter, appended, append_steps, AppendsSo};
ghost use Rattle.change_journal.specs.Opening.{opened, open_steps, FailsToOpen, FailsSo};
ghost use Rattle.change_journal.specs.Steps.{MadeAll};

use crate::faults::{AppendFault, NotOpened};
use crate::opening::open_disk;
use crate::records::append_held;
use journal_format::{Contents, Record};
use outside::Disk;
use std::alloc::Global;
use std::marker::Model;
use tt_base::List;

/// The records of a disk, to which more are appended.
///
/// It is seen as its disk, its records with the offset of the open gate of each one's group, the offset of the closed gate
/// behind them, and whether it is live. After an append that failed it is not: then it answers `into_disk` alone, and the
/// disk is opened again.
#[derive(Debug, Drop)]
pub struct Journal<D: Disk> {
    disk: D,
    contents: Contents,
    live: bool,
}

impl<D: Disk> Model for Journal<D> {
    ghost use Rattle.std.specs.Prelude.{IsTrue};
    ghost use Rattle.change_journal.specs.Held.{JournalView, IsHeld};

    ghost Value = { JournalView D };

    ghost view = { λ j. record {
      disk = j.disk;
      records = j.contents.records;
      gates = j.contents.gates;
      end = j.contents.end;
      live = j.live;
    } };

    ghost invariant = { λ j. IsTrue j.live → IsHeld (D.meaning j.disk) j.contents.records j.contents.gates j.contents.end };
}

impl<D: Disk> Journal<D> {
    /// Opens the journal of a disk. An empty disk gets an empty journal and a sync; any other gets a sync, so that a crash
    /// leaves what was read, and no write. A refusal gives the disk back.
    pub fn open(alloc: Global, disk: D) -> Result<Journal<D>, NotOpened<D>>
        // Its records are those of the disk's content, each with the gate of its group.
        ensures records { (D.meaning disk).told
            → IfOk result (λ journal. IsPlaced (opened (D.meaning disk).seen) journal.records journal.gates journal.end) }
        ensures live { IfOk result (λ journal. IsTrue journal.live) }
        // The disk rests at them: whatever a crash leaves stands for them.
        ensures rests { IfOk result (λ journal. Rests (D.meaning journal.disk) journal.records journal.gates journal.end) }
        ensures fault { IfErr result (λ refusal. FailsToOpen (D.meaning disk) (D.meaning refusal.disk) refusal.fault) }
        ensures steps { (D.meaning disk).told → MatchResult result
            (λ journal. MadeAll (D.meaning disk) (D.meaning journal.disk) (open_steps (D.meaning disk).seen))
            (λ refusal. FailsSo (D.meaning disk) (D.meaning refusal.disk) (open_steps (D.meaning disk).seen) refusal.fault) }
        // A crash while a disk that is not empty is opened leaves what it might have left before.
        ensures moments { (D.meaning disk).told → (D.meaning disk).seen ≢ [] → MatchResult result
            (λ journal. LeavesOnly (D.meaning disk) (D.meaning journal.disk) (IsImage (D.meaning disk).synced (D.meaning disk).writes))
            (λ refusal. LeavesOnly (D.meaning disk) (D.meaning refusal.disk) (IsImage (D.meaning disk).synced (D.meaning disk).writes)) }
        // What the disk tells it goes on to tell.
        ensures told { (D.meaning disk).told → MatchResult result
            (λ journal. (D.meaning journal.disk).told) (λ refusal. (D.meaning refusal.disk).told) }
        ensures plan { MatchResult result
            (λ journal. (D.meaning journal.disk).plan ≡ (D.meaning disk).plan)
            (λ refusal. (D.meaning refusal.disk).plan ≡ (D.meaning disk).plan) }
        ensures later { MatchResult result
            (λ journal. (D.meaning disk).faults ≤ (D.meaning journal.disk).faults)
            (λ refusal. (D.meaning disk).faults ≤ (D.meaning refusal.disk).faults) }
    {
        let mut disk = disk;
        match open_disk(alloc, &mut disk) {
            Ok(contents) => Ok(Journal {
                disk,
                contents,
                live: true,
            }),
            Err(fault) => Err(NotOpened { fault, disk }),
        }
    }

    /// Whether no append has failed. A journal of which one has is of no more use than its disk.
    pub fn is_live(&self) -> bool
        ensures { result ≡ self.now.live }
    {
        self.live
    }

    /// The records, in order.
    pub fn records(&self) -> &List<Record>
        requires live { IsTrue self.now.live }
        ensures records { result.now ≡ self.now.records }
        ensures actor { IsTrue (actor_is_first self.now.records) }
        ensures rests { Rests (D.meaning self.now.disk) self.now.records self.now.gates self.now.end }
        ensures durable { LeavesNow (D.meaning self.now.disk) (λ image. StandsFor image self.now.records) }
    {
        &self.contents.records
    }

    /// The offset of the open gate of the group that holds record k, counted from 0, in bytes from 0.
    pub fn place(&self, k: usize) -> u64
        requires live { IsTrue self.now.live }
        requires inside { k < length self.now.records }
        ensures { result ≡ slice_index self.now.gates k }
    {
        *self.contents.gates.at(k)
    }

    /// Appends records as one group, so that all of them are kept or none.
    ///
    /// Its four counted calls write the group behind the closed gate, sync, open the gate, which is one byte, and sync. While
    /// it goes on, whatever a crash leaves stands for the records from before, and for none or all of the new ones, also where
    /// a call fails; when it has answered Ok, for all of them. All memory but the disk's own is taken before its first call.
    pub fn append(&mut self, alloc: Global, added: &[Record]) -> Result<(), AppendFault>
        requires live { IsTrue self.old.live }
        requires some { 0 < length added.now }
        requires encodings { AllByRecursion HoldsEncoding added.now }
        requires actor { IsTrue (actor_is_first (self.old.records ++ added.now)) }
        ensures records { OnOk result (self.new.records ≡ self.old.records ++ added.now) }
        ensures gates { OnOk result (self.new.gates ≡ self.old.gates ++ replicate (length added.now) self.old.end) }
        ensures end { OnOk result (self.new.end ≡ self.old.end + length (open_group added.now)) }
        ensures live { OnOk result (IsTrue self.new.live) }
        ensures spent { OnErr result (self.new.live ≡ false) }
        // At each moment each image stands for the records from before, and for none or all of the new ones.
        ensures moments { LeavesOnly (D.meaning self.old.disk) (D.meaning self.new.disk) (IsBeforeOrAfter self.old.records added.now) }
        // When it has answered, each image stands for all of them.
        ensures durable { OnOk result (LeavesNow (D.meaning self.new.disk) (λ image. StandsFor image (self.old.records ++ added.now))) }
        ensures steps { (D.meaning self.old.disk).told
            → AppendsSo (append_steps self.old.end (appended added.now)) (D.meaning self.old.disk) (D.meaning self.new.disk) result }
        ensures plan { (D.meaning self.new.disk).plan ≡ (D.meaning self.old.disk).plan }
        ensures later { (D.meaning self.old.disk).faults ≤ (D.meaning self.new.disk).faults }
        ensures fault { IsErrOf result AppendFault.Fault → Rose (D.meaning self.old.disk).faults (D.meaning self.new.disk).faults }
    {
        self.live = false;
        append_held(alloc, &mut self.disk, &mut self.contents, added)?;
        self.live = true;
        Ok(())
    }

    /// The disk, to be looked at.
    pub fn disk(&self) -> &D
        ensures { result.now ≡ self.now.disk }
    {
        &self.disk
    }

    /// The disk.
    pub fn into_disk(self) -> D
        ensures { result ≡ self.disk }
    {
        let Journal { disk, .. } = self;
        disk
    }
}
