//! A store as a value over its disk.
ghost use Rattle.std.specs.Prelude.{◌≡◌, ◌≢◌, ◌≤◌, ℕ, [], false, None, Ok, Err, IsTrue, OnOk, OnErr, IfOk, IfErr, IsErrOf, MatchResult};
ghost use Rattle.outside.specs.Faults.{Rose};
ghost use Rattle.outside.specs.Moments.{LeavesNow, LeavesOnly};
ghost use Rattle.journal_format.specs.Image.{StandsFor};
ghost use Rattle.change_journal.specs.Journal.{IsBeforeOrAfter, AppendsSo};
ghost use Rattle.replica_store.specs.Calls.{IsNoted, IsNotAdded, CanMake, CanRemove, IsMade, IsRemoved, IsTooLong, IsShort, IsNotMade, IsNotRemoved, IsCommitted};
ghost use Rattle.replica_store.specs.Disk.{commit_steps, OpensOn, IsNotOpened, FailsToOpenSo, LeftByOpening};
ghost use Rattle.replica_store.specs.Records.{note_at};
ghost use Rattle.replica_store.specs.Store.{IsStore, all_records};
ghost use Rattle.replica_views.specs.Laws.{only_effect};
ghost use Rattle.replica_views.specs.Objects.{ArePaths};
ghost use Rattle.replica_views.specs.Views.{view_at};
ghost use Rattle.replica_disk.specs.Learning.{IsLearnt};

use crate::commits::append_staged;
use crate::learning::{Learnt, goes_on, hold};
use crate::making::{Made, hold_made, hold_removed, is_of_use};
use crate::notes::{is_kept, keep_note, note_kept};
use crate::opening::{Begun, begin, owner_of, read_back};
use change_codec::Change;
use change_graph::{Graph, GraphFault};
use change_journal::{AppendFault, Journal, JournalFault, NotOpened, Note, Record};
use delta::Delta;
use outside::Disk;
use replica_history::Replica;
use replica_store::StoreFault;
use std::alloc::{AllocError, Global};
use std::collections::BTreeMap;
use std::marker::Model;
use tt_base::{Actor, List, SharedPath, Text};

/// The changes and notes of a daemon, over the disk that keeps them.
///
/// It is seen as its journal, the daemon whose it is, the records that are staged for the next commit, the history and the notes
/// of all records, and whether it is live. After a changing call that failed for its disk or for memory it is not: then it answers
/// `into_disk` alone, and the disk is opened again.
#[derive(Debug, Drop)]
pub struct Store<D: Disk> {
    journal: Journal<D>,
    actor: Actor,
    staged: List<Record>,
    replica: Replica,
    notes: BTreeMap<SharedPath, Note>,
    live: bool,
}

impl<D: Disk> Model for Store<D> {
    ghost use Rattle.std.specs.Prelude.{IsTrue};
    ghost use Rattle.replica_store.specs.Store.{StoreView, IsStore};

    ghost Value = { StoreView D };

    ghost view = { λ s. record {
      journal = s.journal;
      actor = s.actor;
      staged = s.staged;
      history = s.replica.history;
      notes = s.notes.entries;
      live = s.live;
    } };

    ghost invariant = { λ s. IsTrue s.live → IsTrue s.replica.live × IsStore (record {
      journal = s.journal;
      actor = s.actor;
      staged = s.staged;
      history = s.replica.history;
      notes = s.notes.entries;
      live = s.live;
    }) };
}

impl<D: Disk> Store<D> {
    /// Opens the store of a disk for this daemon: takes the records of its journal one after another. A journal without records gets
    /// the daemon's, in one append; else it stays its own daemon's. A refusal gives the disk back.
    ///
    /// `NotAJournal`, `BadRecord` and `Memory` as the journal's own; `BadRecord` also with the gate of the first group that has a
    /// change that is refused. `Fault`: the disk failed.
    pub fn open(alloc: Global, disk: D, actor: Actor) -> Result<Store<D>, NotOpened<D>>
        ensures opened { IfOk result (λ store. OpensOn (D.meaning disk) (D.meaning store.journal.disk) actor store) }
        ensures fault { IfErr result (λ refusal. IsNotOpened (D.meaning disk) (D.meaning refusal.disk) refusal.fault) }
        ensures steps { (D.meaning disk).told
            → IfErr result (λ refusal. FailsToOpenSo (D.meaning disk) (D.meaning refusal.disk) actor refusal.fault) }
        // A crash while a disk that is not empty is opened leaves what it might have left before, or its records, with or without the
        // daemon's own where that is added.
        ensures moments { (D.meaning disk).told → (D.meaning disk).seen ≢ [] → MatchResult result
            (λ store. LeavesOnly (D.meaning disk) (D.meaning store.journal.disk) (LeftByOpening (D.meaning disk) actor))
            (λ refusal. LeavesOnly (D.meaning disk) (D.meaning refusal.disk) (LeftByOpening (D.meaning disk) actor)) }
        // When it has answered, each image stands for its records.
        ensures durable { IfOk result (λ store. LeavesNow (D.meaning store.journal.disk) (λ image. StandsFor image store.journal.records)) }
        ensures plan { MatchResult result
            (λ store. (D.meaning store.journal.disk).plan ≡ (D.meaning disk).plan)
            (λ refusal. (D.meaning refusal.disk).plan ≡ (D.meaning disk).plan) }
        ensures later { MatchResult result
            (λ store. (D.meaning disk).faults ≤ (D.meaning store.journal.disk).faults)
            (λ refusal. (D.meaning disk).faults ≤ (D.meaning refusal.disk).faults) }
    {
        match read_back(alloc, disk) {
            Ok(begun) => {
                let Begun {
                    mut journal,
                    loaded,
                } = begun;
                let owner = owner_of(journal.records().as_slice(), actor);
                match begin(alloc, &mut journal, actor) {
                    Ok(()) => Ok(Store {
                        journal,
                        actor: owner,
                        staged: List::from_vec(Vec::new(alloc)),
                        replica: loaded.replica,
                        notes: loaded.notes,
                        live: true,
                    }),
                    Err(fault) => {
                        let fault = JournalFault::from(fault);
                        let disk = journal.into_disk();
                        Err(NotOpened { fault, disk })
                    }
                }
            }
            Err(refusal) => Err(refusal),
        }
    }

    /// Whether no changing call has failed for its disk or for memory. A store of which one has is of no more use than its disk.
    pub fn is_live(&self) -> bool
        ensures live { result ≡ self.now.live }
        ensures store { IsTrue self.now.live → IsStore self.now }
        // Whatever a crash leaves of a live one stands for its records on the disk.
        ensures durable { IsTrue self.now.live → LeavesNow (D.meaning self.now.journal.disk) (λ image. StandsFor image self.now.journal.records) }
    {
        if self.live {
            let _records = self.journal.records();
        }
        self.live
    }

    /// The daemon whose store it is.
    pub fn actor(&self) -> Actor
        ensures { result ≡ self.now.actor }
    {
        self.actor
    }

    /// The changes that are held.
    pub fn graph(&self) -> &Graph
        ensures { result.now ≡ self.now.history }
    {
        self.replica.graph()
    }

    /// The text at a path, and `None` where there is no file.
    pub fn view(&self, alloc: Global, path: &SharedPath) -> Result<Option<Text>, AllocError>
        requires live { IsTrue self.now.live }
        ensures text { IfOk result (λ text. text ≡ view_at self.now.history path.now) }
        // Where there is no file no memory is asked for.
        ensures absent { view_at self.now.history path.now ≡ None → result ≡ Ok None }
    {
        self.replica.view(alloc, path)
    }

    /// The paths at which a file was ever made, removed since or not, each once, in the order of paths.
    pub fn paths(&self, alloc: Global) -> Result<List<SharedPath>, AllocError>
        requires live { IsTrue self.now.live }
        ensures { IfOk result (ArePaths self.now.history) }
    {
        self.replica.paths(alloc)
    }

    /// The note of a path, at first that it is known to be absent.
    pub fn note_of(&self, path: &SharedPath) -> Note
        ensures { result ≡ note_at self.now.notes path.now }
    {
        note_kept(&self.notes, path)
    }

    /// Keeps a note of a path, and stages its record, where it is another than the one that is kept.
    pub fn note(&mut self, alloc: Global, path: &SharedPath, note: Note) -> Result<(), AllocError>
        requires live { IsTrue self.old.live }
        ensures ok { OnOk result (IsNoted self.old path.now note self.new) }
        // The note that is kept already is no news, and no memory is asked for.
        ensures kept { note_at self.old.notes path.now ≡ note → (result ≡ Ok tt) × (self.new ≡ self.old) }
        ensures rests { self.new.journal ≡ self.old.journal }
        ensures spent { OnErr result (self.new.live ≡ false) }
    {
        if is_kept(&self.notes, path, &note) {
            return Ok(());
        }
        self.live = false;
        keep_note(alloc, &mut self.notes, &mut self.staged, path, note)?;
        self.live = true;
        Ok(())
    }

    /// Holds a change and stages its record, unless it is held. It is refused as a graph refuses it, and then nothing changes.
    pub fn learn(&mut self, alloc: Global, change: Change) -> Result<Learnt, GraphFault>
        requires live { IsTrue self.old.live }
        ensures learnt { IfOk result (IsLearnt self.old change self.new) }
        ensures fault { IfErr result (IsNotAdded self.old change self.new) }
        ensures rests { self.new.journal ≡ self.old.journal }
    {
        self.live = false;
        let answer = hold(alloc, &mut self.replica, &mut self.staged, change);
        self.live = goes_on(&answer);
        answer
    }

    /// Makes the change for a delta of the text at a path, holds it and stages its record. A file that is absent is read as the empty
    /// text, and is made. The delta is the one effect, and there is none where it changes nothing.
    ///
    /// `TextTooLong`: the text would have more characters than it has and than a text may have. `Clash`: another change is held under
    /// the name of the new one. After both nothing has changed.
    pub fn make(&mut self, alloc: Global, path: &SharedPath, d: &Delta) -> Result<Made, StoreFault>
        requires live { IsTrue self.old.live }
        requires base { CanMake self.old path.now d.now }
        ensures made { IfOk result (IsMade self.old path.now d.now self.new) }
        // The delta is its one effect.
        ensures effects { IfOk result (λ making. making.effects ≡ only_effect path.now d.now) }
        ensures short { OnOk result (IsShort self.old path.now d.now) }
        // The length is judged before any memory is asked for.
        ensures long { (count : ℕ) → IsTooLong self.old.history path.now d.now count → result ≡ Err (StoreFault.TextTooLong count) }
        ensures fault { IfErr result (IsNotMade self.old path.now d.now self.new) }
        ensures rests { self.new.journal ≡ self.old.journal }
    {
        d.normal_form();
        self.live = false;
        let answer = hold_made(
            alloc,
            &mut self.replica,
            &mut self.staged,
            self.actor,
            path,
            d,
        );
        self.live = is_of_use(&answer);
        answer
    }

    /// Makes the change that removes the file at a path, holds it and stages its record.
    ///
    /// `Clash`: another change is held under the name of the new one, and nothing has changed. It is never too long.
    pub fn remove(&mut self, alloc: Global, path: &SharedPath) -> Result<Made, StoreFault>
        requires live { IsTrue self.old.live }
        requires file { CanRemove self.old path.now }
        ensures removed { IfOk result (IsRemoved self.old path.now self.new) }
        ensures fault { IfErr result (IsNotRemoved self.old path.now self.new) }
        ensures rests { self.new.journal ≡ self.old.journal }
    {
        self.live = false;
        let answer = hold_removed(alloc, &mut self.replica, &mut self.staged, self.actor, path);
        self.live = is_of_use(&answer);
        answer
    }

    /// Writes what is staged to the disk as one group, and nothing where nothing is staged.
    ///
    /// While it goes on, whatever a crash leaves stands for the records from before, and for none or all of the staged ones, also
    /// where a call fails; when it has answered Ok, for all of them.
    pub fn commit(&mut self, alloc: Global) -> Result<(), AppendFault>
        requires live { IsTrue self.old.live }
        ensures ok { OnOk result (IsCommitted self.old self.new) }
        // Where nothing is staged no memory is asked for, and the disk is not touched.
        ensures nothing { self.old.staged ≡ [] → result ≡ Ok tt }
        ensures spent { OnErr result (self.new.live ≡ false) }
        // At each moment each image stands for the records from before, and for none or all of the staged ones.
        ensures moments { LeavesOnly (D.meaning self.old.journal.disk) (D.meaning self.new.journal.disk)
            (IsBeforeOrAfter self.old.journal.records self.old.staged) }
        // When it has answered, each image stands for all of them.
        ensures durable { OnOk result (LeavesNow (D.meaning self.new.journal.disk) (λ image. StandsFor image (all_records self.old))) }
        ensures steps { (D.meaning self.old.journal.disk).told → AppendsSo (commit_steps self.old.journal.end self.old.staged)
            (D.meaning self.old.journal.disk) (D.meaning self.new.journal.disk) result }
        ensures plan { (D.meaning self.new.journal.disk).plan ≡ (D.meaning self.old.journal.disk).plan }
        ensures later { (D.meaning self.old.journal.disk).faults ≤ (D.meaning self.new.journal.disk).faults }
        ensures fault { IsErrOf result AppendFault.Fault
            → Rose (D.meaning self.old.journal.disk).faults (D.meaning self.new.journal.disk).faults }
    {
        self.live = false;
        append_staged(alloc, &mut self.journal, self.staged.as_slice())?;
        self.staged = List::from_vec(Vec::new(alloc));
        self.live = true;
        Ok(())
    }

    /// The disk, to be looked at.
    pub fn disk(&self) -> &D
        ensures disk { result.now ≡ self.now.journal.disk }
    {
        self.journal.disk()
    }

    /// The disk.
    pub fn into_disk(self) -> D
        ensures { result ≡ self.journal.disk }
    {
        let Store { journal, .. } = self;
        journal.into_disk()
    }
}
