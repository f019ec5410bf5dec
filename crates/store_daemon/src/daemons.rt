//! A daemon as a value over its disk.
ghost use Rattle.std.specs.Prelude.{◌≡◌, ◌≢◌, ◌↔◌, ◌≤◌, ◌<◌, ◌^◌, [], false, is_some, IsTrue, IfOk, IfErr, OnOk, OnErr, IsErrOf, MatchResult};
ghost use Rattle.std.specs.Map.{lookup};
ghost use Rattle.outside.specs.Faults.{Rose};
ghost use Rattle.outside.specs.Moments.{LeavesNow, LeavesOnly};
ghost use Rattle.journal_format.specs.Image.{StandsFor};
ghost use Rattle.change_graph.specs.History.{is_held};
ghost use Rattle.replica_store.specs.Disk.{IsNotOpened, FailsToOpenSo, LeftByOpening};
ghost use Rattle.replica_views.specs.Objects.{ArePaths};
ghost use Rattle.daemon_core.specs.State.{is_number};
ghost use Rattle.daemon_core.specs.declared.events.Event.TheVariants.{EditorBegan, Ended, EditorFrame};
ghost use Rattle.daemon_history.specs.Holding.{held, view_at};
ghost use Rattle.daemon_history.specs.Shown.{shown};
ghost use Rattle.daemon_events.specs.Outputs.{serve};
ghost use Rattle.daemon_events.specs.Sending.{AllCanBeSent};
ghost use Rattle.store_daemon.specs.Daemons.{state_of, recorded_by, StartsOn, IsBeforeOrAfterEvent};
ghost use Rattle.store_daemon.specs.declared.stops.DaemonStop.TheVariants as stops;

use crate::frames::serve_frame;
use crate::stops::DaemonStop;
use daemon_core::{Event, Output};
use daemon_history::laws::a_store_shows_what_its_daemon_holds;
use daemon_links::{Connections, Files, OpenFiles};
use file_uri::Base;
use outside::Disk;
use replica_disk::{NotOpened, Store};
use std::alloc::{AllocError, Global};
use std::marker::Model;
use tt_base::{Actor, Blob, List, Name, SharedPath, Text};

/// A daemon: the directory that its URIs are below, its store, the connections of its editors, and the texts that are at hand.
///
/// It is seen as its base, its store, its connections and whether it is live. After a call that failed for its disk or for memory it is
/// not: then it answers `into_disk` alone, and the disk is opened again.
#[derive(Debug, Drop)]
pub struct Daemon<D: Disk> {
    base: Base,
    store: Store<D>,
    files: Files,
    connections: Connections,
    live: bool,
}

impl<D: Disk> Model for Daemon<D> {
    ghost use Rattle.std.specs.Prelude.{IsTrue};
    ghost use Rattle.store_daemon.specs.Daemons.{DaemonView};
    ghost use Rattle.store_daemon.specs.Following.{IsRunning};

    ghost Value = { DaemonView D };

    ghost view = { λ d. record { base = d.base; store = d.store; connections = d.connections; live = d.live } };

    ghost invariant = { λ d. IsTrue d.live → IsRunning d.base d.store d.files d.connections };
}

impl<D: Disk> Daemon<D> {
    /// Starts the daemon of a disk: it holds what the records there give, and has no connections. A disk without records gets the record
    /// of this daemon; else it stays its own daemon's. A refusal gives the disk back.
    ///
    /// `NotAJournal`, `BadRecord`, `Fault` and `Memory` as a store is refused.
    pub fn open(alloc: Global, base: Base, disk: D, actor: Actor) -> Result<Daemon<D>, NotOpened<D>>
        ensures started { IfOk result (λ daemon. StartsOn (D.meaning disk) (D.meaning daemon.store.journal.disk) base actor daemon) }
        ensures fault { IfErr result (λ refusal. IsNotOpened (D.meaning disk) (D.meaning refusal.disk) refusal.fault) }
        ensures steps { (D.meaning disk).told
            → IfErr result (λ refusal. FailsToOpenSo (D.meaning disk) (D.meaning refusal.disk) actor refusal.fault) }
        // A crash while a disk that is not empty is opened leaves what it might have left before, or its records, with or without the
        // daemon's own where that is added.
        ensures moments { (D.meaning disk).told → (D.meaning disk).seen ≢ [] → MatchResult result
            (λ daemon. LeavesOnly (D.meaning disk) (D.meaning daemon.store.journal.disk) (LeftByOpening (D.meaning disk) actor))
            (λ refusal. LeavesOnly (D.meaning disk) (D.meaning refusal.disk) (LeftByOpening (D.meaning disk) actor)) }
        // When it has started, each image stands for all that it has recorded.
        ensures durable { IfOk result (λ daemon. LeavesNow (D.meaning daemon.store.journal.disk) (λ image. StandsFor image (recorded_by daemon))) }
        ensures plan { MatchResult result
            (λ daemon. (D.meaning daemon.store.journal.disk).plan ≡ (D.meaning disk).plan)
            (λ refusal. (D.meaning refusal.disk).plan ≡ (D.meaning disk).plan) }
        ensures later { MatchResult result
            (λ daemon. (D.meaning disk).faults ≤ (D.meaning daemon.store.journal.disk).faults)
            (λ refusal. (D.meaning disk).faults ≤ (D.meaning refusal.disk).faults) }
    {
        a_store_shows_what_its_daemon_holds::<D>();
        match Store::open(alloc, disk, actor) {
            Ok(store) => {
                let _live = store.is_live();
                let files = Files::of_changes(alloc, store.graph().count() as u64);
                Ok(Daemon {
                    base,
                    store,
                    files,
                    connections: Connections::none(alloc),
                    live: true,
                })
            }
            Err(refusal) => Err(refusal),
        }
    }

    /// Whether no call has failed. A daemon of which one has is of no more use than its disk.
    pub fn is_live(&self) -> bool
        ensures { result ≡ self.now.live }
    {
        self.live
    }

    /// The directory that its URIs are below.
    pub fn base(&self) -> &Base
        ensures { result.now ≡ self.now.base }
    {
        &self.base
    }

    /// The disk.
    pub fn disk(&self) -> &D
        requires live { IsTrue self.now.live }
        ensures disk { result.now ≡ self.now.store.journal.disk }
        // Each image of it stands for all that the daemon has recorded.
        ensures durable { LeavesNow (D.meaning self.now.store.journal.disk) (λ image. StandsFor image (recorded_by self.now)) }
    {
        let _durable = self.store.is_live();
        self.store.disk()
    }

    /// How many changes the daemon holds.
    pub fn held(&self) -> usize
        ensures { result ≡ held (shown self.now.store) }
    {
        self.store.graph().count()
    }

    /// Whether one more event can be handled, so that its change can be counted.
    pub fn has_room(&self) -> bool
        ensures { IsTrue result ↔ (held (shown self.now.store) < 2 ^ 63) }
    {
        self.held() < 1 << 63
    }

    /// Whether a change is held under a name.
    pub fn knows(&self, name: &Name) -> bool
        ensures { result ≡ is_held self.now.store.history name.now }
    {
        self.store.graph().holds(name)
    }

    /// The text of the file at a path, and `None` where there is none.
    pub fn view(&self, alloc: Global, path: &SharedPath) -> Result<Option<Text>, AllocError>
        requires live { IsTrue self.now.live }
        ensures text { IfOk result (λ text. text ≡ view_at (shown self.now.store) path.now) }
    {
        self.store.view(alloc, path)
    }

    /// The paths at which a file was ever made, removed since or not, each once, in the order of paths.
    pub fn paths(&self, alloc: Global) -> Result<List<SharedPath>, AllocError>
        requires live { IsTrue self.now.live }
        ensures { IfOk result (ArePaths self.now.store.history) }
    {
        self.store.paths(alloc)
    }

    /// A connection begins.
    fn begin(&mut self, alloc: Global, n: u64) -> Result<(), AllocError>
        requires live { IsTrue self.old.live }
        ensures ok { OnOk result (state_of self.new ≡ (serve (state_of self.old) (EditorBegan n)).state) }
        ensures live { OnOk result (IsTrue self.new.live) }
        ensures spent { OnErr result (self.new.live ≡ false) }
        ensures rests { self.new.store ≡ self.old.store }
    {
        self.live = false;
        self.connections.put(n, OpenFiles::none(alloc))?;
        self.live = true;
        Ok(())
    }

    /// A connection ends, if there is one.
    pub fn end(&mut self, n: u64)
        requires live { IsTrue self.old.live }
        ensures ended { state_of self.new ≡ (serve (state_of self.old) (Ended n)).state }
        ensures live { IsTrue self.new.live }
        ensures rests { self.new.store ≡ self.old.store }
    {
        let _ = self.connections.take(n);
    }

    /// A frame with this body comes on a connection.
    fn hear(&mut self, alloc: Global, n: u64, body: &Blob) -> Result<List<Output>, DaemonStop>
        requires live { IsTrue self.old.live }
        requires room { held (shown self.old.store) < 2 ^ 63 }
        ensures ok { IfOk result (λ outputs. serve (state_of self.old) (EditorFrame n body.now) ≡ record { state = state_of self.new; outputs = outputs }) }
        ensures sent { OnOk result (AllCanBeSent (state_of self.old) (EditorFrame n body.now)) }
        ensures live { OnOk result (IsTrue self.new.live) }
        ensures spent { OnErr result (self.new.live ≡ false) }
        ensures moments { LeavesOnly (D.meaning self.old.store.journal.disk) (D.meaning self.new.store.journal.disk)
            (IsBeforeOrAfterEvent self.old (EditorFrame n body.now)) }
        ensures durable { OnOk result (LeavesNow (D.meaning self.new.store.journal.disk) (λ image. StandsFor image (recorded_by self.new))) }
        ensures plan { (D.meaning self.new.store.journal.disk).plan ≡ (D.meaning self.old.store.journal.disk).plan }
        ensures later { (D.meaning self.old.store.journal.disk).faults ≤ (D.meaning self.new.store.journal.disk).faults }
        ensures fault { IsErrOf result stops.Disk
            → Rose (D.meaning self.old.store.journal.disk).faults (D.meaning self.new.store.journal.disk).faults }
    {
        a_store_shows_what_its_daemon_holds::<D>();
        let _durable = self.store.is_live();
        self.live = false;
        let sent = serve_frame(
            alloc,
            &self.base,
            &mut self.store,
            &mut self.files,
            &mut self.connections,
            n,
            body.as_slice(),
        )?;
        self.store.commit(alloc)?;
        self.live = true;
        Ok(sent)
    }

    /// What the daemon does with an event: what it records is on the disk before it asks for anything.
    ///
    /// `Disk`: a call of the disk failed. `Memory`: there was no memory. After both the daemon is of no more use than its disk, which
    /// stands for the records from before the event, or for those and all of the event's.
    pub fn handle(&mut self, alloc: Global, event: Event) -> Result<List<Output>, DaemonStop>
        requires live { IsTrue self.old.live }
        requires room { held (shown self.old.store) < 2 ^ 63 }
        ensures ok { IfOk result (λ outputs. serve (state_of self.old) event ≡ record { state = state_of self.new; outputs = outputs }) }
        // Each message that is sent is read as that message.
        ensures sent { OnOk result (AllCanBeSent (state_of self.old) event) }
        ensures live { OnOk result (IsTrue self.new.live) }
        ensures spent { OnErr result (self.new.live ≡ false) }
        // At each moment each image stands for the records from before, or for them and all of the event's.
        ensures moments { LeavesOnly (D.meaning self.old.store.journal.disk) (D.meaning self.new.store.journal.disk) (IsBeforeOrAfterEvent self.old event) }
        // When it has answered, each image stands for all of them.
        ensures durable { OnOk result (LeavesNow (D.meaning self.new.store.journal.disk) (λ image. StandsFor image (recorded_by self.new))) }
        ensures plan { (D.meaning self.new.store.journal.disk).plan ≡ (D.meaning self.old.store.journal.disk).plan }
        ensures later { (D.meaning self.old.store.journal.disk).faults ≤ (D.meaning self.new.store.journal.disk).faults }
        ensures fault { IsErrOf result stops.Disk
            → Rose (D.meaning self.old.store.journal.disk).faults (D.meaning self.new.store.journal.disk).faults }
    {
        let _durable = self.disk();
        match event {
            Event::EditorBegan(n) => {
                self.begin(alloc, n)?;
                Ok(List::from_vec(Vec::new(alloc)))
            }
            Event::Ended(n) => {
                self.end(n);
                Ok(List::from_vec(Vec::new(alloc)))
            }
            Event::EditorFrame(n, body) => self.hear(alloc, n, &body),
        }
    }

    /// The disk, for another daemon to open.
    pub fn into_disk(self) -> D
        ensures { result ≡ self.store.journal.disk }
    {
        let Daemon { store, .. } = self;
        store.into_disk()
    }
}
