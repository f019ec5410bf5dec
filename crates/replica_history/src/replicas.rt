ghost use Rattle.std.specs.Prelude.{◌≡◌, ◌≢◌, ◌↔◌, ◌<◌, ◌^◌, true, false, not, length, None, Ok, IsTrue, IfOk, IfErr, OnOk};
ghost use Rattle.std.specs.Option.{option_map};
ghost use Rattle.delta.specs.Cells.{base_length};
ghost use Rattle.change_codec.specs.Change.{Change};
ghost use Rattle.change_graph.specs.Adding.{IsRefused};
ghost use Rattle.change_graph.specs.History.{History};
ghost use Rattle.change_graph.specs.Refusals.{things};
ghost use Rattle.change_graph.specs.declared.faults.GraphFault.TheVariants.{Memory};
ghost use Rattle.replica_views.specs.Effects.{AreEffects};
ghost use Rattle.replica_views.specs.Growth.{IsGrown};
ghost use Rattle.replica_views.specs.Made.{made, removed};
ghost use Rattle.replica_views.specs.Objects.{ArePaths};
ghost use Rattle.replica_views.specs.Views.{beginning, held, text_at, view_at};
ghost use Rattle.replica_history.specs.Replica.{AreReadings, IsHeldNextOf, IsHeldNext, IsAdded};

use crate::counts::Counts;
use crate::deeds::indices_of;
use crate::effects::Effect;
use crate::following::follow;
use crate::ids::held_id;
use crate::standings::winner;
use crate::texts::Texts;
use change_codec::{Change, name_of, write_change};
use change_graph::{AddNote, Graph, GraphFault};
use change_making::{changing, creating, removing};
use delta::Delta;
use replica_dir::Directory;
use std::alloc::{AllocError, Global};
use std::marker::Model;
use tt_base::{Actor, List, Name, SharedPath, Text};

/// What came of adding a change.
#[derive(Debug, Drop)]
pub enum Added {
    /// The same change was held before, and nothing changed.
    Repeat,
    /// It is held now, and these are its effects: one for each path where what is shown changed, in the order of paths.
    Effects(List<Effect>),
}

/// A history with what it shows.
///
/// It is seen as its history, and whether it is live: a replica that ran out of memory in the middle of a change is spent.
#[derive(Debug, Drop)]
pub struct Replica {
    graph: Graph,
    directory: Directory,
    texts: Texts,
    counts: Counts,
    live: bool,
}

impl Model for Replica {
    ghost use Rattle.std.specs.Prelude.{IsTrue};
    ghost use Rattle.replica_history.specs.Replica.{ReplicaView, AreKept};

    ghost Value = { ReplicaView };

    ghost view = { λ r. record { history = r.graph; live = r.live } };

    ghost invariant = { λ r. IsTrue r.live → AreKept r.graph r.directory r.texts r.counts };
}

/// Whether what the change makes has fewer than 2^64 indices.
pub fn indices_fit(change: &Change) -> bool
    ensures { IsTrue result ↔ (length (things change.now.ops) < 2 ^ 64) }
{
    let mut count: u64 = 0;
    for op in change.ops() {
        let Some(more) = count.checked_add(indices_of(op)) else {
            return false;
        };
        count = more;
    }
    true
}

/// Whether the fault is want of memory.
fn is_memory(fault: &GraphFault) -> bool
    ensures { IsTrue result ↔ (fault.now ≡ Memory) }
{
    match fault {
        GraphFault::Memory => true,
        GraphFault::Clash(_, _) => false,
        GraphFault::MissingDeps(_) => false,
        GraphFault::BadChange(_, _) => false,
    }
}

/// Lets the directory and the texts follow the change of this name, which the graph has now.
fn follow_held(
    alloc: Global,
    graph: &Graph,
    directory: &mut Directory,
    texts: &mut Texts,
    name: &Name,
) -> Result<List<Effect>, AllocError>
    requires { IsHeldNext graph.now name.now directory.old texts.old }
    ensures readings { OnOk result (AreReadings graph.now directory.new texts.new) }
    ensures effects { IfOk result (λ effects. (history : History) (change : Change)
        → IsHeldNextOf history change graph.now name.now directory.old texts.old → AreEffects history graph.now effects) }
{
    let own = held_id(graph, name, 0);
    let Some(change) = graph.change(name) else {
        unreachable!();
    };
    follow(alloc, graph, directory, texts, &own, change.ops())
}

impl Replica {
    /// The replica that holds no change.
    pub fn new(alloc: Global) -> Result<Replica, AllocError>
        ensures { IfOk result (λ replica. replica ≡ record { history = beginning; live = true }) }
    {
        Ok(Replica {
            graph: Graph::new(alloc),
            directory: Directory::new(alloc)?,
            texts: Texts::empty(alloc),
            counts: Counts::none(alloc),
            live: true,
        })
    }

    /// Whether no call ran out of memory in the middle of a change.
    pub fn is_live(&self) -> bool
        ensures live { result ≡ self.now.live }
        ensures grown { IsTrue self.now.live → IsGrown self.now.history }
    {
        self.live
    }

    /// How many changes are held.
    pub fn held(&self) -> usize
        ensures { result ≡ held self.now.history }
    {
        self.graph.count()
    }

    /// The changes that are held.
    pub fn graph(&self) -> &Graph
        ensures { result.now ≡ self.now.history }
    {
        &self.graph
    }

    /// The text at a path, and `None` where there is no file.
    pub fn view(&self, alloc: Global, path: &SharedPath) -> Result<Option<Text>, AllocError>
        requires { IsTrue self.now.live }
        ensures text { IfOk result (λ text. text ≡ view_at self.now.history path.now) }
        // Where there is no file no memory is asked for.
        ensures absent { view_at self.now.history path.now ≡ None → result ≡ Ok None }
    {
        match winner(&self.directory, path) {
            Some(object) => {
                let text = self.texts.object_text(alloc, &object)?;
                Ok(Some(text))
            }
            None => Ok(None),
        }
    }

    /// How many characters the text at a path has, and `None` where there is no file.
    pub fn text_length(&self, path: &SharedPath) -> Option<usize>
        requires { IsTrue self.now.live }
        ensures { result ≡ option_map length (view_at self.now.history path.now) }
    {
        match winner(&self.directory, path) {
            Some(object) => Some(self.texts.object_length(&object)),
            None => None,
        }
    }

    /// The paths at which a file was ever made, removed since or not, each once, in the order of paths.
    pub fn paths(&self, alloc: Global) -> Result<List<SharedPath>, AllocError>
        requires { IsTrue self.now.live }
        ensures { IfOk result (ArePaths self.now.history) }
    {
        self.directory.paths(alloc)
    }

    /// The change that a daemon makes for a delta of the text at a path. A file that is absent is read as the empty text.
    pub fn change_for(
        &self,
        alloc: Global,
        actor: Actor,
        path: &SharedPath,
        d: &Delta,
    ) -> Result<Change, AllocError>
        requires live { IsTrue self.now.live }
        requires base { base_length d.now ≡ length (text_at self.now.history path.now) }
        ensures { IfOk result (λ change. change ≡ made self.now.history actor path.now d.now) }
    {
        if self.graph.count() == usize::MAX {
            return Err(AllocError);
        }
        let own = self.counts.of(&actor);
        let Some(object) = winner(&self.directory, path) else {
            return creating(alloc, &self.graph, own, actor, path, d);
        };
        let Some(text) = self.texts.object(&object) else {
            unreachable!();
        };
        changing(alloc, &self.graph, own, actor, object, text, d)
    }

    /// The change by which a daemon removes the file at a path: each object that is live there.
    pub fn removal_of(
        &self,
        alloc: Global,
        actor: Actor,
        path: &SharedPath,
    ) -> Result<Change, AllocError>
        requires { IsTrue self.now.live }
        ensures { IfOk result (λ change. change ≡ removed self.now.history actor path.now) }
    {
        if self.graph.count() == usize::MAX {
            return Err(AllocError);
        }
        let own = self.counts.of(&actor);
        let objects = self.directory.live(alloc, path)?;
        removing(alloc, &self.graph, own, actor, objects.as_slice())
    }

    /// Adds a change, and answers what it changes in the texts at the paths. Of one that is refused, or held before, nothing stays.
    /// After want of memory the replica is spent.
    pub fn add(&mut self, alloc: Global, change: Change) -> Result<Added, GraphFault>
        requires live { IsTrue self.old.live }
        // `indices_fit` is the test.
        requires few { length (things change.ops) < 2 ^ 64 }
        ensures added { IfOk result (IsAdded self.old.history change self.new.history) }
        ensures refused { IfErr result (IsRefused self.old.history change) }
        ensures same { IfErr result (λ fault. fault ≢ Memory → self.new ≡ self.old) }
        ensures live { OnOk result (IsTrue self.new.live) }
        ensures spent { IfErr result (λ fault. fault ≡ Memory → self.new.live ≡ false) }
    {
        self.live = false;
        let actor = change.actor();
        let encoding = write_change(alloc, &change)?;
        let name = name_of(encoding.as_slice());
        match self.graph.add(alloc, change) {
            Ok(AddNote::Repeat) => {
                self.live = true;
                Ok(Added::Repeat)
            }
            Ok(AddNote::Added) => {
                self.counts.add(actor)?;
                let effects = follow_held(
                    alloc,
                    &self.graph,
                    &mut self.directory,
                    &mut self.texts,
                    &name,
                )?;
                self.live = true;
                Ok(Added::Effects(effects))
            }
            Err(fault) => {
                self.live = !is_memory(&fault);
                Err(fault)
            }
        }
    }
}
