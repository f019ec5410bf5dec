ghost use Rattle.std.specs.Prelude.{◌≡◌, ◌↔◌, ℕ, List, [], true, false, IsTrue, IfOk, OnOk, OnErr, if◌then◌else◌};
ghost use Rattle.std.specs.List.Sorted.{IsStrictlySortedBy};
ghost use Rattle.std.specs.Ordering.{nat_cmp};
ghost use Rattle.std.specs.Cmp.Lexicographic.{slice_cmp};
ghost use Rattle.tt_base.specs.Ids.{id_cmp};
ghost use Rattle.tt_base.specs.declared.ids.ElemId.{ElemId};
ghost use Rattle.replica_dir.specs.Ids.{is_id, is_path, has_id, has_path};
ghost use Rattle.replica_dir.specs.DirectoryView.{is_made, is_removed, is_live, IsWinner};

use crate::id_sets::IdSet;
use std::alloc::{AllocError, Global};
use std::collections::BTreeMap;
use std::marker::Model;
use tt_base::{ElemId, List, SharedPath};

/// The objects that were made and removed at the paths of a shared directory.
///
/// It is seen as the set of the makes and the set of the removes that it was told.
#[derive(Debug, Drop)]
pub struct Directory {
    makes: BTreeMap<SharedPath, IdSet>,
    removes: IdSet,
}

impl Model for Directory {
    ghost use Rattle.replica_dir.specs.DirectoryView.{DirectoryView, HasNoEmptyPath};

    ghost Value = { DirectoryView };

    ghost view = { λ d. record { makes = d.makes.entries; removes = d.removes } };

    ghost invariant = { λ d. HasNoEmptyPath d.makes.entries };
}

impl Directory {
    /// The directory with no makes and no removes.
    pub fn new(alloc: Global) -> Result<Directory, AllocError>
        ensures makes { IfOk result (λ directory. directory.makes ≡ []) }
        ensures removes { IfOk result (λ directory. directory.removes ≡ []) }
    {
        Ok(Directory {
            makes: BTreeMap::new(alloc),
            removes: IdSet::empty(alloc),
        })
    }

    /// Adds that the object was made at the path. After want of memory the directory is as before.
    pub fn made(&mut self, alloc: Global, path: &SharedPath, id: ElemId) -> Result<(), AllocError>
        // At this path the object was made now, and at each path those that were made before.
        ensures makes { OnOk result ((at : List ℕ) (q : ElemId) → is_made self.new at q
            ≡ (if is_path path.now at then (if is_id id q then true else is_made self.old at q) else is_made self.old at q)) }
        ensures removes { self.new.removes ≡ self.old.removes }
        ensures err { OnErr result (self.new ≡ self.old) }
    {
        match self.makes.get_mut(path) {
            Some(ids) => ids.insert(id),
            None => {
                let mut ids = IdSet::empty(alloc);
                ids.insert(id)?;
                let key = path.copied(alloc)?;
                self.makes.insert(key, ids)?;
                Ok(())
            }
        }
    }

    /// Adds that the object was removed, whether or not its make has come. After want of memory the
    /// directory is as before.
    pub fn removed(&mut self, _alloc: Global, id: &ElemId) -> Result<(), AllocError>
        ensures removes { OnOk result ((q : ElemId) → is_removed self.new q
            ≡ (if is_id id.now q then true else is_removed self.old q)) }
        ensures makes { self.new.makes ≡ self.old.makes }
        ensures err { OnErr result (self.new ≡ self.old) }
    {
        self.removes.insert(*id)
    }

    /// The greatest object that was made at the path and not removed, and `None` exactly where there is none.
    pub fn winner(&self, path: &SharedPath) -> Option<ElemId>
        ensures { IsWinner self.now path.now result }
    {
        match self.makes.get(path) {
            Some(ids) => ids.greatest_outside(&self.removes),
            None => None,
        }
    }

    /// The objects that were made at the path and not removed, each once, in rising order of their ids.
    pub fn live(&self, alloc: Global, path: &SharedPath) -> Result<List<ElemId>, AllocError>
        ensures members { IfOk result (λ list. (q : ElemId) → has_id list q ≡ is_live self.now path.now q) }
        ensures rising { IfOk result (λ list. IsStrictlySortedBy id_cmp list) }
    {
        match self.makes.get(path) {
            Some(ids) => ids.outside(alloc, &self.removes),
            None => List::empty(alloc),
        }
    }

    /// The paths at which an object was ever made, removed since or not, each once, in the order of paths.
    pub fn paths(&self, alloc: Global) -> Result<List<SharedPath>, AllocError>
        ensures members { IfOk result (λ list. (at : List ℕ) → IsTrue (has_path list at) ↔ ((q : ElemId) × IsTrue (is_made self.now at q))) }
        ensures rising { IfOk result (λ list. IsStrictlySortedBy (slice_cmp nat_cmp) list) }
    {
        let mut paths = Vec::new(alloc);
        for path in self.makes.keys() {
            paths.push(path.copied(alloc)?)?;
        }
        Ok(List::from_vec(paths))
    }
}
