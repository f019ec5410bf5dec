ghost use Rattle.std.specs.Prelude.{◌≡◌, ◌<◌, ◌^◌, [], length, OnOk, OnErr, option_copied};
ghost use Rattle.std.specs.Map.{lookup, keys_of};
ghost use Rattle.std.specs.BTreeMap.{insert_entry};
ghost use Rattle.std.specs.List.Sorted.{IsStrictlySortedBy};
ghost use Rattle.tt_base.specs.Ids.{name_cmp};
ghost use Rattle.change_graph.specs.History.{is_name, change_at, is_held, ops_at};
ghost use Rattle.change_graph.specs.Starts.{AreStarts};

use crate::starts::{Indexed, starts_of};
use change_codec::Change;
use std::alloc::{AllocError, Global};
use std::collections::BTreeMap;
use std::marker::Model;
use tt_base::{List, Name};

/// A held change, and beside it its depth and where the indices of each of its operations begin.
#[derive(Debug, Drop)]
struct Node {
    change: Change,
    depth: u64,
    starts: List<u64>,
    ghost exact: { AreStarts change.ops starts },
}

/// The held changes, by their names.
#[derive(Debug, Drop)]
pub struct Nodes {
    by_name: BTreeMap<Name, Node>,
}

impl Model for Nodes {
    ghost use Rattle.std.specs.Prelude.{map};
    ghost use Rattle.change_graph.specs.Nodes.{NodesView};

    ghost Value = { NodesView };

    ghost view = { λ n. record {
      history = map (λ e. (e.0, e.1.change)) n.by_name.entries;
      depths = map (λ e. (e.0, e.1.depth)) n.by_name.entries;
    } };
}

impl Nodes {
    /// No changes.
    pub fn empty(alloc: Global) -> Nodes
        ensures { result ≡ record { history = []; depths = [] } }
    {
        Nodes {
            by_name: BTreeMap::new(alloc),
        }
    }

    /// The number of changes.
    pub fn count(&self) -> usize
        ensures count { result ≡ length self.now.history }
        ensures small { result < 2 ^ 63 }
    {
        self.by_name.len()
    }

    /// Whether there is a change with this name.
    pub fn holds(&self, name: &Name) -> bool
        ensures { result ≡ is_held self.now.history name.now }
    {
        self.by_name.contains_key(name)
    }

    /// The change with this name.
    pub fn change(&self, name: &Name) -> Option<&Change>
        ensures { option_copied result ≡ change_at self.now.history name.now }
    {
        match self.by_name.get(name) {
            Some(node) => Some(&node.change),
            None => None,
        }
    }

    /// The operations of the change with this name, and none where there is no such change.
    pub fn indexed(&self, name: &Name) -> Indexed<'_>
        ensures { result.ops.now ≡ ops_at self.now.history name.now }
    {
        let Some(node) = self.by_name.get(name) else {
            return Indexed::none();
        };
        Indexed {
            ops: node.change.ops(),
            starts: node.starts.as_slice(),
        }
    }

    /// The depth that was given with the change.
    pub fn depth(&self, name: &Name) -> Option<u64>
        ensures { result ≡ lookup (is_name name.now) self.now.depths }
    {
        match self.by_name.get(name) {
            Some(node) => Some(node.depth),
            None => None,
        }
    }

    /// Puts a change in. After want of memory all is as before.
    pub fn insert(
        &mut self,
        alloc: Global,
        name: Name,
        change: Change,
        depth: u64,
    ) -> Result<(), AllocError>
        ensures ok { OnOk result (self.new ≡ record {
          history = insert_entry name_cmp self.old.history name change;
          depths = insert_entry name_cmp self.old.depths name depth;
        }) }
        ensures rising { OnOk result (IsStrictlySortedBy name_cmp (keys_of self.new.history)) }
        ensures err { OnErr result (self.new ≡ self.old) }
    {
        let starts = starts_of(alloc, change.ops())?;
        let node = Node {
            change,
            depth,
            starts,
        };
        self.by_name.insert(name, node)?;
        Ok(())
    }
}
