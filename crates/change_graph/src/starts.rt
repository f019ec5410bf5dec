//! Where the indices of each operation of a change begin, so that an index is found without a pass over the operations.
ghost use Rattle.std.specs.Prelude.{◌≡◌, ◌≤◌, [], IfOk, List, length, map, take, false};
ghost use Rattle.change_codec.specs.declared.ops.Op as spec;
ghost use Rattle.change_graph.specs.Refusals.{things, thing_seen};
ghost use Rattle.change_graph.specs.Runs.{so_far, told};
ghost use Rattle.change_graph.specs.Starts.{AreStarts, IsLanding};

use crate::runs::{Scan, Stretch, scan_run};
use change_codec::{Op, Ref};
use std::alloc::{AllocError, Global};
use tt_base::List;

/// The index at which each operation begins, for as many of the first operations as u64 counts.
pub fn starts_of(alloc: Global, ops: &[Op]) -> Result<List<u64>, AllocError>
    ensures { IfOk result (λ starts. AreStarts ops.now starts) }
{
    let mut starts = Vec::new(alloc);
    let mut start: u64 = 0;
    for op in ops {
        starts.push(start)?;
        match start.checked_add(Stretch::of(op).count) {
            Some(next) => start = next,
            None => return Ok(List::from_vec(starts)),
        }
    }
    Ok(List::from_vec(starts))
}

/// An operation, and the index at which it begins.
#[derive(Clone, Copy)]
pub struct Landing {
    pub place: usize,
    pub start: u64,
}

/// The last operation that begins at the index or before it.
pub fn landing_at(starts: &[u64], index: u64) -> Landing
    ensures { (ops : List spec.Op) → AreStarts ops starts.now → IsLanding ops index result }
{
    let before = starts.partition_point(|start| *start <= index);
    match before.checked_sub(1) {
        Some(place) => Landing {
            place,
            start: starts[place],
        },
        None => Landing { place: 0, start: 0 },
    }
}

/// Operations, and where the indices of each begin.
#[derive(Clone, Copy)]
pub struct Indexed<'a> {
    pub ops: &'a [Op],
    /// As far as u64 counts.
    pub starts: &'a [u64],
    ghost exact: { AreStarts ops.now starts.now },
}

impl<'a> Indexed<'a> {
    /// No operations.
    pub fn none() -> Indexed<'a>
        ensures { result.ops.now ≡ [] }
    {
        Indexed {
            ops: &[],
            starts: &[],
        }
    }

    /// Those before this place.
    pub fn before(&self, place: usize) -> Indexed<'a>
        requires { place ≤ length self.now.ops.now }
        ensures { result.ops.now ≡ take place self.now.ops.now }
    {
        Indexed {
            ops: &self.ops[..place],
            starts: &self.starts[..place.min(self.starts.len())],
        }
    }

    /// Follows the run of so many indices behind so many that are skipped.
    pub fn scan(&self, skip: u64, count: u64, from: Ref, object: Ref) -> Scan
        ensures { so_far result
            ≡ told object (record { skip = skip; left = count; objects = false; others = false }) (map (thing_seen from) (things self.now.ops.now)) }
    {
        let landing = landing_at(self.starts, skip);
        let behind = &self.ops[landing.place..];
        scan_run(behind, skip - landing.start, count, from, object)
    }
}
