//! Runs of indices over operations. An operation takes its indices for things that are alike, so a run is followed from
//! operation to operation, and never from character to character.
ghost use Rattle.std.specs.Prelude.{◌≡◌, ◌<◌, ◌++◌, ◌||◌, not, List, map, replicate, false};
ghost use Rattle.change_graph.specs.Refusals.{Thing, Character, things_of, things, thing_seen, is_ref};
ghost use Rattle.change_graph.specs.Runs.{thing_in, so_far, told};

use change_codec::{Op, Ref};

/// The ref as it is written by who follows the other one to it.
fn seen_ref(from: Ref, place: Ref) -> Ref
    ensures { Character result ≡ thing_seen from (Character place) }
{
    match from {
        Ref::Here(_) => place,
        Ref::There(name, _) => match place {
            Ref::Here(index) => Ref::There(name, index),
            Ref::There(other, index) => Ref::There(other, index),
        },
    }
}

/// Whether the two are one ref.
fn same_ref(one: Ref, other: Ref) -> bool
    ensures { result ≡ is_ref one other }
{
    match one {
        Ref::Here(index) => match other {
            Ref::Here(at) => index == at,
            Ref::There(_, _) => false,
        },
        Ref::There(name, index) => match other {
            Ref::Here(_) => false,
            Ref::There(change, at) => name.cmp(&change).is_eq() && index == at,
        },
    }
}

/// What stands at the indices that one operation takes.
#[derive(Clone, Copy)]
pub struct Stretch {
    /// The number of indices.
    pub count: u64,
    /// The object whose characters stand there; none where it is an object that stands there.
    pub object: Option<Ref>,
}

impl Stretch {
    /// What the operation takes indices for.
    pub fn of(op: &Op) -> Stretch
        ensures { things_of op.now ≡ replicate result.count (thing_in result.object) }
    {
        match op {
            Op::Make(_) => Stretch {
                count: 1,
                object: None,
            },
            Op::Insert { object, text, .. } => Stretch {
                count: text.len() as u64,
                object: Some(*object),
            },
            Op::Remove(_) | Op::Delete { .. } => Stretch {
                count: 0,
                object: None,
            },
        }
    }

    /// The same as it is seen by who follows the ref to it.
    fn seen_from(self, from: Ref) -> Stretch
        ensures count { result.count ≡ self.count }
        ensures thing { thing_in result.object ≡ thing_seen from (thing_in self.object) }
    {
        match self.object {
            Some(object) => Stretch {
                count: self.count,
                object: Some(seen_ref(from, object)),
            },
            None => self,
        }
    }
}

/// A run of indices, followed up to some operation.
#[derive(Clone, Copy)]
pub struct Scan {
    /// How many indices are still to be passed before the run begins.
    pub skip: u64,
    /// How many indices of the run are still to be found.
    pub left: u64,
    /// Whether there are objects among what was found.
    pub objects: bool,
    /// Whether there are characters of another object than that which is asked for.
    pub others: bool,
}

impl Scan {
    /// Whether there is a character of another object than the first, once one of the second was found.
    fn finds_other(&self, object: Ref, other: Ref) -> bool
        ensures { result ≡ (self.now.others || not (is_ref object other)) }
    {
        self.others || !same_ref(object, other)
    }

    /// The same run past one operation more.
    fn passed(self, stretch: Stretch, object: Ref) -> Scan
        requires { 0 < self.left }
        ensures { (rest : List Thing) → told object result rest ≡ told object self (replicate stretch.count (thing_in stretch.object) ++ rest) }
    {
        if stretch.count <= self.skip {
            return Scan {
                skip: self.skip - stretch.count,
                ..self
            };
        }
        let left = self.left.saturating_sub(stretch.count - self.skip);
        match stretch.object {
            None => Scan {
                skip: 0,
                left,
                objects: true,
                others: self.others,
            },
            Some(other) => Scan {
                skip: 0,
                left,
                objects: self.objects,
                others: self.finds_other(object, other),
            },
        }
    }
}

/// Follows a run of so many indices over the operations, behind so many indices that are skipped.
pub fn scan_run(ops: &[Op], skip: u64, count: u64, from: Ref, object: Ref) -> Scan
    ensures { so_far result
        ≡ told object (record { skip = skip; left = count; objects = false; others = false }) (map (thing_seen from) (things ops.now)) }
{
    let mut scan = Scan {
        skip,
        left: count,
        objects: false,
        others: false,
    };
    for op in ops {
        if scan.left == 0 {
            return scan;
        }
        scan = scan.passed(Stretch::of(op).seen_from(from), object);
    }
    scan
}
