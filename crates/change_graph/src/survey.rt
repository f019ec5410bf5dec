//! Which operation of a new change is refused first, and why.
ghost use Rattle.std.specs.Prelude.{◌≡◌, ◌+◌, ◌^◌, ◌≤◌, ◌==◌, ◌&&◌, nat_le, false, [], length, take, IfOk, if◌then◌else◌};
ghost use Rattle.change_graph.specs.Refusals as spec;
ghost use Rattle.change_graph.specs.Refusals.{things_within, ops_within, fault_at};
ghost use Rattle.change_graph.specs.Walk.{is_known};
ghost use Rattle.change_graph.specs.Survey.{IsSurveyed, scope_of, sight_at};

use crate::causes::{Cause, OpFault};
use crate::nodes::Nodes;
use crate::places::Place;
use crate::starts::{Indexed, starts_of};
use change_codec::{Change, Op, Parent, Ref};
use std::alloc::{AllocError, Global};
use std::collections::BTreeSet;
use tt_base::Name;

/// What is seen at the indices of a run.
#[derive(Clone, Copy)]
pub struct Sight {
    /// Whether the indices fit u64, and something stands at each.
    pub whole: bool,
    /// Whether there are objects among them.
    pub objects: bool,
    /// Whether there are characters of another object than that which is asked for.
    pub others: bool,
}

fn index_of(place: Ref) -> u64
    ensures { result ≡ spec.index_of place }
{
    match place {
        Ref::Here(index) => index,
        Ref::There(_, index) => index,
    }
}

/// Whether so many indices fit u64, and none is left of them.
fn is_whole(index: u64, count: u64, left: u64) -> bool
    ensures { result ≡ (nat_le (index + count) (2 ^ 64) && (left == 0)) }
{
    count.saturating_sub(1) <= u64::MAX - index && left == 0
}

/// What an operation of a new change may speak of.
#[derive(Drop)]
struct Survey<'a> {
    nodes: &'a Nodes,
    /// What of it is not in the closure of the dependencies.
    outside: &'a BTreeSet<Place>,
    /// The operations before.
    earlier: Indexed<'a>,
}

impl<'a> Survey<'a> {
    /// The same for the operation at this place.
    fn before(&self, place: usize) -> Survey<'a>
        requires { place ≤ length self.now.earlier.ops.now }
        ensures nodes { result.nodes.now ≡ self.now.nodes.now }
        ensures outside { result.outside.now.keys ≡ self.now.outside.now.keys }
        ensures earlier { result.earlier.ops.now ≡ take place self.now.earlier.ops.now }
    {
        Survey {
            nodes: self.nodes,
            outside: self.outside,
            earlier: self.earlier.before(place),
        }
    }

    /// Whether the change is in the closure of the dependencies.
    fn knows(&self, name: &Name) -> bool
        ensures { result ≡ is_known self.now.nodes.now self.now.outside.now.keys name.now }
    {
        match self.nodes.depth(name) {
            Some(depth) => !self.outside.contains(&Place { depth, name: *name }),
            None => false,
        }
    }

    /// The operations among whose indices the ref counts: none of a change that is not known.
    fn within(&self, place: Ref) -> Indexed<'_>
        ensures { result.ops.now ≡ ops_within (scope_of self.now.nodes.now self.now.outside.now.keys self.now.earlier.ops.now) place }
    {
        match place {
            Ref::Here(_) => self.earlier,
            Ref::There(name, _) => {
                if self.knows(&name) {
                    self.nodes.indexed(&name)
                } else {
                    Indexed::none()
                }
            }
        }
    }

    /// What is seen at so many indices from the ref's on.
    fn look(&self, place: Ref, count: u64, object: Ref) -> Sight
        ensures { result ≡ sight_at (things_within (scope_of self.now.nodes.now self.now.outside.now.keys self.now.earlier.ops.now)) object place count }
    {
        let scan = self
            .within(place)
            .scan(index_of(place), count, place, object);
        Sight {
            whole: is_whole(index_of(place), count, scan.left),
            objects: scan.objects,
            others: scan.others,
        }
    }

    /// Why an operation is refused that names an object.
    fn object_fault(&self, object: Ref) -> Option<Cause>
        ensures { result ≡ spec.object_fault (things_within (scope_of self.now.nodes.now self.now.outside.now.keys self.now.earlier.ops.now)) object }
    {
        let made = self.look(object, 1, object);
        if !made.whole {
            return Some(Cause::OutsideRef);
        }
        if !made.objects {
            return Some(Cause::NotAMake);
        }
        None
    }

    /// Why one is refused that also names characters of it.
    fn characters_fault(&self, object: Ref, first: Ref, count: u64) -> Option<Cause>
        ensures { result
            ≡ spec.characters_fault (things_within (scope_of self.now.nodes.now self.now.outside.now.keys self.now.earlier.ops.now)) object first count }
    {
        let made = self.look(object, 1, object);
        let run = self.look(first, count, object);
        if !made.whole || !run.whole {
            return Some(Cause::OutsideRef);
        }
        if !made.objects {
            return Some(Cause::NotAMake);
        }
        if run.objects {
            return Some(Cause::NotAnElement);
        }
        if run.others {
            return Some(Cause::OtherObject);
        }
        None
    }

    /// Why the operation is refused.
    fn op_fault(&self, op: &Op) -> Option<Cause>
        ensures { result ≡ spec.op_fault (things_within (scope_of self.now.nodes.now self.now.outside.now.keys self.now.earlier.ops.now)) op.now }
    {
        match op {
            Op::Make(_) => None,
            Op::Remove(object) => self.object_fault(*object),
            Op::Insert { object, parent, .. } => match parent {
                Parent::Root => self.object_fault(*object),
                Parent::After(place) => self.characters_fault(*object, *place, 1),
            },
            Op::Delete {
                object,
                first,
                count,
            } => self.characters_fault(*object, *first, *count),
        }
    }
}

/// The first operation of a new change that is refused, where the changes that are held are in the closure of its
/// dependencies but for those at the places `outside`. Memory is asked for as the operations are many.
pub fn first_fault<'a>(
    alloc: Global,
    nodes: &'a Nodes,
    outside: &'a BTreeSet<Place>,
    change: &'a Change,
) -> Result<Option<OpFault>, AllocError>
    ensures { IfOk result (IsSurveyed (fault_at nodes.now.history (is_known nodes.now outside.now.keys) change.now.ops)) }
{
    let ops = change.ops();
    let starts = starts_of(alloc, ops)?;
    let survey = Survey {
        nodes,
        outside,
        earlier: Indexed {
            ops,
            starts: starts.as_slice(),
        },
    };
    for (place, op) in ops.iter().enumerate() {
        if let Some(cause) = survey.before(place).op_fault(op) {
            return Ok(Some(OpFault { place, cause }));
        }
    }
    Ok(None)
}
