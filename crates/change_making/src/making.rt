//! A change for a delta.

ghost use Rattle.std.specs.Prelude.{◌≡◌, ◌<◌, ◌^◌, ◌-◌, ◌++◌, ℕ, List, Some, None, map, length, IfOk, OnOk};
ghost use Rattle.std.specs.List.{AllByRecursion, count_by};
ghost use Rattle.delta.specs.Cells.{base_length};
ghost use Rattle.tt_base.specs.Elements.{is_alive};
ghost use Rattle.change_codec.specs.Encoding.{ref_field, op_field};
ghost use Rattle.replica_text.specs.Made.{made_ops, IsAbove};
ghost use Rattle.replica_views.specs.Growth.{IsGrown};
ghost use Rattle.replica_views.specs.Made as made;
ghost use Rattle.replica_views.specs.Objects.{live_at, winner_at};
ghost use Rattle.replica_views.specs.Texts.{elements_of};

use crate::writing::{actor_length, new_object, push_removals, push_written, ref_to};
use change_codec::{Change, Op, Ref};
use change_graph::Graph;
use delta::Delta;
use replica_text::{ListElements, ReplicaText};
use std::alloc::{AllocError, Global};
use tt_base::{Actor, ElemId, Elements, List, Name, SharedPath};

/// An actor's next change, which knows all that is held.
fn own_change(
    alloc: Global,
    graph: &Graph,
    own: u64,
    actor: Actor,
    ops: Vec<Op>,
) -> Result<Change, AllocError>
    requires grown { IsGrown graph.now }
    requires own { own ≡ count_by (made.is_made_by actor) graph.now }
    requires room { length graph.now < 2 ^ 64 - 1 }
    requires ops { AllByRecursion op_field.Fits ops.items }
    ensures { IfOk result (λ change. change ≡ made.own_change graph.now actor ops.items) }
{
    let deps = graph.heads(alloc)?;
    let listed = List::from_vec(ops);
    let _lengths = (deps.len(), listed.len(), actor_length(&actor.0));
    Ok(Change::new(actor, own + 1, deps, listed))
}

/// The operations that make a delta of a text, on an object, behind those that are there.
///
/// New characters are named by their place in the change, so the id is only asked to be above all of the text.
fn push_delta<E: Elements>(
    alloc: Global,
    object: Ref,
    text: &ReplicaText<E>,
    d: &Delta,
    above: ElemId,
    ops: &mut Vec<Op>,
) -> Result<(), AllocError>
    requires object { ref_field.Fits object }
    requires base { base_length d.now ≡ count_by is_alive text.now }
    requires above { IsAbove above text.now }
    requires first { above.index ≡ 0 }
    ensures ops { OnOk result (ops.new.items ≡ ops.old.items ++ map (made.written_op object) (made_ops text.now d.now above)) }
    ensures fit { OnOk result (AllByRecursion op_field.Fits (map (made.written_op object) (made_ops text.now d.now above))) }
{
    let _length = d.result_length();
    let text_ops = text.ops_of(alloc, d, above)?;
    push_written(alloc, object, text_ops.as_slice(), ops)
}

/// An id that is above all that a history of so many changes has named.
fn id_above(count: usize, actor: Actor) -> ElemId
    requires { count < 2 ^ 64 - 1 }
    ensures deep { count < result.depth }
    ensures first { result.index ≡ 0 }
{
    ElemId {
        depth: count as u64 + 1,
        actor,
        name: Name([0; 32]),
        index: 0,
    }
}

/// The change that an actor makes for a delta of the text of an object. It is the one for a path where the object is read.
pub fn changing<E: Elements>(
    alloc: Global,
    graph: &Graph,
    own: u64,
    actor: Actor,
    object: ElemId,
    text: &ReplicaText<E>,
    d: &Delta,
) -> Result<Change, AllocError>
    requires grown { IsGrown graph.now }
    requires own { own ≡ count_by (made.is_made_by actor) graph.now }
    requires text { text.now ≡ elements_of graph.now object }
    requires base { base_length d.now ≡ count_by is_alive text.now }
    requires room { length graph.now < 2 ^ 64 - 1 }
    ensures { IfOk result (λ change. (path : List ℕ) → winner_at graph.now path ≡ Some object → change ≡ made.made graph.now actor path d.now) }
{
    let mut ops = Vec::new(alloc);
    let above = id_above(graph.count(), actor);
    push_delta(alloc, ref_to(object), text, d, above, &mut ops)?;
    own_change(alloc, graph, own, actor, ops)
}

/// The change that an actor makes for a delta of the empty text at a path where there is no file: it makes the file first.
pub fn creating(
    alloc: Global,
    graph: &Graph,
    own: u64,
    actor: Actor,
    path: &SharedPath,
    d: &Delta,
) -> Result<Change, AllocError>
    requires grown { IsGrown graph.now }
    requires own { own ≡ count_by (made.is_made_by actor) graph.now }
    requires absent { winner_at graph.now path.now ≡ None }
    requires base { base_length d.now ≡ 0 }
    requires room { length graph.now < 2 ^ 64 - 1 }
    ensures { IfOk result (λ change. change ≡ made.made graph.now actor path.now d.now) }
{
    let text: ReplicaText<ListElements> = ReplicaText::new(alloc)?;
    let mut ops = Vec::new(alloc);
    ops.push(new_object(alloc, path)?)?;
    let above = id_above(graph.count(), actor);
    push_delta(alloc, Ref::Here(0), &text, d, above, &mut ops)?;
    own_change(alloc, graph, own, actor, ops)
}

/// The change by which an actor removes objects. Where they are the live ones of a path, in rising order, it removes the file there.
pub fn removing(
    alloc: Global,
    graph: &Graph,
    own: u64,
    actor: Actor,
    objects: &[ElemId],
) -> Result<Change, AllocError>
    requires grown { IsGrown graph.now }
    requires own { own ≡ count_by (made.is_made_by actor) graph.now }
    requires room { length graph.now < 2 ^ 64 - 1 }
    ensures { IfOk result (λ change. (path : List ℕ) → objects.now ≡ made.rising_ids (live_at graph.now path) → change ≡ made.removed graph.now actor path) }
{
    let mut ops = Vec::new(alloc);
    push_removals(objects, &mut ops)?;
    own_change(alloc, graph, own, actor, ops)
}
