//! Changes of a history that holds nothing. Those of a history that holds some are tried where it is kept.
ghost use Rattle.std.specs.Prelude.{◌≡◌};
ghost use Rattle.delta.specs.Cells.{base_length};

use super::*;
use change_codec::{Change, Op, Parent, Ref};
use change_graph::Graph;
use delta::{Delta, replace_all};
use replica_text::{ListElements, ReplicaText};
use std::alloc::{AllocError, Global};
use std::process::Abort;
use std::test::Fail;
use tt_base::{Actor, ElemId, Name, SharedPath, Text};

const ACTOR: Actor = Actor([7; 16]);

/// What a change of another daemon made.
const OBJECT: ElemId = ElemId {
    depth: 1,
    actor: Actor([3; 16]),
    name: Name([5; 32]),
    index: 4,
};

/// The change that makes a file.
#[tactic(auto, using(crate::proofs::TestLemmas::none_grown, crate::proofs::TestLemmas::none_made, crate::proofs::TestLemmas::none_read, crate::proofs::TestLemmas::none_held))]
fn create(alloc: Global, path: &SharedPath, d: &Delta) -> Result<Change, AllocError>
    requires { base_length d.now ≡ 0 }
{
    let graph = Graph::new(alloc);
    creating(alloc, &graph, 0, ACTOR, path, d)
}

/// The change that types into a file of which nothing is held.
#[tactic(auto, using(crate::proofs::TestLemmas::none_grown, crate::proofs::TestLemmas::none_made, crate::proofs::TestLemmas::none_there, crate::proofs::TestLemmas::none_visible, crate::proofs::TestLemmas::none_held))]
fn change(alloc: Global, d: &Delta) -> Result<Change, AllocError>
    requires { base_length d.now ≡ 0 }
{
    let graph = Graph::new(alloc);
    let text: ReplicaText<ListElements> = ReplicaText::new(alloc)?;
    changing(alloc, &graph, 0, ACTOR, OBJECT, &text, d)
}

/// The change that removes objects of which nothing is held.
#[tactic(auto, using(crate::proofs::TestLemmas::none_grown, crate::proofs::TestLemmas::none_made, crate::proofs::TestLemmas::none_held))]
fn remove(alloc: Global, objects: &[ElemId]) -> Result<Change, AllocError> {
    let graph = Graph::new(alloc);
    removing(alloc, &graph, 0, ACTOR, objects)
}

/// The operations of the change are these, and it is its daemon's first.
fn does(rt: &impl Abort, change: &Change, ops: &[Op]) {
    assert_eq!(rt; change.seq(), 1);
    assert!(rt; change.deps().is_empty());
    assert_eq!(rt; change.ops(), ops);
}

/// A text of 2,200 characters.
fn long(alloc: Global) -> Result<Text, AllocError> {
    let text = "0123456789é".repeat(alloc, 200)?;
    Text::from_str(alloc, text.as_str())
}

/// The long text is typed into an object.
fn typed(alloc: Global, object: Ref) -> Result<Op, AllocError> {
    let text = long(alloc)?;
    Ok(Op::Insert {
        object,
        parent: Parent::Root,
        text,
    })
}

/// The delta of the empty text that types the long one.
fn typing(alloc: Global) -> Result<Delta, AllocError> {
    replace_all(alloc, 0, &long(alloc)?)
}

#[test]
fn a_file_is_made(rt: HostRuntime) -> Result<(), Fail> {
    let path = SharedPath::read(rt.alloc(), "notes/a.txt")?;
    let delta = typing(rt.alloc())?;
    assert_eq!(rt; delta.base_length(), 0);
    let change = create(rt.alloc(), &path, &delta)?;
    does(
        &rt,
        &change,
        &[Op::Make(path), typed(rt.alloc(), Ref::Here(0))?],
    );
    Ok(())
}

#[test]
fn a_text_is_typed(rt: HostRuntime) -> Result<(), Fail> {
    let delta = typing(rt.alloc())?;
    assert_eq!(rt; delta.base_length(), 0);
    let change = change(rt.alloc(), &delta)?;
    let object = Ref::There(OBJECT.name, OBJECT.index);
    does(&rt, &change, &[typed(rt.alloc(), object)?]);
    Ok(())
}

#[test]
fn objects_are_removed(rt: HostRuntime) -> Result<(), Fail> {
    let mut objects = Vec::new(rt.alloc());
    let mut ops = Vec::new(rt.alloc());
    for index in 0..40 {
        objects.push(ElemId { index, ..OBJECT })?;
        ops.push(Op::Remove(Ref::There(OBJECT.name, index)))?;
    }
    let change = remove(rt.alloc(), objects.as_slice())?;
    does(&rt, &change, ops.as_slice());
    Ok(())
}
