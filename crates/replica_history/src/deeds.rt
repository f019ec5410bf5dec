ghost use Rattle.std.specs.Prelude.{◌≡◌, ◌+◌, ◌++◌, ◌∷◌, ◌<◌, ◌^◌, [], flat_map, length, IfOk, OnOk};
ghost use Rattle.std.specs.List.{All};
ghost use Rattle.tt_base.specs.declared.ids.ElemId.{ElemId};
ghost use Rattle.change_graph.specs.Refusals.{things, things_of};
ghost use Rattle.replica_views.specs.Growth.{IsGrown};
ghost use Rattle.replica_views.specs.Ids.{id_at};
ghost use Rattle.replica_views.specs.Objects.{removes_of};
ghost use Rattle.replica_views.specs.Texts.{text_op, text_ops};
ghost use Rattle.replica_history.specs.Deeds.{RefsAreHeld, made_of, made_from, object_of, objects_from};
ghost use Rattle.replica_history.specs.Groups.{group_at};

use crate::groups::Groups;
use crate::ids::{parent_id, pointed_id};
use change_codec::Op;
use change_graph::Graph;
use std::alloc::{AllocError, Global};
use tt_base::{ElemId, List, SharedPath, TextOp};

/// An object that is made, and its path.
#[derive(Debug, Drop)]
pub(crate) struct Made {
    pub(crate) object: ElemId,
    pub(crate) path: SharedPath,
}

/// What a change does, told by ids: the objects that it makes, those that it removes, all that it touches, and the operations on
/// each text.
#[derive(Debug, Drop)]
pub(crate) struct Deeds {
    pub(crate) makes: List<Made>,
    pub(crate) removes: List<ElemId>,
    pub(crate) objects: List<ElemId>,
    pub(crate) groups: Groups,
}

/// How many indices the operation takes.
pub(crate) fn indices_of(op: &Op) -> u64
    ensures { result ≡ length (things_of op.now) }
{
    match op {
        Op::Make(_) => 1,
        Op::Remove(_) => 0,
        Op::Insert { text, .. } => text.len() as u64,
        Op::Delete { .. } => 0,
    }
}

impl Deeds {
    /// Nothing is done.
    fn none(alloc: Global) -> Deeds
        ensures makes { result.makes ≡ [] }
        ensures removes { result.removes ≡ [] }
        ensures objects { result.objects ≡ [] }
        ensures groups { result.groups ≡ [] }
    {
        Deeds {
            makes: List::from_vec(Vec::new(alloc)),
            removes: List::from_vec(Vec::new(alloc)),
            objects: List::from_vec(Vec::new(alloc)),
            groups: Groups::empty(alloc),
        }
    }

    /// Adds what an operation does at an index of the change whose first id is `own`.
    fn add(
        &mut self,
        alloc: Global,
        graph: &Graph,
        own: &ElemId,
        index: u64,
        op: &Op,
    ) -> Result<(), AllocError>
        requires grown { IsGrown graph.now }
        requires own { own.now ≡ id_at graph.now own.now.name 0 }
        requires refs { RefsAreHeld graph.now op.now }
        ensures makes { OnOk result (self.new.makes ≡ self.old.makes ++ made_of graph.now own.now.name index op.now) }
        ensures removes { OnOk result (self.new.removes ≡ self.old.removes ++ removes_of graph.now own.now.name op.now) }
        ensures objects { OnOk result (self.new.objects ≡ self.old.objects ++ object_of graph.now own.now.name index op.now ∷ []) }
        ensures groups { OnOk result ((q : ElemId) → group_at self.new.groups q
            ≡ group_at self.old.groups q ++ text_op graph.now own.now.name q index op.now) }
    {
        match op {
            Op::Make(path) => {
                let object = ElemId { index, ..*own };
                let path = path.copied(alloc)?;
                self.makes.push(alloc, Made { object, path })?;
                self.objects.push(alloc, object)?;
                Ok(())
            }
            Op::Remove(object) => {
                let object = pointed_id(graph, own, object);
                self.removes.push(alloc, object)?;
                self.objects.push(alloc, object)?;
                Ok(())
            }
            Op::Insert {
                object,
                parent,
                text,
            } => {
                let object = pointed_id(graph, own, object);
                let parent = parent_id(graph, own, parent);
                let first = ElemId { index, ..*own };
                let text = text.copied(alloc)?;
                let op = TextOp::Insert {
                    first,
                    parent,
                    text,
                };
                self.groups.push(alloc, object, op)?;
                self.objects.push(alloc, object)?;
                Ok(())
            }
            Op::Delete {
                object,
                first,
                count,
            } => {
                let object = pointed_id(graph, own, object);
                let first = pointed_id(graph, own, first);
                let op = TextOp::Delete {
                    first,
                    count: *count,
                };
                self.groups.push(alloc, object, op)?;
                self.objects.push(alloc, object)?;
                Ok(())
            }
        }
    }
}

/// What the operations of the change do whose first id is `own`.
pub(crate) fn deeds_of(
    alloc: Global,
    graph: &Graph,
    own: &ElemId,
    ops: &[Op],
) -> Result<Deeds, AllocError>
    requires grown { IsGrown graph.now }
    requires own { own.now ≡ id_at graph.now own.now.name 0 }
    requires refs { All (RefsAreHeld graph.now) ops.now }
    requires few { length (things ops.now) < 2 ^ 64 }
    ensures makes { IfOk result (λ deeds. deeds.makes ≡ made_from graph.now own.now.name 0 ops.now) }
    ensures removes { IfOk result (λ deeds. deeds.removes ≡ flat_map (removes_of graph.now own.now.name) ops.now) }
    ensures objects { IfOk result (λ deeds. deeds.objects ≡ objects_from graph.now own.now.name 0 ops.now) }
    ensures groups { IfOk result (λ deeds. (q : ElemId) → group_at deeds.groups q ≡ text_ops graph.now own.now.name q 0 ops.now) }
{
    let mut deeds = Deeds::none(alloc);
    let mut index: u64 = 0;
    for op in ops {
        deeds.add(alloc, graph, own, index, op)?;
        index += indices_of(op);
    }
    Ok(deeds)
}
