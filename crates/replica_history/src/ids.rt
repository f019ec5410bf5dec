ghost use Rattle.std.specs.Prelude.{◌≡◌, true};
ghost use Rattle.change_graph.specs.History.{is_held};
ghost use Rattle.replica_views.specs.Growth.{IsGrown};
ghost use Rattle.replica_views.specs.Ids.{id_at, id_of};
ghost use Rattle.replica_views.specs.Texts.{parent_of};
ghost use Rattle.replica_history.specs.Deeds.{PointsAtHeld, ParentIsHeld};

use change_codec::{Parent, Ref};
use change_graph::Graph;
use tt_base::{ElemId, Name};

/// What a held change made at an index.
pub(crate) fn held_id(graph: &Graph, name: &Name, index: u64) -> ElemId
    requires grown { IsGrown graph.now }
    requires held { is_held graph.now name.now ≡ true }
    ensures { result ≡ id_at graph.now name.now index }
{
    let Some(depth) = graph.depth(name) else {
        unreachable!();
    };
    let Some(change) = graph.change(name) else {
        unreachable!();
    };
    ElemId {
        depth,
        actor: change.actor(),
        name: *name,
        index,
    }
}

/// What a ref points at that stands in the change whose first id is `own`.
pub(crate) fn pointed_id(graph: &Graph, own: &ElemId, place: &Ref) -> ElemId
    requires grown { IsGrown graph.now }
    requires own { own.now ≡ id_at graph.now own.now.name 0 }
    requires held { PointsAtHeld graph.now place.now }
    ensures { result ≡ id_of graph.now own.now.name place.now }
{
    match place {
        Ref::Here(index) => ElemId {
            index: *index,
            ..*own
        },
        Ref::There(name, index) => held_id(graph, name, *index),
    }
}

/// Behind what a text is inserted that stands in the change whose first id is `own`.
pub(crate) fn parent_id(graph: &Graph, own: &ElemId, parent: &Parent) -> Option<ElemId>
    requires grown { IsGrown graph.now }
    requires own { own.now ≡ id_at graph.now own.now.name 0 }
    requires held { ParentIsHeld graph.now parent.now }
    ensures { result ≡ parent_of graph.now own.now.name parent.now }
{
    match parent {
        Parent::Root => None,
        Parent::After(place) => Some(pointed_id(graph, own, place)),
    }
}
