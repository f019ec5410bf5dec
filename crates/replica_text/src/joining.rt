//! Operations are joined one after another, and their effects composed by halves.

ghost use Rattle.std.specs.Prelude.{IfOk};
ghost use Rattle.replica_text.specs.Ids.{is_known};
ghost use Rattle.replica_text.specs.Ops.{AllMayFollow, MayFollow, after_op, after_ops, known_after, all_known_after};
ghost use Rattle.replica_text.specs.Joined.{Joins};

use crate::deleting::join_delete;
use crate::gap_deltas::unchanged;
use crate::inserting::join_insert;
use delta::{Delta, compose};
use std::alloc::{AllocError, Global};
use tt_base::{Elements, TextOp};

/// Joins one operation.
fn join_one<E: Elements>(alloc: Global, elements: &mut E, op: &TextOp) -> Result<Delta, AllocError>
    requires { MayFollow op.now (is_known (E.elements elements.old)) }
    ensures { IfOk result (Joins (after_op op.now) (known_after op.now) (E.elements elements.old) (E.elements elements.new)) }
{
    match op {
        TextOp::Insert {
            first,
            parent,
            text,
        } => join_insert(alloc, elements, first, parent, text),
        TextOp::Delete { first, count } => join_delete(alloc, elements, first, *count),
    }
}

/// Joins operations, each half in turn.
pub(crate) fn join_all<E: Elements>(
    alloc: Global,
    elements: &mut E,
    ops: &[TextOp],
) -> Result<Delta, AllocError>
    requires { AllMayFollow ops.now (is_known (E.elements elements.old)) }
    ensures { IfOk result (Joins (after_ops ops.now) (all_known_after ops.now) (E.elements elements.old) (E.elements elements.new)) }
{
    match ops {
        [] => unchanged(alloc, elements.alive()),
        [op] => join_one(alloc, elements, op),
        _ => {
            let (front, back) = ops.split_at(ops.len() / 2);
            let first = join_all(alloc, elements, front)?;
            let second = join_all(alloc, elements, back)?;
            compose(alloc, &first, &second)
        }
    }
}
