//! An operation where its bytes stand, and the same kept in memory of its own.
//!
//! What an operation is is known before memory is asked for it. So bytes are judged to their end even where
//! memory runs out: from then on nothing more is kept.
ghost use Rattle.std.specs.Prelude.{◌≡◌, ◌++◌, List, [], ◌∷◌};
ghost use Rattle.std.specs.Option.{option_map};
ghost use Rattle.std.specs.Str.{chars};
ghost use Rattle.byte_format.specs.Read.{IsKept};
ghost use Rattle.change_codec.specs.Views.{op_viewed};

use crate::ops::{Op, Parent, Ref};
use std::alloc::Global;
use tt_base::{SharedPath, Text};

/// An operation where its bytes stand, before memory is asked for its path or its text.
#[derive(Clone, Copy)]
pub enum OpView<'a> {
    Make(&'a str),
    Remove(Ref),
    Insert {
        object: Ref,
        parent: Parent,
        text: &'a str,
    },
    Delete {
        object: Ref,
        first: Ref,
        count: u64,
    },
}

fn kept_path(alloc: Global, text: &str) -> Option<SharedPath>
    ensures { IsKept result text.now }
{
    match SharedPath::read(alloc, text) {
        Ok(path) => Some(path),
        Err(_) => None,
    }
}

fn kept_text(alloc: Global, text: &str) -> Option<Text>
    ensures { IsKept result (chars text.now) }
{
    match Text::from_str(alloc, text) {
        Ok(text) => Some(text),
        Err(_) => None,
    }
}

/// The operation in memory of its own, if there is any.
fn kept_op(alloc: Global, view: OpView<'_>) -> Option<Op>
    ensures { IsKept result (op_viewed view.entry) }
{
    match view {
        OpView::Make(path) => Some(Op::Make(kept_path(alloc, path)?)),
        OpView::Remove(object) => Some(Op::Remove(object)),
        OpView::Insert {
            object,
            parent,
            text,
        } => Some(Op::Insert {
            object,
            parent,
            text: kept_text(alloc, text)?,
        }),
        OpView::Delete {
            object,
            first,
            count,
        } => Some(Op::Delete {
            object,
            first,
            count,
        }),
    }
}

/// The operations with one more behind them, or nothing once memory ran out.
pub fn with_op(alloc: Global, ops: Option<Vec<Op>>, view: OpView<'_>) -> Option<Vec<Op>>
    ensures { (front : List Op) → IsKept (option_map (λ v. v.items) ops) front → IsKept (option_map (λ v. v.items) result) (front ++ op_viewed view.entry ∷ []) }
{
    let mut ops = ops?;
    let op = kept_op(alloc, view)?;
    match ops.push(op) {
        Ok(()) => Some(ops),
        Err(_) => None,
    }
}
