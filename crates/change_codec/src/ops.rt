ghost use Rattle.std.specs.Prelude.{◌≡◌, IfOk};

use std::alloc::{AllocError, Global};
use tt_base::{Name, SharedPath, Text};

/// What an operation points at: one of the objects and characters that a change makes, by its index there.
///
/// Indices run from 0 within a change: a `Make` takes one, an `Insert` one for each character, and `Remove`
/// and `Delete` take none.
#[derive(Clone, Copy, Debug, PartialEq, Eq)]
pub enum Ref {
    /// An index of the same change, taken by an earlier operation.
    Here(u64),
    /// An index of the change with this name.
    There(Name, u64),
}

/// Behind what a text is inserted.
#[derive(Clone, Copy, Debug, PartialEq, Eq)]
pub enum Parent {
    /// The beginning of the object.
    Root,
    /// This character.
    After(Ref),
}

/// One operation of a change.
#[derive(Debug, PartialEq, Eq, Drop)]
pub enum Op {
    /// Makes an object, the text of a file, at a path.
    Make(SharedPath),
    /// Removes an object.
    Remove(Ref),
    /// Inserts a text into an object. Each character but the first has the one before it as its parent.
    Insert {
        object: Ref,
        parent: Parent,
        /// At least one character.
        text: Text,
    },
    /// Deletes characters of an object, with rising indices from the first on.
    Delete {
        object: Ref,
        first: Ref,
        /// The number of characters, at least 1.
        count: u64,
    },
}

impl Op {
    /// The same operation in memory of its own.
    pub fn copied(&self, alloc: Global) -> Result<Op, AllocError>
        ensures { IfOk result (λ copy. copy ≡ self.now) }
    {
        match self {
            Op::Make(path) => {
                let path = path.copied(alloc)?;
                Ok(Op::Make(path))
            }
            Op::Remove(object) => Ok(Op::Remove(*object)),
            Op::Insert {
                object,
                parent,
                text,
            } => {
                let text = text.copied(alloc)?;
                Ok(Op::Insert {
                    object: *object,
                    parent: *parent,
                    text,
                })
            }
            Op::Delete {
                object,
                first,
                count,
            } => Ok(Op::Delete {
                object: *object,
                first: *first,
                count: *count,
            }),
        }
    }
}
