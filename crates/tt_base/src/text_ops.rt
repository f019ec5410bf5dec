//! What a change does to one text.

use crate::ids::ElemId;
use crate::texts::Text;

/// An operation of a change on the elements of one text. The ids that it speaks of differ in their index
/// alone, which rises by 1 from that of `first` on.
#[derive(Debug, PartialEq, Eq, Drop)]
pub enum TextOp {
    /// Inserts a run of characters: the first below `parent`, or below the root where that is `None`, and
    /// each of the others below the one before it.
    Insert {
        first: ElemId,
        parent: Option<ElemId>,
        text: Text,
    },
    /// Deletes as many elements, from that with the id `first` on.
    Delete {
        first: ElemId,
        count: u64,
    },
}
