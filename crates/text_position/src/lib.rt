//! Positions in a text by line and character, and the delta of a list of edits.
//!
//! Positions have the form of the Language Server Protocol 3.17, and differ from it in three things: LF
//! alone ends a line, not CR; a character is a Unicode scalar value, not a UTF-16 code unit; and a
//! character past the end of its line is refused, not moved back to that end.
#![tactic(auto)]

mod delta_edits;
mod edit_lists;
mod faults;
pub mod laws;
mod places;

pub use delta_edits::to_edits;
pub use edit_lists::from_edits;
pub use faults::{BadPosition, EditsFault};
pub use places::{offset_of, position_of};
