//! The plain values that every layer of Soonstable speaks of: lists, bytes, texts, paths, URIs,
//! positions in a text and contents of a file.
//!
//! Contracts see each of these types as a list, or as the record of its public fields.
#![tactic(auto)]

mod bytes;
mod contents;
mod edits;
mod elements;
mod ids;
mod paths;
mod text_ops;
mod texts;
mod uris;

pub use bytes::Blob;
pub use contents::{Content, View};
pub use edits::{Position, TextEdit, TextRange};
pub use elements::{Element, Elements};
pub use ids::{Actor, ElemId, Name};
pub use paged::{List, Runs};
pub use paths::{PathFault, SharedPath};
pub use text_ops::TextOp;
pub use texts::Text;
pub use uris::Uri;

#[cfg(test)]
mod tests;
