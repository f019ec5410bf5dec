//! Frames of editors: the base protocol of the Language Server Protocol.
//!
//! A frame is a header part, whose fields each end with CR LF and which an empty line ends, and a body of as many
//! bytes as its `Content-Length` says. A stream of bytes is read to bodies and, if it breaks the grammar, to its
//! first fault, however it is cut into pieces.
#![tactic(auto)]

mod begun;
mod faults;
mod headers;
pub mod laws;
mod pieces;
mod readers;
mod written;

pub use faults::{FrameEnd, FrameFault};
pub use headers::HEADER_LIMIT;
pub use pieces::{StreamRead, read_pieces};
pub use readers::FrameReader;
pub use written::write_frame;
