//! The script language: from a line to its move, and back.
#![tactic(auto)]

mod arguments;
mod contents;
mod cuts;
mod escapes;
mod faults;
pub mod laws;
mod lines;
mod moves;
mod numbers;
mod paths;
mod quotes;
mod words;
mod written;
mod written_lines;

pub use faults::LineFault;
pub use lines::read_line;
pub use moves::Move;
pub use outside::Mode;
pub use written::{write_path, write_text};
pub use written_lines::write_line;
