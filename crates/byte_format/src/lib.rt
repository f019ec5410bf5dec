//!
//! A format says how a value is spelled, which values have a spelling, and how bytes are read, with the
//! first field that is outside the format. Formats are made of smaller ones, and so are their laws: what is
//! read is what is spelled, and what is spelled is read again (`proofs/Lawful.antt`).
#![tactic(auto)]

mod faults;
mod names;
mod numbers;
mod texts;
mod writers;

pub use faults::{Kind, Outside, ReadFault};
pub use names::{read_actor, read_name, read_names, read_names_through};
pub use numbers::{read_count, read_u16, read_u64};
pub use texts::{read_path, read_path_text, read_str, read_text};
pub use writers::{put_name, put_names, put_path, put_text, put_u64};
