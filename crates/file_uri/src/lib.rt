//! URIs of files: from a URI to the shared path that it names below a base directory, and back.
//!
//! What a URI names is what the URL Standard's parser reads in it. A plain URI, as [`uri_of`] and
//! most editors write it, is read without that parser, to the same path.
#![tactic(auto)]

mod bases;
mod faults;
mod laws;
mod paths;
mod plain;
mod urls;

pub use bases::{Base, MAX_BASE_BYTES};
pub use faults::UriFault;
pub use laws::{path_comes_back, plain_reading_agrees};
pub use paths::{path_of, uri_of};
