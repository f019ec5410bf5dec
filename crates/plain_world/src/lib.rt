//! Whole worlds of daemons and editors, as scripts play them.
#![tactic(auto)]

pub mod laws;

/// How many daemons a script may have.
pub const MOST_DAEMONS: u64 = 64;

/// How many editors a script may have.
pub const MOST_EDITORS: u64 = 256;

/// The characters that a text has at most which an editor of a script sends.
pub const LONGEST_SENT: usize = 4_194_304;

/// The first number of the connections that a script makes of its own; those that it names are below.
pub const FIRST_OWN: u64 = 4_294_967_296;

/// The bytes that a body of an editor's frame has at most.
pub const LONGEST_BODY: u64 = 33_554_432;
