use crate::texts::Text;

/// A place in a text by a line and a character in that line, in the form of the Language Server
/// Protocol's `Position`.
///
/// Both count from 0. A line ends at LF alone, where the protocol ends it at CR LF and CR too.
/// `character` counts Unicode scalar values, where the protocol counts UTF-16 code units unless another
/// unit was agreed on.
#[derive(Clone, Copy, Debug, PartialEq, Eq)]
pub struct Position {
    /// The number of line ends before the place.
    pub line: u64,
    /// The number of characters between the last of these line ends and the place.
    pub character: u64,
}

/// The characters from `start` up to `end` are replaced by `replacement`.
#[derive(Debug, Drop)]
pub struct TextEdit {
    pub start: Position,
    pub end: Position,
    pub replacement: Text,
}

/// The characters from `start` up to `end`.
#[derive(Clone, Copy, Debug, PartialEq, Eq)]
pub struct TextRange {
    pub start: Position,
    pub end: Position,
}
