ghost use Rattle.std.specs.Prelude.{◌≡◌, ◌≤◌, nat_eq, nat_lt, string_bytes, length, Some, None, IfOk, MatchResult};
ghost use Rattle.std.specs.Ordering.{nat_cmp};
ghost use Rattle.std.specs.List.{list_any};
ghost use Rattle.std.specs.Cmp.{partial_equiv_from_equiv};
ghost use Rattle.std.specs.Cmp.Lexicographic.{pointwise, slice_cmp, nat_list_eq_equiv, texts_po, nat_list_cmp_total, texts_ties};
ghost use Rattle.tt_base.specs.Path.{parts, path_fault, is_nul, is_absolute, is_empty_part, is_dot_part, is_reserved_part};

use std::alloc::{AllocError, Global};
use std::cmp::Ordering;
use std::marker::Model;
use thiserror::Error;

/// The most bytes that a shared path may have.
pub const MAX_PATH_BYTES: usize = 1024;

/// The most parts that a shared path may have.
pub const MAX_PATH_PARTS: usize = 32;

/// Why a text is no shared path.
#[derive(Clone, Copy, Debug, PartialEq, Eq, Error)]
pub enum PathFault {
    /// It has more than [`MAX_PATH_BYTES`] bytes.
    #[error("the path has more than 1024 bytes")]
    TooLong,
    /// It has the character U+0000.
    #[error("the path has a NUL byte")]
    NulByte,
    /// It begins with a slash.
    #[error("the path is absolute")]
    Absolute,
    /// It is empty, or there is nothing between two slashes or behind the last.
    #[error("the path has an empty part")]
    Empty,
    /// One of its parts is `.` or `..`.
    #[error("the path has a part `.` or `..`")]
    DotPart,
    /// One of its parts is `.git` or `.teamd`.
    #[error("the path has a reserved part, `.git` or `.teamd`")]
    Reserved,
    /// It has more than [`MAX_PATH_PARTS`] parts.
    #[error("the path has more than 32 parts")]
    TooDeep,
    /// There is no memory for it.
    #[error("out of memory")]
    Memory,
}

/// The path of a file below the shared directory: parts with one slash between them.
///
/// It is seen as its UTF-8 bytes, and paths are ordered by these.
#[derive(Debug, Drop)]
pub struct SharedPath {
    text: String,
}

impl Model for SharedPath {
    ghost use Rattle.std.specs.Prelude.{◌≡◌, List, ℕ, None, string_bytes};
    ghost use Rattle.tt_base.specs.Path.{path_fault};

    ghost Value = { List ℕ };

    ghost view = { λ p. string_bytes p.text };

    ghost invariant = { λ p. path_fault (string_bytes p.text) ≡ None };
}

fn has_nul(text: &str) -> bool
    ensures { result ≡ list_any is_nul text.now }
{
    text.as_bytes().iter().any(|byte| *byte == 0)
}

fn begins_with_slash(text: &str) -> bool
    ensures { result ≡ is_absolute text.now }
{
    text.as_bytes().starts_with(b"/")
}

fn has_empty_part(text: &str) -> bool
    ensures { result ≡ list_any is_empty_part (parts text.now) }
{
    text.split('/').any(|part| part.is_empty())
}

fn has_dot_part(text: &str) -> bool
    ensures { result ≡ list_any is_dot_part (parts text.now) }
{
    text.split('/').any(|part| part == "." || part == "..")
}

fn has_reserved_part(text: &str) -> bool
    ensures { result ≡ list_any is_reserved_part (parts text.now) }
{
    text.split('/')
        .any(|part| part == ".git" || part == ".teamd")
}

fn is_too_deep(text: &str) -> bool
    ensures { result ≡ nat_lt MAX_PATH_PARTS (length (parts text.now)) }
{
    text.split('/').count() > MAX_PATH_PARTS
}

/// The first rule that the text breaks, in the order in which the rules are checked.
fn first_fault(text: &str) -> Option<PathFault>
    ensures { result ≡ path_fault text.now }
{
    if text.len() > MAX_PATH_BYTES {
        Some(PathFault::TooLong)
    } else if has_nul(text) {
        Some(PathFault::NulByte)
    } else if begins_with_slash(text) {
        Some(PathFault::Absolute)
    } else if has_empty_part(text) {
        Some(PathFault::Empty)
    } else if has_dot_part(text) {
        Some(PathFault::DotPart)
    } else if has_reserved_part(text) {
        Some(PathFault::Reserved)
    } else if is_too_deep(text) {
        Some(PathFault::TooDeep)
    } else {
        None
    }
}

impl SharedPath {
    /// Reads a path. The rules of [`PathFault`] are checked over the whole text in the order in
    /// which they stand there, and the first that is broken is the refusal.
    pub fn read(alloc: Global, text: &str) -> Result<SharedPath, PathFault>
        // A text that breaks a rule is refused for the first that it breaks.
        ensures refused { (fault : PathFault) → path_fault text.now ≡ Some fault → result ≡ Err fault }
        // Any other text is the path, unless memory runs out.
        ensures read { path_fault text.now ≡ None
            → MatchResult result (λ path. path ≡ text.now) (λ fault. fault ≡ PathFault.Memory) }
    {
        if let Some(fault) = first_fault(text) {
            return Err(fault);
        }
        match String::from_str(alloc, text) {
            Ok(text) => Ok(SharedPath { text }),
            Err(_) => Err(PathFault::Memory),
        }
    }

    /// The path as it was read. It breaks none of the rules.
    pub fn as_str(&self) -> &str
        ensures text { result.now ≡ self.now }
        ensures path { path_fault self.now ≡ None }
    {
        self.text.as_str()
    }

    /// The same path in memory of its own.
    pub fn copied(&self, alloc: Global) -> Result<SharedPath, AllocError>
        ensures { IfOk result (λ copy. copy ≡ self.now) }
    {
        Ok(SharedPath {
            text: String::from_str(alloc, self.text.as_str())?,
        })
    }
}

impl PartialEq for SharedPath {
    ghost eq = { pointwise nat_eq };

    ghost laws = { partial_equiv_from_equiv nat_list_eq_equiv };

    fn eq(&self, other: &SharedPath) -> bool {
        self.as_str() == other.as_str()
    }
}

impl Eq for SharedPath {
    ghost laws = { nat_list_eq_equiv };
}

impl PartialOrd for SharedPath {
    ghost partial_cmp = { λ x y. Some (slice_cmp nat_cmp x y) };

    ghost laws = { texts_po };

    fn partial_cmp(&self, other: &SharedPath) -> Option<Ordering> {
        Some(self.cmp(other))
    }
}

impl Ord for SharedPath {
    ghost use Rattle.std.specs.Prelude.{refl};

    ghost cmp = { slice_cmp nat_cmp };

    ghost total = { nat_list_cmp_total };

    ghost matches_partial_cmp = { λ x y. refl };

    ghost matches_eq = { λ x y. texts_ties x y };

    fn cmp(&self, other: &SharedPath) -> Ordering {
        self.as_str().cmp(other.as_str())
    }
}
