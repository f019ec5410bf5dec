ghost use Rattle.std.specs.Prelude.{◌≡◌, IfOk};

use std::alloc::{AllocError, Global};
use tt_base::Text;

/// One step of a delta. The counts and lengths are of Unicode scalar values.
#[derive(Debug, PartialEq, Eq, Drop)]
pub enum DeltaStep {
    /// The next so many characters of the base are kept.
    Keep(usize),
    /// A text is inserted.
    Insert(Text),
    /// The next so many characters of the base are deleted.
    Delete(usize),
}

impl DeltaStep {
    ghost use Rattle.delta.specs.Steps.{is_keep, step_result};
    ghost use Rattle.delta.specs.Reading.{step_size};

    /// The number of characters that the step keeps, inserts or deletes.
    pub fn size(&self) -> usize
        ensures { result ≡ step_size self.now }
    {
        match self {
            DeltaStep::Keep(n) => *n,
            DeltaStep::Insert(text) => text.len(),
            DeltaStep::Delete(n) => *n,
        }
    }

    /// The number of characters that the step gives to the text after the delta.
    pub fn result_size(&self) -> usize
        ensures { result ≡ step_result self.now }
    {
        match self {
            DeltaStep::Keep(n) => *n,
            DeltaStep::Insert(text) => text.len(),
            DeltaStep::Delete(_) => 0,
        }
    }

    /// Whether the step keeps characters.
    pub fn is_keep(&self) -> bool
        ensures { result ≡ is_keep self.now }
    {
        matches!(self, DeltaStep::Keep(_))
    }

    /// The same step in memory of its own.
    pub fn copied(&self, alloc: Global) -> Result<DeltaStep, AllocError>
        ensures { IfOk result (λ copy. copy ≡ self.now) }
    {
        match self {
            DeltaStep::Keep(n) => Ok(DeltaStep::Keep(*n)),
            DeltaStep::Insert(text) => Ok(DeltaStep::Insert(text.copied(alloc)?)),
            DeltaStep::Delete(n) => Ok(DeltaStep::Delete(*n)),
        }
    }
}
