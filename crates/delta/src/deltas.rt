ghost use Rattle.std.specs.Prelude.{◌≡◌, ◌^◌, ◌<◌, IfOk};
ghost use Rattle.delta.specs.Cells.{base_length, result_length, changes_nothing, IsNormal};
ghost use Rattle.delta.specs.Steps.{cells_of, IsCanonical, IsWritten};

use crate::steps::DeltaStep;
use std::alloc::{AllocError, Global};
use std::marker::Model;
use tt_base::List;

/// What is changed in a text: a text that is inserted at each gap, and the characters that are
/// deleted.
///
/// Contracts see a cell for each character of the base, which has the text inserted before it and
/// whether it is kept, and the text inserted behind the last. A delta is in normal form: no text
/// stands at a gap whose left character is deleted.
#[derive(Debug, Drop)]
pub struct Delta {
    base: usize,
    steps: List<DeltaStep>,
}

impl Model for Delta {
    ghost use Rattle.delta.specs.Cells.{Cells};
    ghost use Rattle.delta.specs.Steps.{cells_of, IsWritten};

    ghost Value = { Cells };

    ghost view = { λ d. cells_of d.steps };

    ghost invariant = { λ d. IsWritten d.base d.steps };
}

impl Delta {
    /// The delta that the steps tell.
    pub(crate) fn from_steps(base: usize, steps: List<DeltaStep>) -> Delta
        requires { IsWritten base steps }
        ensures { result ≡ cells_of steps }
    {
        Delta { base, steps }
    }

    /// The number of characters of the texts that the delta applies to.
    pub fn base_length(&self) -> usize
        ensures { result ≡ base_length self.now }
    {
        self.base
    }

    /// Each delta is in normal form. The call does nothing: its contract tells the fact where a
    /// proof needs it.
    pub fn normal_form(&self)
        ensures { IsNormal self.now }
    {
        let _steps = self.steps();
    }

    /// The number of characters of the texts that the delta gives.
    pub fn result_length(&self) -> usize
        ensures { result ≡ result_length self.now }
    {
        let mut length = 0;
        for step in self.steps.as_slice() {
            length += step.result_size();
        }
        length
    }

    /// Whether the delta inserts nothing and deletes nothing.
    pub fn is_empty(&self) -> bool
        ensures { result ≡ changes_nothing self.now }
    {
        self.steps.as_slice().iter().all(DeltaStep::is_keep)
    }

    /// The steps of the delta from the front of its base to the end: no count is 0, no text is empty,
    /// no two neighbours are of one kind, and no `Insert` stands directly behind a `Delete`.
    ///
    /// A delta has one such list of steps. Its base and its result have lengths that fit usize.
    pub fn steps(&self) -> &List<DeltaStep>
        ensures cells { cells_of result.now ≡ self.now }
        ensures canonical { IsCanonical result.now }
        ensures base_fits { base_length self.now < 2 ^ 64 }
        ensures result_fits { result_length self.now < 2 ^ 64 }
    {
        &self.steps
    }

    /// The same delta in memory of its own.
    pub fn copied(&self, alloc: Global) -> Result<Delta, AllocError>
        ensures { IfOk result (λ copy. copy ≡ self.now) }
    {
        let mut copies = Vec::new(alloc);
        for step in self.steps.as_slice() {
            copies.push(step.copied(alloc)?)?;
        }
        Ok(Delta {
            base: self.base,
            steps: List::from_vec(copies),
        })
    }
}
