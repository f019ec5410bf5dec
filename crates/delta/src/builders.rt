//! A delta that is built from the front of its base, as it is asked for.
//!
//! The builder only keeps what was asked. Normal form is no state of it: `finish` writes all at once in
//! canonical form, so that each call means the same whatever was asked before.
//!
//! It is right since a step at the end of a list of steps is a delta joined behind the one before it
//! (`joined`), which is what each call promises.
ghost use Rattle.std.specs.Prelude.{◌≡◌, ◌+◌, ◌^◌, ◌<◌, length, IfOk, OnOk, OnErr};
ghost use Rattle.delta.specs.Cells.{base_length, joined, keeping, inserting, deleting, nothing, normal};

use crate::deltas::Delta;
use crate::steps::DeltaStep;
use crate::writers::write_steps;
use std::alloc::{AllocError, Global};
use std::marker::Model;
use tt_base::Text;

/// Builds a delta from the front of its base to the end.
///
/// Contracts see what was built as the cells of a delta that need not be in normal form.
#[derive(Debug, Drop)]
pub struct DeltaBuilder {
    base: usize,
    steps: Vec<DeltaStep>,
}

impl Model for DeltaBuilder {
    ghost use Rattle.std.specs.Prelude.{◌≡◌};
    ghost use Rattle.delta.specs.Cells.{Cells, base_length};
    ghost use Rattle.delta.specs.Steps.{cells_of};

    ghost Value = { Cells };

    ghost view = { λ b. cells_of b.steps.items };

    ghost invariant = { λ b. b.base ≡ base_length (cells_of b.steps.items) };
}

impl DeltaBuilder {
    /// The builder of which nothing was asked: no base, and nothing inserted.
    pub fn new(alloc: Global) -> Result<DeltaBuilder, AllocError>
        ensures { IfOk result (λ builder. builder ≡ nothing) }
    {
        Ok(DeltaBuilder {
            base: 0,
            steps: Vec::new(alloc),
        })
    }

    /// Keeps the next `n` characters of the base. After want of memory the builder is as before.
    pub fn keep(&mut self, _alloc: Global, n: usize) -> Result<(), AllocError>
        requires { base_length self.old + n < 2 ^ 64 }
        ensures ok { OnOk result (self.new ≡ joined self.old (keeping n)) }
        ensures err { OnErr result (self.new ≡ self.old) }
    {
        self.steps.push(DeltaStep::Keep(n))?;
        self.base += n;
        Ok(())
    }

    /// Inserts a text at the gap that is reached. After want of memory the builder is as before.
    pub fn insert(&mut self, alloc: Global, text: &Text) -> Result<(), AllocError>
        ensures ok { OnOk result (self.new ≡ joined self.old (inserting text.now)) }
        ensures err { OnErr result (self.new ≡ self.old) }
    {
        self.insert_text(alloc, text.copied(alloc)?)
    }

    /// Inserts a text at the gap that is reached, in the text's own memory. After want of memory the
    /// builder is as before, and the text is dropped.
    pub fn insert_text(&mut self, _alloc: Global, text: Text) -> Result<(), AllocError>
        ensures ok { OnOk result (self.new ≡ joined self.old (inserting text)) }
        ensures err { OnErr result (self.new ≡ self.old) }
    {
        self.steps.push(DeltaStep::Insert(text))?;
        Ok(())
    }

    /// Deletes the next `n` characters of the base. After want of memory the builder is as before.
    pub fn delete(&mut self, _alloc: Global, n: usize) -> Result<(), AllocError>
        requires { base_length self.old + n < 2 ^ 64 }
        ensures ok { OnOk result (self.new ≡ joined self.old (deleting n)) }
        ensures err { OnErr result (self.new ≡ self.old) }
    {
        self.steps.push(DeltaStep::Delete(n))?;
        self.base += n;
        Ok(())
    }

    /// The delta that was built, in normal form.
    ///
    /// A delta whose result would have a length above usize is want of memory, since no memory holds
    /// such a text.
    pub fn finish(self, alloc: Global) -> Result<Delta, AllocError>
        ensures { IfOk result (λ delta. delta ≡ normal self) }
    {
        let DeltaBuilder { base, steps } = self;
        let written = write_steps(alloc, base, steps.as_slice())?;
        Ok(Delta::from_steps(base, written))
    }
}
