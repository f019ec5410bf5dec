ghost use Rattle.std.specs.Prelude.{◌≡◌, ◌+◌, ◌^◌, ◌<◌, ◌≤◌, length, take, IfOk};
ghost use Rattle.delta.specs.Cells.{base_length, result_length};
ghost use Rattle.delta.specs.Steps.{after_step, cells_of, IsCanonical};
ghost use Rattle.delta.specs.Reading.{size_of, front_part, first_size, text_ahead, next_of};

use crate::deltas::Delta;
use crate::steps::DeltaStep;
use std::alloc::{AllocError, Global};
use std::marker::Model;
use tt_base::Text;

/// What the next step of a delta does, and to how many characters.
#[derive(Clone, Copy, Debug, PartialEq, Eq)]
pub enum NextStep {
    /// It keeps so many characters of the base.
    Keep(usize),
    /// It inserts a text of so many characters.
    Insert(usize),
    /// It deletes so many characters of the base.
    Delete(usize),
    /// All steps were read.
    End,
}

/// Reads the steps of a delta from the front, a step at a time or in parts.
///
/// Contracts see the steps that are left, the first of them perhaps without its front part.
#[derive(Drop)]
pub struct StepReader<'a> {
    steps: &'a [DeltaStep],
    used: usize,
}

impl<'a> Model for StepReader<'a> {
    ghost use Rattle.std.specs.Prelude.{List};
    ghost use Rattle.delta.specs.Steps.{IsCanonical};
    ghost use Rattle.delta.specs.Reading.{steps_left};
    ghost use Rattle.delta.specs.declared.steps.DeltaStep.{DeltaStep};

    ghost Value = { List DeltaStep };

    ghost view = { λ r. steps_left r.used r.steps.now };

    ghost invariant = { λ r. IsCanonical (steps_left r.used r.steps.now) };
}

impl<'a> StepReader<'a> {
    /// Reads the delta from its front.
    pub fn new(delta: &'a Delta) -> StepReader<'a>
        ensures cells { cells_of result ≡ delta.now }
        ensures base_fits { base_length delta.now < 2 ^ 64 }
        ensures result_fits { result_length delta.now < 2 ^ 64 }
    {
        StepReader {
            steps: delta.steps().as_slice(),
            used: 0,
        }
    }

    /// What comes next. Counts are never 0.
    pub fn next(&self) -> NextStep
        ensures next { result ≡ next_of self.now }
        ensures canonical { IsCanonical self.now }
    {
        match self.steps.first() {
            None => NextStep::End,
            Some(DeltaStep::Keep(n)) => NextStep::Keep(*n - self.used),
            Some(DeltaStep::Insert(text)) => NextStep::Insert(text.len() - self.used),
            Some(DeltaStep::Delete(n)) => NextStep::Delete(*n - self.used),
        }
    }

    /// A copy of the first characters of the text that is inserted next.
    pub fn text(&self, alloc: Global, count: usize) -> Result<Text, AllocError>
        requires { count ≤ length (text_ahead self.now) }
        ensures { IfOk result (λ text. text ≡ take count (text_ahead self.now)) }
    {
        match self.steps.first() {
            Some(DeltaStep::Insert(text)) => {
                let _length = text.len();
                text.copied_range(alloc, self.used, self.used + count)
            }
            _ => Text::empty(alloc),
        }
    }

    /// Passes over the first characters of the next step.
    pub fn advance(&mut self, count: usize)
        requires { count ≤ first_size self.old }
        ensures cells { cells_of self.old ≡ after_step (front_part count self.old) (cells_of self.new) }
        ensures size { size_of self.new + count ≡ size_of self.old }
    {
        if let Some(first) = self.steps.first() {
            let size = first.size();
            let used = self.used + count;
            if used == size {
                self.steps = &self.steps[1..];
                self.used = 0;
            } else {
                self.used = used;
            }
        }
    }
}
