//! What holds of journals as bytes. Each function has an empty body, and its contract is the law.
ghost use Rattle.std.specs.Prelude.{◌≡◌, ℕ, List};
ghost use Rattle.journal_format.specs.declared.records.Record.{Record};
ghost use Rattle.journal_format.specs.Image.{IsImage, IsFirstBad};

/// Bytes stand for one list of groups at most.
pub fn bytes_stand_for_one_list()
    ensures { (bytes : List ℕ) (a b : List (List Record)) → IsImage bytes a → IsImage bytes b → a ≡ b }
{}

/// Where an open gate has no group that may stand there, the bytes stand for nothing.
pub fn bad_bytes_stand_for_nothing()
    ensures { (bytes : List ℕ) (place : ℕ) (groups : List (List Record)) → IsFirstBad bytes place → IsImage bytes groups → ⊥ }
{}

/// One gate at most is the first that is bad.
pub fn first_bad_gate_is_one()
    ensures { (bytes : List ℕ) (a b : ℕ) → IsFirstBad bytes a → IsFirstBad bytes b → a ≡ b }
{}
