//! What holds of encodings. Each function has an empty body, and its contract is the law.
ghost use Rattle.std.specs.Prelude.{◌≡◌, ℕ, List};
ghost use Rattle.byte_format.specs.Format.{IsEncoding};
ghost use Rattle.change_codec.specs.Change.{Change};
ghost use Rattle.change_codec.specs.Encoding.{change_format};
ghost use Rattle.change_codec.specs.WellFormed.{IsWellFormed};

/// Bytes encode one change at most.
pub fn encoding_is_of_one_change()
    ensures { (bytes : List ℕ) (a b : Change) → IsEncoding change_format bytes a → IsEncoding change_format bytes b → a ≡ b }
{}

/// A change has one encoding at most.
pub fn change_has_one_encoding()
    ensures { (a b : List ℕ) (change : Change) → IsEncoding change_format a change → IsEncoding change_format b change → a ≡ b }
{}

/// A change that has an encoding is well formed: names rise strictly, texts are not empty, counts are 1 at least.
#[tactic(auto, using(crate::proofs::WellFormedLaws::fitting_is_well_formed))]
pub fn encoded_changes_are_well_formed()
    ensures { (change : Change) → change_format.Fits change → IsWellFormed change }
{}
