//! What holds of the definitions of deltas. Each function has an empty body, and its contract is the
//! law.
ghost use Rattle.std.specs.Prelude.{◌≡◌, ℕ, List, true, length, map};
ghost use Rattle.delta.specs.Cells.{Cells, base_length, result_length, applied, normal, changes_nothing, IsNormal};
ghost use Rattle.delta.specs.Marks.{marks_of, char_of, composed};
ghost use Rattle.delta.specs.Steps.{cells_of, IsCanonical};
ghost use Rattle.delta.specs.declared.steps.DeltaStep.{DeltaStep};

/// The normal form of a delta applies as the delta does.
pub fn normal_form_applies()
    ensures { (d : Cells) (text : List ℕ) → applied (normal d) text ≡ applied d text }
{}

/// The normal form is normal, and a normal delta is its own normal form.
pub fn normal_form_is_normal()
    ensures normal { (d : Cells) → IsNormal (normal d) }
    ensures fixed { (d : Cells) → IsNormal d → normal d ≡ d }
    ensures idempotent { (d : Cells) → normal (normal d) ≡ normal d }
{}

/// The normal form has the lengths of the delta.
pub fn normal_form_has_lengths()
    ensures base { (d : Cells) → base_length (normal d) ≡ base_length d }
    ensures result { (d : Cells) → result_length (normal d) ≡ result_length d }
{}

/// A normal delta is fixed by the places that it keeps and the new characters between them.
pub fn marks_fix_normal_delta()
    ensures { (d e : Cells) → IsNormal d → IsNormal e → base_length d ≡ base_length e
        → marks_of d ≡ marks_of e → d ≡ e }
{}

/// A delta and its normal form leave the same marks, and the marks tell the text after the delta.
pub fn marks_tell_text()
    ensures normal { (d : Cells) → marks_of (normal d) ≡ marks_of d }
    ensures text { (d : Cells) (text : List ℕ) → base_length d ≡ length text
        → map (char_of text) (marks_of d) ≡ applied d text }
{}

/// The text after a delta is as long as the delta says.
pub fn result_has_length()
    ensures { (d : Cells) (text : List ℕ) → base_length d ≡ length text
        → length (applied d text) ≡ result_length d }
{}

/// A delta that changes nothing leaves each text as it is.
pub fn empty_delta_applies()
    ensures { (d : Cells) (text : List ℕ) → changes_nothing d ≡ true → base_length d ≡ length text
        → applied d text ≡ text }
{}

/// The composition of two deltas applies one after the other.
pub fn composition_applies_in_turn()
    ensures { (first second : Cells) (text : List ℕ) → base_length first ≡ length text
        → applied (composed first second) text ≡ applied second (applied first text) }
{}

/// The composition is normal. It has the base of the first delta and the result of the second.
pub fn composition_has_lengths()
    ensures normal { (first second : Cells) → IsNormal (composed first second) }
    ensures base { (first second : Cells) → base_length (composed first second) ≡ base_length first }
    ensures result { (first second : Cells) → result_length first ≡ base_length second
        → result_length (composed first second) ≡ result_length second }
{}

/// It does not matter which two of three deltas in a row are composed first.
pub fn composition_is_associative()
    ensures { (a b c : Cells) → result_length a ≡ base_length b
        → composed (composed a b) c ≡ composed a (composed b c) }
{}

/// A delta has one list of steps.
pub fn steps_are_unique()
    ensures { (steps others : List DeltaStep) → IsCanonical steps → IsCanonical others
        → cells_of steps ≡ cells_of others → steps ≡ others }
{}
