//! What holds of journals on disks. Each function has an empty body, and its contract is the law.
ghost use Rattle.std.specs.Prelude.{◌≡◌, ℕ, List};
ghost use Rattle.journal_format.specs.declared.records.Record.{Record};
ghost use Rattle.journal_format.specs.Image.{StandsFor, IsPlaced, IsFirstBad};
ghost use Rattle.change_journal.specs.Opening.{opened, IsNoJournal};

/// A content that stands for records, as one that a crash has left, is opened as just these, and its bytes are no cause to
/// refuse it.
pub fn a_journal_opens_as_its_records()
    ensures records { (bytes : List ℕ) (recorded held : List Record) (gates : List ℕ) (end : ℕ)
        → StandsFor bytes recorded → IsPlaced (opened bytes) held gates end → held ≡ recorded }
    ensures marked { (bytes : List ℕ) (recorded : List Record) → StandsFor bytes recorded → IsNoJournal (opened bytes) → ⊥ }
    ensures good { (bytes : List ℕ) (recorded : List Record) (place : ℕ)
        → StandsFor bytes recorded → IsFirstBad (opened bytes) place → ⊥ }
{}

/// A content that is opened is refused for no cause, and one that is refused has one cause, with one place.
pub fn a_refusal_has_one_cause()
    ensures opened_marked { (bytes : List ℕ) (held : List Record) (gates : List ℕ) (end : ℕ)
        → IsPlaced bytes held gates end → IsNoJournal bytes → ⊥ }
    ensures opened_good { (bytes : List ℕ) (held : List Record) (gates : List ℕ) (end place : ℕ)
        → IsPlaced bytes held gates end → IsFirstBad bytes place → ⊥ }
    ensures bad_marked { (bytes : List ℕ) (place : ℕ) → IsFirstBad bytes place → IsNoJournal bytes → ⊥ }
    ensures one_place { (bytes : List ℕ) (a b : ℕ) → IsFirstBad bytes a → IsFirstBad bytes b → a ≡ b }
{}
