//! What holds of a directory whatever the order of arrival. Each function has an empty body, and its contract is
//! the law.
ghost use Rattle.std.specs.Prelude.{◌≡◌, ℕ, List, Option};
ghost use Rattle.tt_base.specs.declared.ids.ElemId.{ElemId};
ghost use Rattle.replica_dir.specs.DirectoryView.{DirectoryView, HasSameEvents, is_live, IsWinner};

/// Equal makes and removes have equal live objects at each path.
pub fn equal_events_have_equal_live_objects()
    ensures { (one other : DirectoryView) → HasSameEvents one other
        → (path : List ℕ) (id : ElemId) → is_live one path id ≡ is_live other path id }
{}

/// Equal makes and removes have equal winners: a path has one winner, whatever the order in which they came.
pub fn equal_events_have_equal_winners()
    ensures { (one other : DirectoryView) → HasSameEvents one other
        → (path : List ℕ) (a b : Option ElemId) → IsWinner one path a → IsWinner other path b → a ≡ b }
{}
