//! What holds of deltas that are carried past each other. Each function has an empty body, and its
//! contract is the law.
ghost use Rattle.std.specs.Prelude.{◌≡◌, ℕ, List, true, length};
ghost use Rattle.delta.specs.Cells.{Cells, base_length, result_length, applied, changes_nothing, IsNormal};
ghost use Rattle.transform.specs.Gaps.{editor_by_gaps, daemon_by_gaps};
ghost use Rattle.transform.specs.Carried.{merged, after_editor, after_daemon, IsChain, applied_all, past_list, list_past, chain_end};

/// The gap formulas and the definitions cell by cell are one.
pub fn gaps_and_cells_are_one()
    ensures editor { (p q : Cells) → base_length p ≡ base_length q
        → editor_by_gaps p q ≡ after_editor p q }
    ensures daemon { (q p : Cells) → base_length q ≡ base_length p
        → daemon_by_gaps q p ≡ after_daemon q p }
{}

/// Both ways round give the merge: the daemon's delta and then the editor's past it, and the
/// editor's delta and then the daemon's past it.
pub fn both_ways_merge()
    ensures daemon_first { (q p : Cells) (text : List ℕ) → base_length q ≡ base_length p
        → base_length q ≡ length text → applied (after_editor p q) (applied q text) ≡ merged text q p }
    ensures editor_first { (q p : Cells) (text : List ℕ) → base_length q ≡ base_length p
        → base_length q ≡ length text → applied (after_daemon q p) (applied p text) ≡ merged text q p }
{}

/// A carried delta applies to the result of the one that it was carried past, and both ways round
/// end in texts of one length.
pub fn carried_deltas_have_lengths()
    ensures editor { (q p : Cells) → base_length q ≡ base_length p
        → base_length (after_editor p q) ≡ result_length q }
    ensures daemon { (q p : Cells) → base_length q ≡ base_length p
        → base_length (after_daemon q p) ≡ result_length p }
    ensures results { (q p : Cells) → base_length q ≡ base_length p
        → result_length (after_editor p q) ≡ result_length (after_daemon q p) }
{}

/// For a list of a daemon's deltas both ways round give one text.
pub fn list_both_ways_are_one()
    ensures { (p : Cells) (list : List Cells) (text : List ℕ) → IsChain (base_length p) list
        → base_length p ≡ length text
        → applied (past_list p list) (applied_all list text) ≡ applied_all (list_past p list) (applied p text) }
{}

/// The carried list applies behind the editor's delta, and the carried delta behind the list.
pub fn carried_lists_have_lengths()
    ensures chain { (p : Cells) (list : List Cells) → IsChain (base_length p) list
        → IsChain (result_length p) (list_past p list) }
    ensures base { (p : Cells) (list : List Cells) → IsChain (base_length p) list
        → base_length (past_list p list) ≡ chain_end (base_length p) list }
    ensures result { (p : Cells) (list : List Cells) → IsChain (base_length p) list
        → result_length (past_list p list) ≡ chain_end (result_length p) (list_past p list) }
{}

/// Carrying past a delta that changes nothing changes nothing.
pub fn past_nothing_is_same()
    ensures editor { (q p : Cells) → changes_nothing q ≡ true → base_length q ≡ base_length p
        → IsNormal p → after_editor p q ≡ p }
    ensures daemon { (q p : Cells) → changes_nothing p ≡ true → base_length q ≡ base_length p
        → IsNormal q → after_daemon q p ≡ q }
{}

/// Carrying keeps normal form.
pub fn carried_deltas_are_normal()
    ensures editor { (q p : Cells) → IsNormal (after_editor p q) }
    ensures daemon { (q p : Cells) → IsNormal (after_daemon q p) }
{}
