//! What holds of the readings of a history. Each function has an empty body, and its contract is the law.
ghost use Rattle.std.specs.Prelude.{◌≡◌, ◌≢◌, ℕ, ◌+◌, ◌^◌, ◌≤◌, false, List, [], length, Some};
ghost use Rattle.delta.specs.Cells.{Cells, applied, base_length, IsNormal};
ghost use Rattle.tt_base.specs.Elements.{AreDistinct};
ghost use Rattle.tt_base.specs.declared.ids.Actor.{Actor};
ghost use Rattle.tt_base.specs.declared.ids.ElemId.{ElemId};
ghost use Rattle.tt_base.specs.declared.ids.Name.{Name};
ghost use Rattle.change_codec.specs.Change.{Change};
ghost use Rattle.change_codec.specs.Encoding.{change_format};
ghost use Rattle.change_graph.specs.History.{History, change_at, is_held, name_of, with_change};
ghost use Rattle.change_graph.specs.Answers.{IsHeads};
ghost use Rattle.change_graph.specs.Depths.{IsDepths, IsDepth};
ghost use Rattle.change_graph.specs.Histories.{IsHistory};
ghost use Rattle.change_graph.specs.Refusals.{things};
ghost use Rattle.replica_dir.specs.DirectoryView.{DirectoryView, IsWinner};
ghost use Rattle.replica_text.specs.Ids.{is_known};
ghost use Rattle.replica_text.specs.Tree.{IsTree};
ghost use Rattle.replica_text.specs.Ops.{AllMayFollow, after_ops};
ghost use Rattle.replica_views.specs.Effects.{effect_at};
ghost use Rattle.replica_views.specs.Growth.{MayCome, IsGrown};
ghost use Rattle.replica_views.specs.Ids.{depth_at};
ghost use Rattle.replica_views.specs.Laws.{DoesOnly, RemovesOnly};
ghost use Rattle.replica_views.specs.Made.{heads_of, made, removed};
ghost use Rattle.replica_views.specs.Objects.{IsDirectoryOf, winner_at};
ghost use Rattle.replica_views.specs.Texts.{ops_on, text_ops, tree_of, elements_of};
ghost use Rattle.replica_views.specs.Views.{held, view_at, text_at};

/// Histories that hold the same changes are one, and so they have equal views of every path: a view is read off the changes
/// alone, and not off the order in which they came.
pub fn equal_histories_have_equal_views()
    ensures histories { (one other : History) → IsHistory one → IsHistory other → ((name : Name) → change_at one name ≡ change_at other name) → one ≡ other }
    ensures views { (one other : History) → IsHistory one → IsHistory other → ((name : Name) → change_at one name ≡ change_at other name)
        → (path : List ℕ) → view_at one path ≡ view_at other path }
{}

/// A history to which changes came one by one is closed, without cycles and accepted; its depths and its heads are those of its
/// changes.
pub fn a_grown_history_is_one()
    ensures history { (history : History) → IsGrown history → IsHistory history }
    ensures depths { (history : History) → IsGrown history → IsDepths history (depth_at history) }
    ensures heads { (history : History) → IsGrown history → IsHeads history (heads_of history) }
{}

/// The heads and the depths that a graph tells of a grown history are those that the readings rest on.
pub fn a_graph_tells_heads_and_depths()
    ensures heads { (history : History) → IsGrown history → (heads : List Name) → IsHeads history heads → heads ≡ heads_of history }
    ensures depths { (history : History) → IsGrown history → (name : Name) (depth : ℕ) → IsDepth history name depth → depth ≡ depth_at history name }
{}

/// The tree of each object is one: siblings fall, each id is greater than its parent's, and no two elements have one id.
pub fn trees_of_a_history_are_trees()
    ensures trees { (history : History) → IsGrown history → (object : ElemId) → IsTree (tree_of history object) }
    ensures distinct { (history : History) → IsGrown history → (object : ElemId) → AreDistinct (elements_of history object) }
{}

/// The operations of a grown history on each object are possible, each behind the others by depth and name.
pub fn operations_of_a_history_are_possible()
    ensures { (history : History) → IsGrown history → (object : ElemId) → AllMayFollow (ops_on history object) (is_known []) }
{}

/// With one change more one more is held, and the tree of each object is the tree before with what the change does to it, wherever the change stands
/// among the others by depth. So a text to which the operations are joined as they come is the reading of the history.
pub fn a_change_adds_what_it_does()
    ensures held { (history : History) (change : Change) → IsGrown history → MayCome history change
        → held (with_change history change) ≡ held history + 1 }
    ensures trees { (history : History) (change : Change) → IsGrown history → MayCome history change → (object : ElemId)
        → tree_of (with_change history change) object
        ≡ after_ops (text_ops (with_change history change) (name_of change) object 0 change.ops) (tree_of history object) }
{}

/// The effect of a change leads from the text at each path to that after it.
pub fn an_effect_leads_to_the_next_text()
    ensures { (history : History) (change : Change) → IsGrown history → MayCome history change → (path : List ℕ)
        → applied (effect_at history (with_change history change) path) (text_at history path) ≡ text_at (with_change history change) path }
{}

/// A change that is made for a delta of the text at a path has just this delta as its effect there, and no other path has one.
pub fn a_made_change_does_what_it_was_made_for()
    ensures { (history : History) (actor : Actor) (path : List ℕ) (d : Cells) → IsGrown history → MayCome history (made history actor path d)
        → base_length d ≡ length (text_at history path) → IsNormal d → DoesOnly history (made history actor path d) path d }
{}

/// A change that removes the file at a path leaves none there, and no other path has an effect or another view.
pub fn a_removing_change_removes_one_file()
    ensures { (history : History) (actor : Actor) (path : List ℕ) → IsGrown history → MayCome history (removed history actor path)
        → RemovesOnly history (removed history actor path) path }
{}

/// A change that a daemon makes may come next: none of its operations is refused. It must have an encoding and a name under which
/// nothing is held, and the indices of what it makes must fit u64.
pub fn own_changes_may_come_next()
    ensures made { (history : History) → IsGrown history → (actor : Actor) (path : List ℕ) (d : Cells)
        → is_held history (name_of (made history actor path d)) ≡ false → change_format.Fits (made history actor path d)
        → length (things (made history actor path d).ops) ≤ 2 ^ 64 → MayCome history (made history actor path d) }
    ensures removed { (history : History) → IsGrown history → (actor : Actor) (path : List ℕ)
        → is_held history (name_of (removed history actor path)) ≡ false → change_format.Fits (removed history actor path)
        → MayCome history (removed history actor path) }
{}

/// A change that knows all heads is not held itself, so a daemon never makes a change that it holds.
pub fn own_changes_are_new()
    ensures { (history : History) → IsGrown history → (name : Name) (change : Change) → change.deps ≡ heads_of history
        → change_at history name ≢ Some change }
{}

/// The winner of a path is that of each directory that was told just the makes and the removes of the history.
pub fn a_winner_is_that_of_the_directory()
    ensures { (history : History) (directory : DirectoryView) → IsDirectoryOf history directory → (path : List ℕ)
        → IsWinner directory path (winner_at history path) }
{}
