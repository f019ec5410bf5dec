//! What holds of the insertion tree of a text. Each function has an empty body, and its contract is the law.
ghost use Rattle.std.specs.Prelude.{◌≡◌, Bool, List, [], Option, Some};
ghost use Rattle.tt_base.specs.Elements.{IsNew, AreDistinct};
ghost use Rattle.tt_base.specs.declared.ids.ElemId.{ElemId};
ghost use Rattle.tt_base.specs.declared.elements.Element.{Element};
ghost use Rattle.tt_base.specs.declared.text_ops.TextOp.{TextOp};
ghost use Rattle.replica_text.specs.Ids.{is_known};
ghost use Rattle.replica_text.specs.Tree.{Tree, Leaf, IsTree, walk, with_element, without};
ghost use Rattle.replica_text.specs.Ops.{MayBeParent, AllMayFollow, after_ops};
ghost use Rattle.replica_text.specs.Effect.{text_of};
ghost use Rattle.replica_text.specs.Laws.{AreApart, IsOrderOf, HasEdge, HaveEqualEdges, StandsBehind, IsRearranged};

/// A tree with a new element below an element that is less, or below the root, is a tree: siblings fall, and each id is
/// greater than its parent's.
pub fn with_an_element_it_is_a_tree()
    ensures { (parent : Option ElemId) (new : Element) (tree : Tree) → IsTree tree → IsNew new.id (walk tree)
        → MayBeParent parent new.id (is_known (walk tree)) → IsTree (with_element parent new tree) }
{}

/// Two elements of which neither is the other's parent may come in any order.
pub fn elements_come_in_any_order()
    ensures { (p q : Option ElemId) (one other : Element) (tree : Tree) → AreApart p one q other
        → with_element p one (with_element q other tree) ≡ with_element q other (with_element p one tree) }
{}

/// Two deletions may come in any order.
pub fn deletions_come_in_any_order()
    ensures { (a b : ElemId) (tree : Tree) → without a (without b tree) ≡ without b (without a tree) }
{}

/// An element, and the deletion of another one, may come in any order.
pub fn a_deletion_and_an_element_come_in_any_order()
    ensures { (id : ElemId) (parent : Option ElemId) (new : Element) (tree : Tree) → (id ≡ new.id → ⊥)
        → without id (with_element parent new tree) ≡ with_element parent new (without id tree) }
{}

/// Distinct elements are the full order of a tree, so there is one for each text.
pub fn distinct_elements_are_the_order_of_a_tree()
    ensures { (elements : List Element) → AreDistinct elements → IsOrderOf elements }
{}

/// A tree is fixed by its edges: no other tree has the same elements below the same parents, so they have one full order.
pub fn a_tree_is_fixed_by_its_edges()
    ensures { (one other : Tree) → IsTree one → IsTree other → AreDistinct (walk one) → AreDistinct (walk other) → HaveEqualEdges one other → one ≡ other }
{}

/// An element stands behind its parent in the full order.
pub fn an_element_stands_behind_its_parent()
    ensures { (tree : Tree) (parent : ElemId) (element : Element) → HasEdge tree (Some parent) element → StandsBehind parent element (walk tree) }
{}

/// Operations may come in any order in which they are possible: they leave one tree.
pub fn operations_come_in_any_order()
    ensures { (known : ElemId → Bool) (one other : List TextOp) (tree : Tree) → IsRearranged one other → AllMayFollow one known → AllMayFollow other known
        → after_ops one tree ≡ after_ops other tree }
{}

/// Two texts that hold the same operations show the same text, in whatever order these came.
pub fn equal_operations_show_one_text()
    ensures { (one other : List TextOp) → IsRearranged one other → AllMayFollow one (is_known []) → AllMayFollow other (is_known [])
        → text_of (walk (after_ops one Leaf)) ≡ text_of (walk (after_ops other Leaf)) }
{}
