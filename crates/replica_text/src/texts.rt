ghost use Rattle.std.specs.Prelude.{◌≡◌, ◌+◌, ◌^◌, ◌<◌, [], IfOk, OnOk};
ghost use Rattle.std.specs.List.{count_by};
ghost use Rattle.delta.specs.Cells.{applied, base_length};
ghost use Rattle.tt_base.specs.Elements.{is_alive};
ghost use Rattle.tt_base.specs.declared.elements.Element.{Element};
ghost use Rattle.replica_text.specs.Ids.{is_known};
ghost use Rattle.replica_text.specs.Tree.{Tree, IsTree, walk};
ghost use Rattle.replica_text.specs.Ops.{AllMayFollow, after_ops, all_known_after};
ghost use Rattle.replica_text.specs.Effect.{text_of, effect};
ghost use Rattle.replica_text.specs.Made.{made_ops, inserted_length, IsAbove};

use crate::joining::join_all;
use crate::making::ops_of_steps;
use delta::Delta;
use std::alloc::{AllocError, Global};
use std::marker::Model;
use tt_base::{ElemId, Elements, List, Text, TextOp};

/// A text as a history keeps it, seen as its elements in the full order, the deleted ones among them.
#[derive(Debug, Drop)]
pub struct ReplicaText<E: Elements> {
    elements: E,
}

impl<E: Elements> Model for ReplicaText<E> {
    ghost use Rattle.std.specs.Prelude.{List};
    ghost use Rattle.tt_base.specs.declared.elements.Element.{Element};

    ghost Value = { List Element };

    ghost view = { λ t. E.elements t.elements };
}

/// The characters of the elements that are visible.
fn visible_text<E: Elements>(alloc: Global, elements: &E) -> Result<Text, AllocError>
    ensures { IfOk result (λ text. text ≡ text_of (E.elements elements.now)) }
{
    let mut chars = Vec::new(alloc);
    for place in 0..elements.len() {
        let element = elements.at(place);
        if element.alive {
            chars.push(element.ch)?;
        }
    }
    Text::from_vec(alloc, chars)
}

impl<E: Elements> ReplicaText<E> {
    /// The text with no elements.
    pub fn new(alloc: Global) -> Result<ReplicaText<E>, AllocError>
        ensures { IfOk result (λ text. text ≡ []) }
    {
        Ok(ReplicaText {
            elements: E::empty(alloc)?,
        })
    }

    /// The visible text.
    pub fn text(&self, alloc: Global) -> Result<Text, AllocError>
        ensures { IfOk result (λ text. text ≡ text_of self.now) }
    {
        visible_text(alloc, &self.elements)
    }

    /// The number of characters of the visible text.
    pub fn alive(&self) -> usize
        ensures { result ≡ count_by is_alive self.now }
    {
        self.elements.alive()
    }

    /// Joins the operations, one after another, and answers what this changes in the visible text.
    ///
    /// Parents are not kept: whatever tree has the elements as its full order, the new full order is that of the tree with
    /// the operations. After want of memory the text is spent.
    pub fn join(&mut self, alloc: Global, ops: &[TextOp]) -> Result<Delta, AllocError>
        requires { AllMayFollow ops.now (is_known self.old) }
        ensures order { OnOk result ((tree : Tree) → IsTree tree → walk tree ≡ self.old → walk (after_ops ops.now tree) ≡ self.new) }
        ensures known { OnOk result (is_known self.new ≡ all_known_after ops.now (is_known self.old)) }
        ensures effect { IfOk result (λ delta. delta ≡ effect self.old self.new) }
        ensures leads { IfOk result (λ delta. applied delta (text_of self.old) ≡ text_of self.new) }
    {
        join_all(alloc, &mut self.elements, ops)
    }
    /// The operations of a change that makes the delta of the visible text, with new ids from `next` on: at each gap an
    /// insertion, and then a deletion, which runs on while its neighbours are deleted and their ids go on by 1.
    ///
    /// The name in `next` may be any, since its depth makes it greater than each id there. Joined to this text, the
    /// operations answer the delta.
    pub fn ops_of(
        &self,
        alloc: Global,
        delta: &Delta,
        next: ElemId,
    ) -> Result<List<TextOp>, AllocError>
        requires base { base_length delta.now ≡ count_by is_alive self.now }
        requires above { IsAbove next self.now }
        requires fits { next.index + inserted_length delta.now < 2 ^ 64 }
        ensures ops { IfOk result (λ ops. ops ≡ made_ops self.now delta.now next) }
        ensures may_follow { IfOk result (λ ops. AllMayFollow ops (is_known self.now)) }
        // The effect of a join of the operations is the delta, whatever list its clause on the full order makes the new one.
        ensures answers { IfOk result (λ ops. (new : List Element)
            → ((tree : Tree) → IsTree tree → walk tree ≡ self.now → walk (after_ops ops tree) ≡ new) → effect self.now new ≡ delta.now) }
    {
        let steps = delta.steps().as_slice();
        let ops = ops_of_steps(alloc, &self.elements, steps, next)?;
        Ok(List::from_vec(ops))
    }
}

#[cfg(test)]
mod tests;
