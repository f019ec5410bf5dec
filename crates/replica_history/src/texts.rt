ghost use Rattle.std.specs.Prelude.{◌≡◌, [], ◌∷◌, Some, length, true, false, option_copied, IfOk, OnOk, if◌then◌else◌};
ghost use Rattle.std.specs.Option.{option_map};
ghost use Rattle.tt_base.specs.declared.ids.ElemId.{ElemId};
ghost use Rattle.replica_dir.specs.Ids.{is_id};
ghost use Rattle.replica_text.specs.Effect.{text_of};
ghost use Rattle.replica_history.specs.Texts.{kept_at, kept_of, begun, elements_in, elements_of_winner};
ghost use Rattle.replica_history.specs.Joins.{MayJoin, IsJoined};

use crate::deeds::Made;
use delta::Delta;
use replica_text::{ListElements, ReplicaText};
use std::alloc::{AllocError, Global};
use std::collections::BTreeMap;
use std::marker::Model;
use tt_base::{ElemId, SharedPath, Text, TextOp};

/// The path and the text of an object.
#[derive(Debug, Drop)]
struct KeptText {
    path: SharedPath,
    text: ReplicaText<ListElements>,
}

/// The objects that were made, each with its path and its text.
#[derive(Debug, Drop)]
pub(crate) struct Texts {
    by_object: BTreeMap<ElemId, KeptText>,
}

impl Model for Texts {
    ghost use Rattle.replica_history.specs.Texts.{TextsView};

    ghost Value = { TextsView };

    ghost view = { λ t. t.by_object.entries };
}

impl Texts {
    /// No objects.
    pub(crate) fn empty(alloc: Global) -> Texts
        ensures { result ≡ [] }
    {
        Texts {
            by_object: BTreeMap::new(alloc),
        }
    }

    /// The path at which the object was made.
    pub(crate) fn path(&self, object: &ElemId) -> Option<&SharedPath>
        ensures { option_copied result ≡ option_map (λ kept. kept.path) (kept_at self.now object.now) }
    {
        match self.by_object.get(object) {
            Some(kept) => Some(&kept.path),
            None => None,
        }
    }

    /// The text of an object.
    pub(crate) fn object(&self, object: &ElemId) -> Option<&ReplicaText<ListElements>>
        ensures { option_copied result ≡ option_map (λ kept. kept.text) (kept_at self.now object.now) }
    {
        match self.by_object.get(object) {
            Some(kept) => Some(&kept.text),
            None => None,
        }
    }

    /// The length of the text of an object, and 0 where there is none.
    pub(crate) fn object_length(&self, object: &ElemId) -> usize
        ensures { result ≡ length (text_of (elements_in (kept_at self.now object.now))) }
    {
        match self.by_object.get(object) {
            Some(kept) => kept.text.alive(),
            None => 0,
        }
    }

    /// The length of the text of the object that is read, and 0 where none is.
    pub(crate) fn length(&self, winner: &Option<ElemId>) -> usize
        ensures { result ≡ length (text_of (elements_of_winner self.now winner.now)) }
    {
        match winner {
            Some(object) => self.object_length(object),
            None => 0,
        }
    }

    /// The text of an object, which is empty where there is none.
    pub(crate) fn object_text(&self, alloc: Global, object: &ElemId) -> Result<Text, AllocError>
        ensures { IfOk result (λ text. text ≡ text_of (elements_in (kept_at self.now object.now))) }
    {
        match self.by_object.get(object) {
            Some(kept) => kept.text.text(alloc),
            None => Text::from_vec(alloc, Vec::new(alloc)),
        }
    }

    /// The text of the object that is read, which is empty where none is.
    pub(crate) fn text(&self, alloc: Global, winner: &Option<ElemId>) -> Result<Text, AllocError>
        ensures { IfOk result (λ text. text ≡ text_of (elements_of_winner self.now winner.now)) }
    {
        match winner {
            Some(object) => self.object_text(alloc, object),
            None => Text::from_vec(alloc, Vec::new(alloc)),
        }
    }

    /// Puts in an object that is made, with an empty text.
    fn begin(&mut self, alloc: Global, made: &Made) -> Result<(), AllocError>
        ensures { OnOk result ((q : ElemId) → kept_at self.new q
            ≡ (if is_id made.now.object q then Some (kept_of made.now.path []) else kept_at self.old q)) }
    {
        let kept = KeptText {
            path: made.path.copied(alloc)?,
            text: ReplicaText::new(alloc)?,
        };
        self.by_object.insert(made.object, kept)?;
        Ok(())
    }

    /// Puts in the objects that are made, each with an empty text.
    pub(crate) fn begin_all(&mut self, alloc: Global, makes: &[Made]) -> Result<(), AllocError>
        ensures { OnOk result ((q : ElemId) → kept_at self.new q ≡ begun makes.now q (kept_at self.old q)) }
    {
        for made in makes {
            self.begin(alloc, made)?;
        }
        Ok(())
    }

    /// Joins operations to the text of an object, if there is such an object.
    pub(crate) fn join(
        &mut self,
        alloc: Global,
        object: &ElemId,
        ops: &[TextOp],
    ) -> Result<Option<Delta>, AllocError>
        requires { MayJoin (kept_at self.old object.now) ops.now }
        ensures joined { IfOk result (IsJoined (kept_at self.old object.now) ops.now (kept_at self.new object.now)) }
        ensures others { OnOk result ((q : ElemId) → is_id object.now q ≡ false → kept_at self.new q ≡ kept_at self.old q) }
    {
        let Some(kept) = self.by_object.get_mut(object) else {
            return Ok(None);
        };
        let delta = kept.text.join(alloc, ops)?;
        Ok(Some(delta))
    }
}
