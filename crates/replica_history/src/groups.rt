ghost use Rattle.std.specs.Prelude.{◌≡◌, ◌∷◌, [], ◌++◌, if◌then◌else◌, OnOk};
ghost use Rattle.tt_base.specs.declared.ids.ElemId.{ElemId};
ghost use Rattle.replica_text.specs.Ids.{same};
ghost use Rattle.replica_history.specs.Groups.{group_at};

use std::alloc::{AllocError, Global};
use std::collections::BTreeMap;
use std::marker::Model;
use tt_base::{ElemId, List, TextOp};

/// Operations on texts, by the object that they are on.
#[derive(Debug, Drop)]
pub(crate) struct Groups {
    by_object: BTreeMap<ElemId, List<TextOp>>,
}

impl Model for Groups {
    ghost use Rattle.replica_history.specs.Groups.{GroupsView};

    ghost Value = { GroupsView };

    ghost view = { λ g. g.by_object.entries };
}

impl Groups {
    /// No operations.
    pub(crate) fn empty(alloc: Global) -> Groups
        ensures { result ≡ [] }
    {
        Groups {
            by_object: BTreeMap::new(alloc),
        }
    }

    /// The operations on an object, in order.
    pub(crate) fn ops(&self, object: &ElemId) -> &[TextOp]
        ensures { result.now ≡ group_at self.now object.now }
    {
        match self.by_object.get(object) {
            Some(ops) => ops.as_slice(),
            None => &[],
        }
    }

    /// Puts an operation behind the others on its object.
    pub(crate) fn push(
        &mut self,
        alloc: Global,
        object: ElemId,
        op: TextOp,
    ) -> Result<(), AllocError>
        ensures { OnOk result ((q : ElemId) → group_at self.new q ≡ group_at self.old q ++ (if same q object then op ∷ [] else [])) }
    {
        match self.by_object.get_mut(&object) {
            Some(ops) => ops.push(alloc, op),
            None => {
                let mut ops = Vec::new(alloc);
                ops.push(op)?;
                self.by_object.insert(object, List::from_vec(ops))?;
                Ok(())
            }
        }
    }
}
