ghost use Rattle.std.specs.Prelude.{◌≡◌, None, true, false, IfOk, OnOk};
ghost use Rattle.tt_base.specs.declared.ids.ElemId.{ElemId};
ghost use Rattle.replica_dir.specs.Ids.{is_id, has_id};
ghost use Rattle.replica_history.specs.Groups.{group_at};
ghost use Rattle.replica_history.specs.Texts.{kept_at};
ghost use Rattle.replica_history.specs.Joins.{MayJoin, IsJoinedOnce, IsJoinedIfTold, delta_at};

use crate::groups::Groups;
use crate::texts::Texts;
use delta::Delta;
use std::alloc::{AllocError, Global};
use std::collections::BTreeMap;
use tt_base::ElemId;

/// Joins its operations to the text of an object, unless that was done.
fn join_once(
    alloc: Global,
    texts: &mut Texts,
    groups: &Groups,
    deltas: &mut BTreeMap<ElemId, Delta>,
    object: &ElemId,
) -> Result<(), AllocError>
    requires { delta_at deltas.old.entries object.now ≡ None → MayJoin (kept_at texts.old object.now) (group_at groups.now object.now) }
    ensures joined { OnOk result (IsJoinedOnce (delta_at deltas.old.entries object.now) (kept_at texts.old object.now)
        (group_at groups.now object.now) (kept_at texts.new object.now) (delta_at deltas.new.entries object.now)) }
    ensures texts { OnOk result ((q : ElemId) → is_id object.now q ≡ false → kept_at texts.new q ≡ kept_at texts.old q) }
    ensures deltas { OnOk result ((q : ElemId) → is_id object.now q ≡ false → delta_at deltas.new.entries q ≡ delta_at deltas.old.entries q) }
{
    if deltas.contains_key(object) {
        return Ok(());
    }
    match texts.join(alloc, object, groups.ops(object))? {
        Some(delta) => {
            deltas.insert(*object, delta)?;
            Ok(())
        }
        None => Ok(()),
    }
}

/// Joins to the text of each of the objects the operations on it, and answers what this changes in each.
pub(crate) fn join_all(
    alloc: Global,
    texts: &mut Texts,
    groups: &Groups,
    objects: &[ElemId],
) -> Result<BTreeMap<ElemId, Delta>, AllocError>
    requires { (q : ElemId) → MayJoin (kept_at texts.old q) (group_at groups.now q) }
    ensures joined { IfOk result (λ deltas. (q : ElemId)
        → IsJoinedIfTold (kept_at texts.old q) (group_at groups.now q) (kept_at texts.new q) (delta_at deltas.entries q)) }
    ensures told { IfOk result (λ deltas. (q : ElemId) → delta_at deltas.entries q ≡ None → has_id objects.now q ≡ true → kept_at texts.old q ≡ None) }
{
    let mut deltas = BTreeMap::new(alloc);
    for object in objects {
        join_once(alloc, texts, groups, &mut deltas, object)?;
    }
    Ok(deltas)
}
