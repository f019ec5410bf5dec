ghost use Rattle.std.specs.Prelude.{◌≡◌, ◌<◌, ◌≤◌, ◌++◌, ◌∷◌, [], length, take, drop, IfOk};
ghost use Rattle.delta.specs.Cells.{base_length};
ghost use Rattle.transform.specs.Carried.{IsChain, past_list, list_past};
ghost use Rattle.editor_bridge.specs.Frames.{frames};
ghost use Rattle.editor_bridge.specs.Carrying.{AreInTurn, StandsFor};

use crate::frames::{BridgeFrame, frames_of};
use delta::{Delta, compose};
use std::alloc::{AllocError, Global};
use transform::pass_list;
use tt_base::List;

/// Deltas that apply one after the other, as one delta.
///
/// Halves are composed with each other, so each change is copied as often as their number can be halved.
pub(crate) fn compose_all(alloc: Global, deltas: &[Delta]) -> Result<Delta, AllocError>
    requires some { 0 < length deltas.now }
    requires in_turn { AreInTurn deltas.now }
    ensures { IfOk result (StandsFor deltas.now) }
{
    if deltas.len() == 1 {
        return deltas[0].copied(alloc);
    }
    let (front, back) = deltas.split_at(deltas.len() / 2);
    let first = compose_all(alloc, front)?;
    let second = compose_all(alloc, back)?;
    compose(alloc, &first, &second)
}

/// The deltas that the editor has shown and then its own `p`, as one delta.
fn compose_with(alloc: Global, shown: &[Delta], p: &Delta) -> Result<Delta, AllocError>
    requires { AreInTurn (shown.now ++ p.now ∷ []) }
    ensures { IfOk result (StandsFor (shown.now ++ p.now ∷ [])) }
{
    if shown.is_empty() {
        p.copied(alloc)
    } else {
        let all = compose_all(alloc, shown)?;
        compose(alloc, &all, p)
    }
}

/// The deltas of a queue behind its first ones, in the queue's memory.
pub(crate) fn without_first(queue: List<Delta>, shown: usize) -> List<Delta>
    requires { shown ≤ length queue }
    ensures { result ≡ drop shown queue }
{
    let left = queue.len() - shown;
    let mut deltas = queue.into_vec();
    deltas.rotate_left(shown);
    deltas.truncate(left);
    List::from_vec(deltas)
}

/// What an editor's delta makes of a link.
#[derive(Debug, Drop)]
pub(crate) struct Carried {
    /// What happens to the base.
    pub(crate) change: Delta,
    /// The editor's delta past all that it had not shown.
    pub(crate) delta: Delta,
    /// All that it had not shown, past the editor's delta.
    pub(crate) queue: List<Delta>,
    /// The frames of these.
    pub(crate) again: List<BridgeFrame>,
}

/// Carries an editor's delta past the deltas of a queue but for the first ones, which it had shown.
pub(crate) fn carry(
    alloc: Global,
    queue: &[Delta],
    shown: usize,
    revision: u64,
    p: Delta,
) -> Result<Carried, AllocError>
    requires within { shown ≤ length queue.now }
    requires linked { AreInTurn (take shown queue.now ++ p ∷ []) }
    requires chain { IsChain (base_length p) (drop shown queue.now) }
    ensures change { IfOk result (λ c. StandsFor (take shown queue.now ++ p ∷ []) c.change) }
    ensures delta { IfOk result (λ c. c.delta ≡ past_list p (drop shown queue.now)) }
    ensures queue { IfOk result (λ c. c.queue ≡ list_past p (drop shown queue.now)) }
    ensures again { IfOk result (λ c. c.again ≡ frames revision (list_past p (drop shown queue.now))) }
{
    let change = compose_with(alloc, &queue[..shown], &p)?;
    let passed = pass_list(alloc, p, &queue[shown..])?;
    let again = frames_of(alloc, revision, passed.list.as_slice())?;
    Ok(Carried {
        change,
        delta: passed.delta,
        queue: passed.list,
        again,
    })
}
