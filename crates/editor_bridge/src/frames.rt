ghost use Rattle.std.specs.Prelude.{◌≡◌, IfOk};
ghost use Rattle.editor_bridge.specs.Frames.{frames};

use delta::Delta;
use std::alloc::{AllocError, Global};
use tt_base::List;

/// One of the daemon's deltas on its way to the editor.
#[derive(Debug, Drop)]
pub struct BridgeFrame {
    /// How many of the editor's deltas the daemon had taken.
    pub revision: u64,
    /// What the editor is to show, on its text with all of those deltas and all earlier frames.
    pub delta: Delta,
}

/// A frame for each of the deltas.
pub(crate) fn frames_of(
    alloc: Global,
    revision: u64,
    deltas: &[Delta],
) -> Result<List<BridgeFrame>, AllocError>
    ensures { IfOk result (λ all. all ≡ frames revision deltas.now) }
{
    let mut all = Vec::new(alloc);
    for delta in deltas {
        let delta = delta.copied(alloc)?;
        all.push(BridgeFrame { revision, delta })?;
    }
    Ok(List::from_vec(all))
}
