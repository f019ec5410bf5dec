ghost use Rattle.std.specs.Prelude.{◌≡◌, IfOk};
ghost use Rattle.delta.specs.Cells.{base_length};
ghost use Rattle.transform.specs.Carried.{IsChain, past_list, list_past};

use crate::transforms::{pass_daemon, pass_editor};
use delta::Delta;
use std::alloc::{AllocError, Global};
use tt_base::List;

/// An editor's delta and a list of a daemon's, carried past each other.
#[derive(Debug, Drop)]
pub struct Passed {
    /// The editor's delta past all of the list.
    pub delta: Delta,
    /// Each of the list past the editor's delta as it was by then.
    pub list: List<Delta>,
}

/// Carries the editor's delta `p` past each of the daemon's list in turn, and each of the list past
/// `p` as it is by then.
pub fn pass_list(alloc: Global, p: Delta, list: &[Delta]) -> Result<Passed, AllocError>
    requires { IsChain (base_length p) list.now }
    ensures delta { IfOk result (λ passed. passed.delta ≡ past_list p list.now) }
    ensures list { IfOk result (λ passed. passed.list ≡ list_past p list.now) }
{
    let mut delta = p;
    let mut passed = Vec::new(alloc);
    for q in list {
        passed.push(pass_daemon(alloc, q, &delta)?)?;
        delta = pass_editor(alloc, &delta, q)?;
    }
    Ok(Passed {
        delta,
        list: List::from_vec(passed),
    })
}
