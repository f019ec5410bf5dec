ghost use Rattle.std.specs.Prelude.{◌≡◌, IfOk};

use crate::ops::Op;
use std::alloc::{AllocError, Global};
use std::marker::Model;
use tt_base::{Actor, List, Name};

/// A change: what one daemon did at one moment.
///
/// It has an encoding: the names of its dependencies rise strictly, no inserted text is empty, no count of
/// deleted characters is 0.
#[derive(Debug, Drop)]
pub struct Change {
    actor: Actor,
    seq: u64,
    deps: List<Name>,
    ops: List<Op>,
}

impl Model for Change {
    ghost use Rattle.change_codec.specs.Change.{Change};
    ghost use Rattle.change_codec.specs.Encoding.{change_format};

    ghost Value = { Change };

    ghost view = { λ c. record { actor = c.actor; seq = c.seq; deps = c.deps; ops = c.ops } };

    ghost invariant = { λ c. change_format.Fits (record { actor = c.actor; seq = c.seq; deps = c.deps; ops = c.ops }) };
}

impl Change {
    ghost use Rattle.change_codec.specs.Encoding.{change_format};
    ghost use Rattle.change_codec.specs.WellFormed.{IsWellFormed};

    /// The change with these parts, of which it must be possible to write an encoding.
    pub fn new(actor: Actor, seq: u64, deps: List<Name>, ops: List<Op>) -> Change
        requires { change_format.Fits (record { actor = actor; seq = seq; deps = deps; ops = ops }) }
        ensures { result ≡ record { actor = actor; seq = seq; deps = deps; ops = ops } }
    {
        Change {
            actor,
            seq,
            deps,
            ops,
        }
    }

    /// The daemon that made it. The change has an encoding, and so is well formed.
    #[tactic(auto, using(crate::proofs::WellFormedLaws::fitting_is_well_formed))]
    pub fn actor(&self) -> Actor
        ensures actor { result ≡ self.now.actor }
        ensures fits { change_format.Fits self.now }
        ensures well_formed { IsWellFormed self.now }
    {
        self.actor
    }

    /// The number that its maker gave it, the number of their changes up to it. Nothing is compared with it.
    pub fn seq(&self) -> u64
        ensures { result ≡ self.now.seq }
    {
        self.seq
    }

    /// The names of the changes that it knew as the last, strictly rising.
    pub fn deps(&self) -> &[Name]
        ensures { result.now ≡ self.now.deps }
    {
        self.deps.as_slice()
    }

    /// What it does, in order.
    pub fn ops(&self) -> &[Op]
        ensures { result.now ≡ self.now.ops }
    {
        self.ops.as_slice()
    }

    /// The same change in memory of its own.
    pub fn copied(&self, alloc: Global) -> Result<Change, AllocError>
        ensures { IfOk result (λ copy. copy ≡ self.now) }
    {
        let deps = Vec::from_slice(alloc, self.deps.as_slice())?;
        let ops = copied_ops(alloc, self.ops.as_slice())?;
        Ok(Change {
            actor: self.actor,
            seq: self.seq,
            deps: List::from_vec(deps),
            ops: List::from_vec(ops),
        })
    }
}

/// Copies of the operations, in order.
fn copied_ops(alloc: Global, ops: &[Op]) -> Result<Vec<Op>, AllocError>
    ensures { IfOk result (λ copies. copies.items ≡ ops.now) }
{
    let mut copies = Vec::new(alloc);
    for op in ops {
        copies.push(op.copied(alloc)?)?;
    }
    Ok(copies)
}
