//! A change is held, and its record staged.
ghost use Rattle.std.specs.Prelude.{◌≡◌, IsTrue, IfOk, IfErr};
ghost use Rattle.replica_disk.specs.Learning.{HoldsMore, HoldsNoMore, goes_on};

use change_codec::{Change, write_change};
use change_graph::GraphFault;
use change_journal::Record;
use replica_history::{Added, Effect, Replica, indices_fit};
use std::alloc::Global;
use tt_base::List;

/// What a change came to.
#[derive(Debug, Drop)]
pub enum Learnt {
    /// It was held before, and nothing changed.
    Repeat,
    /// It is held now, and this is what it does to the texts that are seen: each path with an effect once, in rising order.
    Added(List<Effect>),
}

/// Holds a change and stages its record, unless it is held. A change with 2^64 indices or more wants memory that there is not.
pub(crate) fn hold(
    alloc: Global,
    replica: &mut Replica,
    staged: &mut List<Record>,
    change: Change,
) -> Result<Learnt, GraphFault>
    requires live { IsTrue replica.old.live }
    ensures learnt { IfOk result (HoldsMore replica.old.history staged.old change replica.new.history staged.new) }
    ensures fault { IfErr result (HoldsNoMore replica.old.history staged.old change replica.new.history staged.new) }
    ensures live { IsTrue (goes_on result) → IsTrue replica.new.live }
{
    if !indices_fit(&change) {
        return Err(GraphFault::Memory);
    }
    let encoding = write_change(alloc, &change)?;
    match replica.add(alloc, change)? {
        Added::Repeat => Ok(Learnt::Repeat),
        Added::Effects(effects) => {
            staged.push(alloc, Record::Change(encoding))?;
            Ok(Learnt::Added(effects))
        }
    }
}

/// Whether a store is of use after this answer: unless memory ran out.
pub(crate) fn goes_on(answer: &Result<Learnt, GraphFault>) -> bool
    ensures { result ≡ goes_on answer.now }
{
    !matches!(answer, Err(GraphFault::Memory))
}
