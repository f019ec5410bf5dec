//! What is staged goes to the disk.
ghost use Rattle.std.specs.Prelude.{◌≡◌, ◌≤◌, ◌++◌, [], Ok, IsTrue, OnOk, IsErrOf};
ghost use Rattle.std.specs.List.{AllByRecursion};
ghost use Rattle.outside.specs.Faults.{Rose};
ghost use Rattle.outside.specs.Moments.{LeavesNow, LeavesOnly};
ghost use Rattle.journal_format.specs.Encoding.{HoldsEncoding};
ghost use Rattle.journal_format.specs.Image.{actor_is_first, StandsFor};
ghost use Rattle.change_journal.specs.Journal.{IsBeforeOrAfter, AppendsSo};
ghost use Rattle.replica_store.specs.Calls.{IsWritten};
ghost use Rattle.replica_store.specs.Disk.{commit_steps};

use change_journal::{AppendFault, Journal, Record};
use outside::Disk;
use std::alloc::Global;

/// Appends what is staged, as one group, and nothing where nothing is.
pub(crate) fn append_staged<D: Disk>(
    alloc: Global,
    journal: &mut Journal<D>,
    staged: &[Record],
) -> Result<(), AppendFault>
    requires live { IsTrue journal.old.live }
    requires encodings { AllByRecursion HoldsEncoding staged.now }
    requires actor { IsTrue (actor_is_first (journal.old.records ++ staged.now)) }
    ensures written { OnOk result (IsWritten journal.old journal.new staged.now) }
    // Where nothing is staged no memory is asked for, and the disk is not touched.
    ensures nothing { staged.now ≡ [] → result ≡ Ok tt }
    ensures moments { LeavesOnly (D.meaning journal.old.disk) (D.meaning journal.new.disk) (IsBeforeOrAfter journal.old.records staged.now) }
    ensures durable { OnOk result (LeavesNow (D.meaning journal.new.disk) (λ image. StandsFor image (journal.old.records ++ staged.now))) }
    ensures steps { (D.meaning journal.old.disk).told
        → AppendsSo (commit_steps journal.old.end staged.now) (D.meaning journal.old.disk) (D.meaning journal.new.disk) result }
    ensures plan { (D.meaning journal.new.disk).plan ≡ (D.meaning journal.old.disk).plan }
    ensures later { (D.meaning journal.old.disk).faults ≤ (D.meaning journal.new.disk).faults }
    ensures fault { IsErrOf result AppendFault.Fault → Rose (D.meaning journal.old.disk).faults (D.meaning journal.new.disk).faults }
{
    if staged.is_empty() {
        let _records = journal.records();
        return Ok(());
    }
    journal.append(alloc, staged)
}
