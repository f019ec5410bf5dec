//! Appends a group in four counted calls: the group behind the closed gate, a sync, the gate, a sync.
//!
//! The group is on the disk before its gate is opened, and one byte opens the gate. So a crash finds the gate closed,
//! or open before the whole group, and nothing between.
ghost use Rattle.std.specs.Prelude.{◌≡◌, ◌+◌, ◌<◌, ◌≤◌, ◌^◌, ◌++◌, ℕ, List, length, replicate, OnOk, IsErrOf};
ghost use Rattle.outside.specs.Faults.{Rose};
ghost use Rattle.outside.specs.Moments.{LeavesNow, LeavesOnly};
ghost use Rattle.journal_format.specs.declared.records.Record.{Record};
ghost use Rattle.journal_format.specs.Image.{open_group, StandsFor};
ghost use Rattle.change_journal.specs.Journal.{Rests, AddsGroup, IsBeforeOrAfter, append_steps, AppendsSo};

use crate::faults::AppendFault;
use outside::Disk;
use std::alloc::Global;

/// Appends a group of records to a disk, behind the closed gate at this offset: writes what stands behind an open gate,
/// which is the group and a closed gate as `journal_format::write_group` spells them, and opens the gate.
pub(crate) fn append_group<D: Disk>(
    alloc: Global,
    disk: &mut D,
    gate: u64,
    bytes: &[u8],
) -> Result<(), AppendFault>
    requires room { gate + 1 < 2 ^ 64 }
    requires gate { (D.meaning disk.old).told → gate < length (D.meaning disk.old).seen }
    ensures steps { (D.meaning disk.old).told → AppendsSo (append_steps gate bytes.now) (D.meaning disk.old) (D.meaning disk.new) result }
    // At each moment each image stands for the records from before, and for none or all of the new ones.
    ensures moments { (recorded : List Record) (gates : List ℕ) (added : List Record)
        → AddsGroup (D.meaning disk.old) recorded gates gate added bytes.now
        → LeavesOnly (D.meaning disk.old) (D.meaning disk.new) (IsBeforeOrAfter recorded added) }
    // When it has answered, the disk rests at all of them, and the closed gate stands behind the group.
    ensures rests { (recorded : List Record) (gates : List ℕ) (added : List Record)
        → AddsGroup (D.meaning disk.old) recorded gates gate added bytes.now
        → OnOk result (Rests (D.meaning disk.new) (recorded ++ added) (gates ++ replicate (length added) gate) (gate + length (open_group added))) }
    // When it has answered, each image stands for all of them.
    ensures durable { (recorded : List Record) (gates : List ℕ) (added : List Record)
        → AddsGroup (D.meaning disk.old) recorded gates gate added bytes.now
        → OnOk result (LeavesNow (D.meaning disk.new) (λ image. StandsFor image (recorded ++ added))) }
    ensures plan { (D.meaning disk.new).plan ≡ (D.meaning disk.old).plan }
    ensures later { (D.meaning disk.old).faults ≤ (D.meaning disk.new).faults }
    ensures fault { IsErrOf result AppendFault.Fault → Rose (D.meaning disk.old).faults (D.meaning disk.new).faults }
{
    disk.write_at(alloc, gate + 1, bytes)?;
    disk.sync()?;
    disk.write_at(alloc, gate, &[1])?;
    Ok(disk.sync()?)
}
