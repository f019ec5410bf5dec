//! Appends records to a disk that rests at a journal.
ghost use Rattle.std.specs.Prelude.{◌≡◌, ◌+◌, ◌<◌, ◌≤◌, ◌^◌, ◌++◌, ℕ, List, Err, length, replicate, IsTrue, IfOk, OnOk, OnErr, MatchResult, IsErrOf};
ghost use Rattle.std.specs.List.{AllByRecursion};
ghost use Rattle.outside.specs.Faults.{Rose};
ghost use Rattle.outside.specs.Moments.{LeavesNow, LeavesOnly};
ghost use Rattle.journal_format.specs.Encoding.{HoldsEncoding};
ghost use Rattle.journal_format.specs.declared.records.Record.{Record};
ghost use Rattle.journal_format.specs.Image.{actor_is_first, open_group, StandsFor};
ghost use Rattle.change_journal.specs.Steps.{MadeAll};
ghost use Rattle.change_journal.specs.Journal.{Rests, IsBeforeOrAfter, appended, append_steps, AppendsSo};
ghost use Rattle.change_journal.specs.Held.{IsHeld};

use crate::faults::AppendFault;
use crate::writes::append_group;
use journal_format::{Contents, Record, write_group};
use outside::Disk;
use std::alloc::Global;

/// The offset of the closed gate behind an append of so many bytes at this one; it leaves room for a gate's own offset.
fn end_behind(gate: u64, appended: usize) -> Result<u64, AppendFault>
    ensures end { IfOk result (λ end. (end ≡ gate + appended) × (end + 1 < 2 ^ 64)) }
    ensures memory { OnErr result (result ≡ Err AppendFault.Memory) }
{
    match gate.checked_add(appended as u64) {
        Some(end) if end < u64::MAX => Ok(end),
        _ => Err(AppendFault::Memory),
    }
}

/// Appends records as one group to a journal on a disk, behind the closed gate at this offset, in bytes from 0, and
/// gives the offset of the closed gate behind them. Either all of them are kept or none.
///
/// Its four counted calls write the group behind the gate, sync, open the gate, which is one byte, and sync. While it
/// goes on, whatever a crash leaves stands for the records from before, and for none or all of the new ones, also where
/// a call fails; when it has answered Ok, for all of them. `Fault`: the disk failed at one of the four calls, and no
/// later one was made. `Memory`: there was none for the group, and then no call was made, or a write wanted it and was
/// not made, nor any call behind it. After either the disk is read again before more is appended.
pub(crate) fn append_records<D: Disk>(
    alloc: Global,
    disk: &mut D,
    gate: u64,
    records: &[Record],
) -> Result<u64, AppendFault>
    requires some { 0 < length records.now }
    requires encodings { AllByRecursion HoldsEncoding records.now }
    requires room { gate + 1 < 2 ^ 64 }
    requires gate { (D.meaning disk.old).told → gate < length (D.meaning disk.old).seen }
    ensures end { IfOk result (λ end. end ≡ gate + length (open_group records.now)) }
    ensures room_left { IfOk result (λ end. end + 1 < 2 ^ 64) }
    ensures steps { (D.meaning disk.old).told → MatchResult result
        (λ end. MadeAll (D.meaning disk.old) (D.meaning disk.new) (append_steps gate (appended records.now)))
        (λ fault. AppendsSo (append_steps gate (appended records.now)) (D.meaning disk.old) (D.meaning disk.new) (Err fault)) }
    // At each moment each image stands for the records from before, and for none or all of the new ones.
    ensures moments { (recorded : List Record) (gates : List ℕ)
        → Rests (D.meaning disk.old) recorded gates gate → IsTrue (actor_is_first (recorded ++ records.now))
        → LeavesOnly (D.meaning disk.old) (D.meaning disk.new) (IsBeforeOrAfter recorded records.now) }
    // When it has answered, each image stands for all of them.
    ensures durable { (recorded : List Record) (gates : List ℕ)
        → Rests (D.meaning disk.old) recorded gates gate → IsTrue (actor_is_first (recorded ++ records.now))
        → OnOk result (LeavesNow (D.meaning disk.new) (λ image. StandsFor image (recorded ++ records.now))) }
    // When it has answered, the disk rests at all of them, and the closed gate stands behind the group.
    ensures rests { (recorded : List Record) (gates : List ℕ)
        → Rests (D.meaning disk.old) recorded gates gate → IsTrue (actor_is_first (recorded ++ records.now))
        → OnOk result (Rests (D.meaning disk.new) (recorded ++ records.now) (gates ++ replicate (length records.now) gate) (gate + length (open_group records.now))) }
    ensures plan { (D.meaning disk.new).plan ≡ (D.meaning disk.old).plan }
    ensures later { (D.meaning disk.old).faults ≤ (D.meaning disk.new).faults }
    ensures fault { IsErrOf result AppendFault.Fault → Rose (D.meaning disk.old).faults (D.meaning disk.new).faults }
{
    let bytes = write_group(alloc, records)?;
    let end = end_behind(gate, bytes.len())?;
    append_group(alloc, disk, gate, bytes.as_slice())?;
    Ok(end)
}

/// Appends records as one group to a disk that keeps others, and holds them too. All memory but the disk's own is taken
/// before its first call. After a failure what is held says nothing of the disk.
pub(crate) fn append_held<D: Disk>(
    alloc: Global,
    disk: &mut D,
    contents: &mut Contents,
    added: &[Record],
) -> Result<(), AppendFault>
    requires held { IsHeld (D.meaning disk.old) contents.old.records contents.old.gates contents.old.end }
    requires some { 0 < length added.now }
    requires encodings { AllByRecursion HoldsEncoding added.now }
    requires actor { IsTrue (actor_is_first (contents.old.records ++ added.now)) }
    ensures records { OnOk result (contents.new.records ≡ contents.old.records ++ added.now) }
    ensures gates { OnOk result (contents.new.gates ≡ contents.old.gates ++ replicate (length added.now) contents.old.end) }
    ensures end { OnOk result (contents.new.end ≡ contents.old.end + length (open_group added.now)) }
    ensures held { OnOk result (IsHeld (D.meaning disk.new) contents.new.records contents.new.gates contents.new.end) }
    ensures moments { LeavesOnly (D.meaning disk.old) (D.meaning disk.new) (IsBeforeOrAfter contents.old.records added.now) }
    ensures durable { OnOk result (LeavesNow (D.meaning disk.new) (λ image. StandsFor image (contents.old.records ++ added.now))) }
    ensures steps { (D.meaning disk.old).told
        → AppendsSo (append_steps contents.old.end (appended added.now)) (D.meaning disk.old) (D.meaning disk.new) result }
    ensures plan { (D.meaning disk.new).plan ≡ (D.meaning disk.old).plan }
    ensures later { (D.meaning disk.old).faults ≤ (D.meaning disk.new).faults }
    ensures fault { IsErrOf result AppendFault.Fault → Rose (D.meaning disk.old).faults (D.meaning disk.new).faults }
{
    contents.hold_group(alloc, added)?;
    contents.end = append_records(alloc, disk, contents.end, added)?;
    Ok(())
}
