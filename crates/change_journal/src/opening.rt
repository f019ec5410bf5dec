//! Reads the journal of a disk, and gives an empty disk an empty journal.
ghost use Rattle.std.specs.Prelude.{◌≡◌, ◌≢◌, ◌≤◌, ◌<◌, ◌+◌, ◌^◌, ◌++◌, [], ◌∷◌, ℕ, List, length, IfOk, IfErr, IsErrOf, MatchOption, MatchResult};
ghost use Rattle.outside.specs.DiskCalls.{Elapses, IsUnchanged};
ghost use Rattle.outside.specs.Faults.{Rose};
ghost use Rattle.outside.specs.Images.{IsImage};
ghost use Rattle.outside.specs.Moments.{LeavesOnly};
ghost use Rattle.journal_format.specs.Image.{mark, IsPlaced};
ghost use Rattle.change_journal.specs.Journal.{AppendsSo};
ghost use Rattle.change_journal.specs.Opening.{empty_journal, opened, open_steps, IsRefused, FailsToOpen, FailsSo};
ghost use Rattle.change_journal.specs.Steps.{MadeAll};
ghost use Rattle.change_journal.specs.Faults.{journal_fault_for};
ghost use Rattle.change_journal.specs.Held.{IsHeld};

use crate::faults::{AppendFault, JournalFault};
use journal_format::{CLOSED_GATE, Contents, MARK, read_groups};
use outside::Disk;
use std::alloc::Global;

/// The bytes of a journal without records.
fn empty_journal() -> [u8; 5]
    ensures { result ≡ empty_journal }
{
    let [first, second, third, fourth] = MARK;
    [first, second, third, fourth, CLOSED_GATE]
}

/// Writes an empty journal to an empty disk.
fn begin<D: Disk>(alloc: Global, disk: &mut D) -> Result<(), AppendFault>
    ensures steps { (D.meaning disk.old).told → AppendsSo (open_steps []) (D.meaning disk.old) (D.meaning disk.new) result }
    ensures told { (D.meaning disk.new).told → (D.meaning disk.old).told }
    ensures keeps { (D.meaning disk.old).told → (D.meaning disk.new).told }
    ensures plan { (D.meaning disk.new).plan ≡ (D.meaning disk.old).plan }
    ensures later { (D.meaning disk.old).faults ≤ (D.meaning disk.new).faults }
    ensures fault { IsErrOf result AppendFault.Fault → Rose (D.meaning disk.old).faults (D.meaning disk.new).faults }
{
    disk.write_at(alloc, 0, &empty_journal())?;
    Ok(disk.sync()?)
}

/// Gives an empty disk an empty journal, and makes the disk keep what a read gives.
fn settle<D: Disk>(alloc: Global, disk: &mut D) -> Result<(), AppendFault>
    ensures steps { (D.meaning disk.old).told → MatchResult result
        (λ _. MadeAll (D.meaning disk.old) (D.meaning disk.new) (open_steps (D.meaning disk.old).seen))
        (λ fault. FailsSo (D.meaning disk.old) (D.meaning disk.new) (open_steps (D.meaning disk.old).seen) (journal_fault_for fault)) }
    // An opening cut short loses nothing: whatever a crash leaves might have been left before it.
    ensures moments { (D.meaning disk.old).told → (D.meaning disk.old).seen ≢ []
        → LeavesOnly (D.meaning disk.old) (D.meaning disk.new) (IsImage (D.meaning disk.old).synced (D.meaning disk.old).writes) }
    ensures told { (D.meaning disk.new).told → (D.meaning disk.old).told }
    ensures keeps { (D.meaning disk.old).told → (D.meaning disk.new).told }
    ensures plan { (D.meaning disk.new).plan ≡ (D.meaning disk.old).plan }
    ensures later { (D.meaning disk.old).faults ≤ (D.meaning disk.new).faults }
    ensures fault { IsErrOf result AppendFault.Fault → Rose (D.meaning disk.old).faults (D.meaning disk.new).faults }
{
    if disk.len()? == 0 {
        return begin(alloc, disk);
    }
    Ok(disk.sync()?)
}

/// All bytes of a disk.
fn read_all<D: Disk>(alloc: Global, disk: &mut D) -> Result<Vec<u8>, AppendFault>
    ensures bytes { (D.meaning disk.old).told → IfOk result (λ bytes. bytes.items ≡ (D.meaning disk.old).seen) }
    ensures unchanged { IsUnchanged (D.meaning disk.old) (D.meaning disk.new) }
    ensures elapses { Elapses (D.meaning disk.old) (D.meaning disk.new) }
    ensures fault { IsErrOf result AppendFault.Fault → Rose (D.meaning disk.old).faults (D.meaning disk.new).faults }
{
    let len = disk.len()?;
    let mut bytes = vec![in alloc; 0_u8; len as usize]?;
    disk.read_at(0, bytes.as_mut_slice())?;
    Ok(bytes)
}

/// What stands behind the mark, if the bytes begin with it.
fn behind_mark(bytes: &[u8]) -> Option<&[u8]>
    ensures { MatchOption result ((rest : List ℕ) → bytes.entry.now ≢ mark ++ rest) (λ behind. bytes.entry.now ≡ mark ++ behind.now) }
{
    bytes.strip_prefix(&MARK)
}

/// The records of these bytes.
fn read_journal(alloc: Global, bytes: &[u8]) -> Result<Contents, JournalFault>
    ensures placed { IfOk result (λ contents. IsPlaced bytes.now contents.records contents.gates contents.end) }
    ensures fault { IfErr result (λ fault. IsRefused bytes.now fault) }
{
    match behind_mark(bytes) {
        Some(behind) if !behind.is_empty() => Ok(read_groups(alloc, behind)?),
        _ => Err(JournalFault::NotAJournal),
    }
}

/// Reads the journal of a disk. An empty disk first gets an empty journal; any other is synced, so that a crash leaves what
/// was read, and nothing is written to it.
pub(crate) fn open_disk<D: Disk>(alloc: Global, disk: &mut D) -> Result<Contents, JournalFault>
    ensures placed { (D.meaning disk.old).told
        → IfOk result (λ contents. IsPlaced (opened (D.meaning disk.old).seen) contents.records contents.gates contents.end) }
    ensures held { IfOk result (λ contents. IsHeld (D.meaning disk.new) contents.records contents.gates contents.end) }
    ensures fault { IfErr result (λ fault. FailsToOpen (D.meaning disk.old) (D.meaning disk.new) fault) }
    ensures steps { (D.meaning disk.old).told → MatchResult result
        (λ _. MadeAll (D.meaning disk.old) (D.meaning disk.new) (open_steps (D.meaning disk.old).seen))
        (λ fault. FailsSo (D.meaning disk.old) (D.meaning disk.new) (open_steps (D.meaning disk.old).seen) fault) }
    ensures moments { (D.meaning disk.old).told → (D.meaning disk.old).seen ≢ []
        → LeavesOnly (D.meaning disk.old) (D.meaning disk.new) (IsImage (D.meaning disk.old).synced (D.meaning disk.old).writes) }
    ensures keeps { (D.meaning disk.old).told → (D.meaning disk.new).told }
    ensures plan { (D.meaning disk.new).plan ≡ (D.meaning disk.old).plan }
    ensures later { (D.meaning disk.old).faults ≤ (D.meaning disk.new).faults }
{
    settle(alloc, disk)?;
    let bytes = read_all(alloc, disk)?;
    read_journal(alloc, bytes.as_slice())
}
