ghost use Rattle.std.specs.Prelude.{IfOk};
ghost use Rattle.journal_format.specs.Encoding.{HoldsEncoding};

use change_journal::{AppendFault, Journal, JournalFault, Note, Record, keeps_actor_first};
use outside::{Disk, Mode, Stops};
use outside_mem::{MemDisk, SureDisk};
use std::alloc::Global;
use std::process::Abort;
use std::test::Fail;
use tt_base::{Actor, Blob, List, SharedPath};

/// A journal with the record of an actor, which ends in a closed gate.
const JOURNAL: &str =
    "54544a310100000000000000190100000000000000100000000000000000000000000000000100";

/// The actor of that record.
const ACTOR: Actor = Actor([0, 0, 0, 0, 0, 0, 0, 0, 0, 0, 0, 0, 0, 0, 0, 1]);

/// The bytes that these digits write.
fn blob_of(rt: &(impl Abort + AllocGlobal), digits: &str) -> Result<Blob, Fail> {
    Ok(Blob::from_vec(hex::decode(rt.alloc(), digits)?))
}

/// A disk with these bytes, of which the calls with these numbers fail.
fn disk_of(
    rt: &(impl Abort + AllocGlobal),
    digits: &str,
    failing: &[u64],
) -> Result<MemDisk, Fail> {
    let failing = List::from_vec(Vec::from_slice(rt.alloc(), failing)?);
    Ok(MemDisk::new(rt.alloc(), blob_of(rt, digits)?, failing)?)
}

/// With how many records a disk is opened, or why it is not.
fn count<D: Disk + Drop>(alloc: Global, disk: D) -> Result<usize, JournalFault> {
    match Journal::open(alloc, disk) {
        Ok(journal) => Ok(journal.records().len()),
        Err(refusal) => Err(refusal.fault),
    }
}

/// Appends a record, if the journal is live and the record may stand there.
fn add<D: Disk>(
    alloc: Global,
    journal: &mut Journal<D>,
    added: Record,
) -> Option<Result<(), AppendFault>>
    requires { HoldsEncoding added }
{
    let group = [added];
    if !journal.is_live() || !keeps_actor_first(journal.records().as_slice(), &group) {
        return None;
    }
    Some(journal.append(alloc, &group))
}

/// A note of the path `f`.
fn note(alloc: Global) -> Result<Record, Fail>
    ensures { IfOk result (λ entry. HoldsEncoding entry) }
{
    let path = SharedPath::read(alloc, "f").ok().ok_or("no path")?;
    Ok(Record::Note(path, Note::Open))
}

/// The bytes of a disk.
fn content<D: Disk>(alloc: Global, disk: &mut D) -> Result<Vec<u8>, Fail> {
    let len = disk.len()?;
    let mut bytes = vec![in alloc; 0_u8; len as usize]?;
    disk.read_at(0, bytes.as_mut_slice())?;
    Ok(bytes)
}

#[test]
fn an_empty_disk_gets_a_journal(rt: HostRuntime) -> Result<(), Fail> {
    let disk = SureDisk::new(rt.alloc(), Blob::empty(rt.alloc())?)?;
    let mut journal = Journal::open(rt.alloc(), disk).ok().ok_or("not opened")?;
    let added = add(rt.alloc(), &mut journal, Record::Actor(ACTOR));
    assert_eq!(rt; added, Some(Ok(())));
    let mut disk = journal.into_disk();
    let expected = blob_of(&rt, JOURNAL)?;
    assert_eq!(rt;
        content(rt.alloc(), &mut disk)?.as_slice(),
        expected.as_slice()
    );
    Ok(())
}

#[test]
fn a_journal_is_opened_with_its_records(rt: HostRuntime) -> Result<(), Fail> {
    let opened = Journal::open(rt.alloc(), disk_of(&rt, JOURNAL, &[])?);
    let mut journal = opened.ok().ok_or("not opened")?;
    assert_eq!(rt;
        add(rt.alloc(), &mut journal, note(rt.alloc())?),
        Some(Ok(()))
    );
    assert!(rt; journal.is_live());
    assert_eq!(rt; journal.records().len(), 2);
    assert_eq!(rt; journal.place(0), 4);
    assert_eq!(rt; journal.place(1), 38);
    Ok(())
}

#[test]
fn bytes_are_no_journal(rt: HostRuntime) -> Result<(), Fail> {
    for (digits, expected) in [
        ("54544a31", Err(JournalFault::NotAJournal)),
        ("54544a3200", Err(JournalFault::NotAJournal)),
        ("54544a3100", Ok(0)),
        ("54544a3102ff", Ok(0)),
        (
            "54544a3101000000000000000000",
            Err(JournalFault::BadRecord(4)),
        ),
    ] {
        assert_eq!(rt; count(rt.alloc(), disk_of(&rt, digits, &[])?), expected);
    }
    Ok(())
}

/// What a journal that ends behind so many of its bytes is opened as.
fn count_cut(
    rt: &(impl Abort + AllocGlobal),
    bytes: &[u8],
    cut: usize,
) -> Result<Result<usize, JournalFault>, Fail> {
    let front = Vec::from_slice(rt.alloc(), &bytes[..cut.min(bytes.len())])?;
    let disk = SureDisk::new(rt.alloc(), Blob::from_vec(front))?;
    Ok(count(rt.alloc(), disk))
}

#[test]
fn a_journal_cut_at_any_byte_is_refused(rt: HostRuntime) -> Result<(), Fail> {
    let whole = blob_of(&rt, JOURNAL)?;
    for cut in 1..5 {
        let expected = Err(JournalFault::NotAJournal);
        assert_eq!(rt; count_cut(&rt, whole.as_slice(), cut)?, expected);
    }
    for cut in 5..39 {
        let expected = Err(JournalFault::BadRecord(4));
        assert_eq!(rt; count_cut(&rt, whole.as_slice(), cut)?, expected);
    }
    assert_eq!(rt; count_cut(&rt, whole.as_slice(), 39)?, Ok(1));
    Ok(())
}

/// How many records are left when an append is stopped at its k-th call.
fn left_behind(
    rt: &(impl Abort + AllocGlobal),
    k: u64,
    mode: Mode,
) -> Result<Result<usize, JournalFault>, Fail> {
    let mut disk = disk_of(rt, JOURNAL, &[])?;
    disk.arm(k.saturating_add(1), mode);
    let mut journal = Journal::open(rt.alloc(), disk).ok().ok_or("not opened")?;
    let added = add(rt.alloc(), &mut journal, note(rt.alloc())?);
    assert_eq!(rt; added, Some(Err(AppendFault::Fault)));
    assert!(rt; !journal.is_live());
    let mut disk = journal.into_disk();
    disk.restart(rt.alloc())?;
    Ok(count(rt.alloc(), disk))
}

#[test]
fn a_stopped_append_keeps_none_or_all(rt: HostRuntime) -> Result<(), Fail> {
    for k in 1..5 {
        assert_eq!(rt; left_behind(&rt, k, Mode::Lost)?, Ok(1));
        assert_eq!(rt; left_behind(&rt, k, Mode::Torn)?, Ok(1));
        let kept = if k < 3 { 1 } else { 2 };
        assert_eq!(rt; left_behind(&rt, k, Mode::Kept)?, Ok(kept));
    }
    Ok(())
}

#[test]
fn a_disk_that_fails_is_given_back(rt: HostRuntime) -> Result<(), Fail> {
    let failing = disk_of(&rt, JOURNAL, &[1])?;
    assert_eq!(rt; count(rt.alloc(), failing), Err(JournalFault::Fault));
    let opened = Journal::open(rt.alloc(), disk_of(&rt, JOURNAL, &[5])?);
    let mut journal = opened.ok().ok_or("not opened")?;
    let added = add(rt.alloc(), &mut journal, note(rt.alloc())?);
    assert_eq!(rt; added, Some(Err(AppendFault::Fault)));
    assert_eq!(rt; count(rt.alloc(), journal.into_disk()), Ok(1));
    Ok(())
}

#[test]
fn faults_say_why(rt: HostRuntime) -> Result<(), Fail> {
    for (fault, text) in [
        (JournalFault::NotAJournal, "no journal"),
        (
            JournalFault::BadRecord(38),
            "the group at byte 38 is no group of records",
        ),
        (JournalFault::Fault, "the disk failed"),
        (JournalFault::Memory, "out of memory"),
    ] {
        assert_eq!(rt; format!(in rt.alloc(); "{fault}")?.as_str(), text);
    }
    for (fault, text) in [
        (AppendFault::Fault, "the disk failed"),
        (AppendFault::Memory, "out of memory"),
    ] {
        assert_eq!(rt; format!(in rt.alloc(); "{fault}")?.as_str(), text);
    }
    Ok(())
}
