ghost use Rattle.std.specs.List.{AllByRecursion};
ghost use Rattle.journal_format.specs.Encoding.{HoldsEncoding};

use crate::measured::{Measured, ended};
use crate::records::note;
use anyhow::{Result, bail};
use change_journal::{Journal, Record, keeps_actor_first};
use outside::Disk;
use std::alloc::Global;
use std::time::{Clock, Instant};
use tt_base::Actor;

/// Appends a record, if the journal is live and the record may stand there.
fn append<D: Disk>(alloc: Global, journal: &mut Journal<D>, group: &[Record; 1]) -> Result<()>
    requires { AllByRecursion HoldsEncoding group.now }
{
    if !journal.is_live() || !keeps_actor_first(journal.records().as_slice(), group) {
        bail!("the record may not stand there");
    }
    journal.append(alloc, group)?;
    Ok(())
}

/// Appends so many records to the journal of an empty disk, and tells the length of the disk.
pub fn append_all<D: Disk + Drop>(
    rt: &(impl Clock + AllocGlobal),
    disk: D,
    count: usize,
) -> Result<Measured> {
    let alloc = rt.alloc();
    let Ok(mut journal) = Journal::open(alloc, disk) else {
        bail!("the journal is not opened");
    };
    append(alloc, &mut journal, &[Record::Actor(Actor([1; 16]))])?;
    let group = [note(alloc)?];
    let start = Instant::now(rt)?;
    for _ in 0..count {
        append(alloc, &mut journal, &group)?;
    }
    let mut disk = journal.into_disk();
    let bytes = disk.len()?;
    Ok(ended(rt, start, bytes)?)
}

/// The four calls of an append: of so many bytes behind a gate, and of the gate.
fn call<D: Disk>(alloc: Global, disk: &mut D, bytes: &[u8]) -> Result<()> {
    let end = disk.len()?;
    if end == 0 {
        bail!("there is no gate");
    }
    disk.write_at(alloc, end, bytes)?;
    disk.sync()?;
    disk.write_at(alloc, end - 1, &[1])?;
    disk.sync()?;
    Ok(())
}

/// Makes the calls of so many appends of records, and no journal.
pub fn call_all<D: Disk + Drop>(
    rt: &(impl Clock + AllocGlobal),
    disk: D,
    count: usize,
) -> Result<Measured> {
    let alloc = rt.alloc();
    let mut disk = disk;
    disk.write_at(alloc, 0, &[0])?;
    let bytes = journal_format::write_group(alloc, &[note(alloc)?])?;
    let start = Instant::now(rt)?;
    for _ in 0..count {
        call(alloc, &mut disk, bytes.as_slice())?;
    }
    let bytes = disk.len()?;
    Ok(ended(rt, start, bytes)?)
}
