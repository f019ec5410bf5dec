//! The history of a disk in memory: what it began with, and every write since.
//!
//! A sync adds nothing: it is kept as a mark on the write that comes after it, and until then as one of the
//! history. So a sync takes no memory, and each state that the disk ever had can still be told.
ghost use Rattle.std.specs.Prelude.{◌≡◌, ◌-◌, length, drop, fold, map, IfOk, OnOk, OnErr};
ghost use Rattle.outside.specs.Images.{overwritten, torn, left_by};
ghost use Rattle.outside_mem.specs.DiskHistory.{begun, seen_of, writes_of, with_write, with_sync, content_after};
ghost use Rattle.outside_mem.specs.Replayed.{tried_of, write_of, HasReplayed};

use crate::overwrites::{overwrite, torn_bytes};
use outside::Mode;
use std::alloc::{AllocError, Global};
use std::marker::Model;
use tt_base::Blob;

/// A write that was tried.
#[derive(Debug, Drop)]
pub(crate) struct Entry {
    place: u64,
    bytes: Blob,
    /// Whether it was made; else it failed.
    made: bool,
    /// Whether a sync that succeeded came between the write before and this one, or before this first one.
    behind_sync: bool,
}

/// What a disk began with, its writes, and what a read gives.
#[derive(Debug, Drop)]
pub(crate) struct History {
    began: Blob,
    entries: Vec<Entry>,
    bytes: Vec<u8>,
    /// Whether a write was tried since the last sync that succeeded.
    unsynced: bool,
}

impl Model for History {
    ghost use Rattle.std.specs.Prelude.{◌≡◌};
    ghost use Rattle.outside_mem.specs.DiskHistory.{DiskHistory, seen_of};
    ghost use Rattle.outside_mem.specs.Replayed.{replayed};

    ghost Value = { DiskHistory };

    ghost view = { λ h. replayed h.began h.entries.items h.unsynced };

    ghost invariant = { λ h. h.bytes.items ≡ seen_of (replayed h.began h.entries.items h.unsynced).present };
}

/// Makes these writes, but for those that failed.
fn make_all(content: &mut Vec<u8>, entries: &[Entry]) -> Result<(), AllocError>
    ensures { OnOk result (content.new.items ≡ fold content_after content.old.items (map tried_of entries.now)) }
{
    for entry in entries {
        if entry.made {
            overwrite(content, entry.place, entry.bytes.as_slice())?;
        }
    }
    Ok(())
}

/// Makes these writes, those that failed too.
fn keep_all(content: &mut Vec<u8>, entries: &[Entry]) -> Result<(), AllocError>
    ensures { OnOk result (content.new.items
        ≡ fold overwritten content.old.items (map write_of entries.now)) }
{
    for entry in entries {
        overwrite(content, entry.place, entry.bytes.as_slice())?;
    }
    Ok(())
}

/// Makes the first half of each of these writes.
fn tear_all(alloc: Global, content: &mut Vec<u8>, entries: &[Entry]) -> Result<(), AllocError>
    ensures { OnOk result (content.new.items
        ≡ fold overwritten content.old.items (map torn (map write_of entries.now))) }
{
    for entry in entries {
        let bytes = torn_bytes(alloc, entry.bytes.as_slice())?;
        overwrite(content, entry.place, bytes.as_slice())?;
    }
    Ok(())
}

/// What a read gave after the last sync among these writes, and how many came before that sync.
fn replay(alloc: Global, began: &[u8], entries: &[Entry]) -> Result<(Vec<u8>, usize), AllocError>
    ensures { IfOk result (λ replayed. HasReplayed began.now entries.now replayed.0.items replayed.1) }
{
    let mut content = began.to_vec(alloc)?;
    let mut begin = 0;
    for (place, entry) in entries.iter().enumerate() {
        if entry.behind_sync {
            make_all(&mut content, &entries[begin..place])?;
            begin = place;
        }
    }
    Ok((content, begin))
}

impl History {
    /// A disk that begins with these bytes.
    pub(crate) fn new(alloc: Global, bytes: Blob) -> Result<History, AllocError>
        ensures { IfOk result (λ history. history ≡ begun bytes) }
    {
        let began = Blob::from_vec(bytes.as_slice().to_vec(alloc)?);
        Ok(History {
            began,
            entries: Vec::new(alloc),
            bytes: bytes.into_vec(),
            unsynced: false,
        })
    }

    /// What a read gives.
    pub(crate) fn bytes(&self) -> &[u8]
        ensures { result.now ≡ seen_of self.now.present }
    {
        self.bytes.as_slice()
    }

    /// Adds a write that is made, or that fails. After want of memory nothing is changed.
    pub(crate) fn write(
        &mut self,
        alloc: Global,
        place: u64,
        bytes: &[u8],
        made: bool,
    ) -> Result<(), AllocError>
        ensures ok { OnOk result (self.new ≡ with_write self.old
            (record { write = record { place = place; bytes = bytes.now }; made = made })) }
        ensures err { OnErr result (self.new ≡ self.old) }
    {
        let entry = Entry {
            place,
            bytes: Blob::from_vec(bytes.to_vec(alloc)?),
            made,
            behind_sync: !self.unsynced,
        };
        self.entries.push(entry)?;
        if made {
            if let Err(error) = overwrite(&mut self.bytes, place, bytes) {
                let _ = self.entries.pop();
                return Err(error);
            }
        }
        self.unsynced = true;
        Ok(())
    }

    /// A sync that succeeds.
    pub(crate) fn sync(&mut self)
        ensures { self.new ≡ with_sync self.old }
    {
        self.unsynced = false;
    }

    /// The image that a stop leaves in this mode.
    pub(crate) fn left_by(&self, alloc: Global, mode: Mode) -> Result<Vec<u8>, AllocError>
        ensures { IfOk result (λ left. left.items ≡ left_by mode self.now.present.synced (writes_of self.now.present)) }
    {
        if !self.unsynced {
            return self.bytes.as_slice().to_vec(alloc);
        }
        let (mut content, begin) = replay(alloc, self.began.as_slice(), self.entries.as_slice())?;
        let pending = &self.entries[begin..];
        match mode {
            Mode::Lost => {}
            Mode::Kept => keep_all(&mut content, pending)?,
            Mode::Torn => tear_all(alloc, &mut content, pending)?,
        }
        Ok(content)
    }
}
