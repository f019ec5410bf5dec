//! Reads all groups of a journal, from gate to gate.
ghost use Rattle.std.specs.Prelude.{◌≡◌, ◌≢◌, ◌+◌, ◌<◌, ◌≤◌, ◌^◌, ◌++◌, ◌∷◌, ℕ, List, not, length, replicate, IsTrue, OnOk, IfOk, IfErr, MatchOption, MatchResult, slice_index};
ghost use Rattle.std.specs.List.{list_any};
ghost use Rattle.journal_format.specs.Image as spec;
ghost use Rattle.journal_format.specs.Image.{mark, actor_is_first, IsPlaced};
ghost use Rattle.journal_format.specs.Progress.{IsReadTo, IsFault};
ghost use Rattle.journal_format.specs.declared.groups.BadGroups.TheVariants.{Memory};

use crate::reading::read_group;
use crate::records::Record;
use crate::unread::Unread;
use std::alloc::{AllocError, AllocFailed, Global};
use thiserror::Error;
use tt_base::List;

/// The first bytes of a journal.
pub const MARK: [u8; 4] = *b"TTJ1";

/// Why bytes behind the mark are no journal.
#[derive(Clone, Copy, Debug, PartialEq, Eq, Error)]
pub enum BadGroups {
    /// The open gate at this offset of the journal, in bytes from 0, is the first whose group is outside the
    /// grammar, or has no byte behind it.
    #[error("the group at byte {0} is no group of records")]
    BadRecord(u64),
    /// There was no memory for the records.
    #[error("out of memory")]
    Memory,
}

impl From<AllocError> for BadGroups {
    ghost from_gives = { λ _ fault. fault ≡ Memory };

    fn from(_error: AllocError) -> BadGroups {
        BadGroups::Memory
    }
}

impl<T: Drop> From<AllocFailed<T>> for BadGroups {
    ghost from_gives = { λ _ fault. fault ≡ Memory };

    fn from(_error: AllocFailed<T>) -> BadGroups {
        BadGroups::Memory
    }
}

/// What the bytes of a journal stand for.
#[derive(Debug, Drop)]
pub struct Contents {
    /// The records of all groups, in order.
    pub records: List<Record>,
    /// For each record the offset of its group's gate, in bytes from 0.
    pub gates: List<u64>,
    /// The offset of the closed gate.
    pub end: u64,
}

impl Contents {
    /// Holds copies of the records of a group whose gate is at the end. The end stays where it is.
    pub fn hold_group(&mut self, alloc: Global, entries: &[Record]) -> Result<(), AllocError>
        ensures records { OnOk result (self.new.records ≡ self.old.records ++ entries.now) }
        ensures gates { OnOk result (self.new.gates ≡ self.old.gates ++ replicate (length entries.now) self.old.end) }
        ensures end { self.new.end ≡ self.old.end }
    {
        let gate = self.end;
        for entry in entries {
            let copy = entry.copied(alloc)?;
            self.records.push(alloc, copy)?;
            self.gates.push(alloc, gate)?;
        }
        Ok(())
    }
}

/// What was read up to a gate.
#[derive(Drop)]
struct Progress {
    records: Vec<Record>,
    gates: Vec<u64>,
    end: u64,
}

fn is_actor(entry: &Record) -> bool
    ensures { result ≡ spec.is_actor entry.now }
{
    matches!(entry, Record::Actor(_))
}

fn has_actor(records: &[Record]) -> bool
    ensures { result ≡ list_any spec.is_actor records.now }
{
    records.iter().any(|entry| is_actor(entry))
}

/// Whether the actor's record stays the first and the only one with the added records behind the others.
#[tactic(auto, using(crate::proofs::ImageLaws::actor_behind))]
pub fn keeps_actor_first(before: &[Record], added: &[Record]) -> bool
    requires { IsTrue (actor_is_first before.now) }
    ensures { result ≡ actor_is_first (before.now ++ added.now) }
{
    match (before, added) {
        ([], []) => true,
        ([], [first, others @ ..]) => is_actor(first) && !has_actor(others),
        ([_, ..], _) => !has_actor(added),
    }
}

/// Notes the gate of each record of a group.
#[tactic(auto, using(crate::proofs::ImageLaws::replicate_more))]
fn push_gates(gates: &mut Vec<u64>, count: usize, gate: u64) -> Result<(), AllocError>
    ensures { OnOk result (gates.new.items ≡ gates.old.items ++ replicate count gate) }
{
    for _ in 0..count {
        gates.push(gate)?;
    }
    Ok(())
}

/// What stands behind the gate that begins the bytes, if it is open.
fn behind_open_gate(bytes: &[u8]) -> Option<&[u8]>
    requires { 0 < length bytes.now }
    ensures { MatchOption result (slice_index bytes.entry.now 0 ≢ 1) (λ behind. bytes.entry.now ≡ 1 ∷ behind.now) }
{
    match bytes {
        [1, behind @ ..] => Some(behind),
        _ => None,
    }
}

impl Progress {
    /// Reads the group behind an open gate, up to the next gate.
    fn read_next<'a>(&mut self, alloc: Global, behind: &'a [u8]) -> Result<&'a [u8], BadGroups>
        requires room { self.old.end + 1 + length behind.now < 2 ^ 64 }
        requires actor { IsTrue (actor_is_first self.old.records.items) }
        ensures read { (bytes : List ℕ) → IsReadTo bytes self.old.records.items self.old.gates.items self.old.end (1 ∷ behind.entry.now)
            → MatchResult result (λ rest. IsReadTo bytes self.new.records.items self.new.gates.items self.new.end rest.now)
            (λ fault. IsFault bytes fault) }
        ensures rest { IfOk result (λ rest. (0 < length rest.now) × (length rest.now ≤ length behind.entry.now)) }
    {
        let place = self.end;
        let (mut group, rest) = match read_group(alloc, behind) {
            Ok(read) => read,
            Err(Unread::Memory) => return Err(BadGroups::Memory),
            Err(Unread::Outside) => return Err(BadGroups::BadRecord(place)),
        };
        if rest.is_empty() || !keeps_actor_first(&self.records, &group) {
            return Err(BadGroups::BadRecord(place));
        }
        push_gates(&mut self.gates, group.len(), place)?;
        self.records.append(&mut group)?;
        self.end = place + 1 + (behind.len() - rest.len()) as u64;
        Ok(rest)
    }
}

/// Reads the groups of a journal from behind its mark, up to the closed gate.
pub fn read_groups(alloc: Global, bytes: &[u8]) -> Result<Contents, BadGroups>
    requires some { 0 < length bytes.now }
    requires room { length mark + length bytes.now < 2 ^ 64 }
    ensures placed { IfOk result (λ contents. IsPlaced (mark ++ bytes.now) contents.records contents.gates contents.end) }
    ensures fault { IfErr result (λ fault. IsFault (mark ++ bytes.now) fault) }
{
    let mut progress = Progress {
        records: Vec::new(alloc),
        gates: Vec::new(alloc),
        end: MARK.len() as u64,
    };
    let mut rest = bytes;
    while let Some(behind) = behind_open_gate(rest) {
        match progress.read_next(alloc, behind) {
            Ok(next) => rest = next,
            Err(fault) => return Err(fault),
        }
    }
    let Progress {
        records,
        gates,
        end,
    } = progress;
    Ok(Contents {
        records: List::from_vec(records),
        gates: List::from_vec(gates),
        end,
    })
}
