ghost use Rattle.std.specs.Prelude.{◌≡◌, ◌↔◌, ◌++◌, ◌∷◌, [], IsTrue, OnOk};
ghost use Rattle.std.specs.BTreeMap.{insert_entry};
ghost use Rattle.std.specs.Cmp.Lexicographic.{slice_cmp};
ghost use Rattle.std.specs.Ordering.{nat_cmp};
ghost use Rattle.journal_format.specs.declared.records.Record.TheVariants as records;
ghost use Rattle.replica_store.specs.Records.{note_at};

use change_journal::{Known, Note, Record};
use std::alloc::{AllocError, Global};
use std::collections::BTreeMap;
use tt_base::{List, SharedPath};

/// The note of a path, at first that it is known to be absent.
pub(crate) fn note_kept(notes: &BTreeMap<SharedPath, Note>, path: &SharedPath) -> Note
    ensures { result ≡ note_at notes.now.entries path.now }
{
    match notes.get(path) {
        Some(note) => *note,
        None => Note::One(Known::Absent),
    }
}

/// Whether this is the note of the path.
pub(crate) fn is_kept(notes: &BTreeMap<SharedPath, Note>, path: &SharedPath, note: &Note) -> bool
    ensures { IsTrue result ↔ (note_at notes.now.entries path.now ≡ note.now) }
{
    note_kept(notes, path) == *note
}

/// Keeps the note of a path, and stages its record.
pub(crate) fn keep_note(
    alloc: Global,
    notes: &mut BTreeMap<SharedPath, Note>,
    staged: &mut List<Record>,
    path: &SharedPath,
    note: Note,
) -> Result<(), AllocError>
    ensures notes { OnOk result (notes.new.entries ≡ insert_entry (slice_cmp nat_cmp) notes.old.entries path.now note) }
    ensures staged { OnOk result (staged.new ≡ staged.old ++ records.Note path.now note ∷ []) }
{
    let key = path.copied(alloc)?;
    let entry = Record::Note(path.copied(alloc)?, note);
    notes.insert(key, note)?;
    staged.push(alloc, entry)
}
