//! Writes records and groups.
ghost use Rattle.std.specs.Prelude.{◌≡◌, ◌<◌, ◌++◌, [], ◌∷◌, length, OnOk, IfOk};
ghost use Rattle.std.specs.List.{flat_map, AllByRecursion};
ghost use Rattle.byte_format.specs.Format.{IsBytes};
ghost use Rattle.byte_format.specs.Values.{u64_field, path_field};
ghost use Rattle.journal_format.specs.Encoding.{known_field, note_field, record_field, HoldsEncoding};
ghost use Rattle.journal_format.specs.Image.{group_field};
ghost use Rattle.journal_format.specs.declared.records.Record.TheVariants as records;

use crate::records::{Known, Note, Record};
use byte_format::{put_path, put_u64};
use std::alloc::{AllocError, Global};
use tt_base::{Actor, Blob, SharedPath};

/// The gate behind the last group.
pub const CLOSED_GATE: u8 = 0;

#[tactic(auto, unfolding(crate::specs::Encoding::known_field))]
fn put_known(out: &mut Vec<u8>, known: Known) -> Result<(), AllocError>
    ensures bytes { OnOk result (out.new.items ≡ out.old.items ++ known_field.spelled known) }
    ensures fits { known_field.Fits known }
{
    match known {
        Known::Absent => {
            out.push(0)?;
            Ok(())
        }
        Known::Digest(digest) => {
            out.push(1)?;
            out.extend_from_slice(&digest)?;
            Ok(())
        }
    }
}

#[tactic(auto, unfolding(crate::specs::Encoding::note_field))]
fn put_note(out: &mut Vec<u8>, note: Note) -> Result<(), AllocError>
    ensures bytes { OnOk result (out.new.items ≡ out.old.items ++ note_field.spelled note) }
    ensures fits { OnOk result (note_field.Fits note) }
{
    match note {
        Note::Open => {
            out.push(0)?;
            Ok(())
        }
        Note::One(known) => {
            out.push(1)?;
            put_known(out, known)
        }
        Note::Two(first, second) => {
            out.push(2)?;
            put_known(out, first)?;
            put_known(out, second)
        }
    }
}

/// Writes the number of a kind, and the body behind its length.
fn put_body(out: &mut Vec<u8>, kind: u8, body: &[u8]) -> Result<(), AllocError>
    ensures { OnOk result (out.new.items ≡ out.old.items ++ kind ∷ (u64_field.spelled (length body.now) ++ body.now)) }
{
    out.push(kind)?;
    put_u64(out, body.len() as u64)?;
    out.extend_from_slice(body)?;
    Ok(())
}

/// Writes an actor's record.
#[tactic(auto, unfolding(crate::specs::Encoding::record_field, byte_format::specs::Values::u64_field, byte_format::specs::Values::actor_field))]
fn put_actor(out: &mut Vec<u8>, actor: Actor) -> Result<(), AllocError>
    ensures bytes { OnOk result (out.new.items ≡ out.old.items ++ record_field.spelled (records.Actor actor)) }
    ensures fits { record_field.Fits (records.Actor actor) }
{
    put_body(out, 1, &actor.0)
}

/// Writes a change's record.
#[tactic(auto, unfolding(crate::specs::Encoding::record_field))]
fn put_change(out: &mut Vec<u8>, encoding: &Blob) -> Result<(), AllocError>
    requires { HoldsEncoding (records.Change encoding.now) }
    ensures bytes { OnOk result (out.new.items ≡ out.old.items ++ record_field.spelled (records.Change encoding.now)) }
    ensures fits { record_field.Fits (records.Change encoding.now) }
{
    put_body(out, 2, encoding.as_slice())
}

/// What a slice holds are bytes.
fn are_bytes(bytes: &[u8])
    ensures { IsBytes bytes.now }
{
    let _len = bytes.len();
}

/// A path is what its field may hold.
fn path_fits(path: &SharedPath)
    ensures { path_field.Fits path.now }
{
    let text = path.as_str();
    are_bytes(text.as_bytes());
}

/// Writes the record of a note.
#[tactic(auto, unfolding(crate::specs::Encoding::record_field))]
fn put_noted(
    alloc: Global,
    out: &mut Vec<u8>,
    path: &SharedPath,
    note: Note,
) -> Result<(), AllocError>
    ensures bytes { OnOk result (out.new.items ≡ out.old.items ++ record_field.spelled (records.Note path.now note)) }
    ensures fits { OnOk result (record_field.Fits (records.Note path.now note)) }
{
    path_fits(path);
    let mut body = Vec::new(alloc);
    put_path(&mut body, path)?;
    put_note(&mut body, note)?;
    put_body(out, 3, body.as_slice())?;
    Ok(())
}

/// Writes a record.
fn put_record(alloc: Global, out: &mut Vec<u8>, entry: &Record) -> Result<(), AllocError>
    requires { HoldsEncoding entry.now }
    ensures bytes { OnOk result (out.new.items ≡ out.old.items ++ record_field.spelled entry.now) }
    ensures fits { OnOk result (record_field.Fits entry.now) }
{
    match entry {
        Record::Actor(actor) => put_actor(out, *actor)?,
        Record::Change(encoding) => put_change(out, encoding)?,
        Record::Note(path, note) => put_noted(alloc, out, path, *note)?,
    }
    Ok(())
}

/// Writes records, one behind the other.
fn put_records(alloc: Global, out: &mut Vec<u8>, entries: &[Record]) -> Result<(), AllocError>
    requires { AllByRecursion HoldsEncoding entries.now }
    ensures bytes { OnOk result (out.new.items ≡ out.old.items ++ flat_map record_field.spelled entries.now) }
    ensures fits { OnOk result (AllByRecursion record_field.Fits entries.now) }
{
    for entry in entries {
        put_record(alloc, out, entry)?;
    }
    Ok(())
}

/// What stands behind the gate of a group of these records, and then a closed gate.
#[tactic(auto, unfolding(crate::specs::Image::group_field))]
pub fn write_group(alloc: Global, entries: &[Record]) -> Result<Vec<u8>, AllocError>
    requires some { 0 < length entries.now }
    requires encodings { AllByRecursion HoldsEncoding entries.now }
    ensures bytes { IfOk result (λ bytes. bytes.items ≡ group_field.spelled entries.now ++ 0 ∷ []) }
    ensures fits { OnOk result (group_field.Fits entries.now) }
{
    let mut body = Vec::new(alloc);
    put_records(alloc, &mut body, entries)?;
    let mut out = Vec::new(alloc);
    put_u64(&mut out, body.len() as u64)?;
    out.extend_from_slice(body.as_slice())?;
    out.push(CLOSED_GATE)?;
    Ok(out)
}
