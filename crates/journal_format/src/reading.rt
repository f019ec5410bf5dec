//! Reads records and groups. A reader of a field takes the bytes to the end and answers the value with the bytes
//! behind it.
ghost use Rattle.std.specs.Prelude.{◌≡◌, IfErr};
ghost use Rattle.byte_format.specs.Format.{whole};
ghost use Rattle.byte_format.specs.Lists.{to_end};
ghost use Rattle.byte_format.specs.Parts.{pair};
ghost use Rattle.byte_format.specs.Values.{path_field};
ghost use Rattle.byte_format.specs.Read.{GivesExactly};
ghost use Rattle.journal_format.specs.Parts.{encoding_of};
ghost use Rattle.change_codec.specs.Encoding.{change_format};
ghost use Rattle.journal_format.specs.Encoding.{known_field, note_field, body_of, record_field};
ghost use Rattle.journal_format.specs.Image.{group_field};
ghost use Rattle.journal_format.specs.Read.{Finds, WantsFor};

use crate::records::{Known, Note, Record};
use crate::unread::Unread;
use byte_format::{Kind, Outside, read_actor, read_path, read_u64};
use change_codec::{BadEncoding, read_change};
use std::alloc::Global;
use tt_base::{Blob, SharedPath};

#[tactic(auto, unfolding(crate::specs::Encoding::known_field))]
fn read_known(bytes: &[u8]) -> Result<(Known, &[u8]), Outside>
    ensures { GivesExactly (λ x. (x.0, x.1.now)) result (known_field.reads bytes.now) }
{
    match bytes {
        [] => Err(Outside::at(Kind::Short, bytes)),
        [0, rest @ ..] => Ok((Known::Absent, rest)),
        [1, rest @ ..] => match rest.split_first_chunk::<32>() {
            Some((digest, rest)) => Ok((Known::Digest(*digest), rest)),
            None => Err(Outside::at(Kind::Short, rest)),
        },
        [_, ..] => Err(Outside::at(Kind::Tag, bytes)),
    }
}

#[tactic(auto, unfolding(crate::specs::Encoding::note_field))]
fn read_note(bytes: &[u8]) -> Result<(Note, &[u8]), Outside>
    ensures { GivesExactly (λ x. (x.0, x.1.now)) result (note_field.reads bytes.now) }
{
    match bytes {
        [] => Err(Outside::at(Kind::Short, bytes)),
        [0, rest @ ..] => Ok((Note::Open, rest)),
        [1, rest @ ..] => {
            let (known, rest) = read_known(rest)?;
            Ok((Note::One(known), rest))
        }
        [2, rest @ ..] => {
            let (first, rest) = read_known(rest)?;
            let (second, rest) = read_known(rest)?;
            Ok((Note::Two(first, second), rest))
        }
        [_, ..] => Err(Outside::at(Kind::Tag, bytes)),
    }
}

/// The path and the note that all of the bytes are.
fn read_noted(alloc: Global, bytes: &[u8]) -> Result<(SharedPath, Note), Unread>
    ensures { Finds (λ x. (x.0, x.1)) result (whole (pair path_field note_field) bytes.now) }
{
    let (path, rest) = read_path(alloc, bytes)?;
    let (note, rest) = read_note(rest)?;
    if !rest.is_empty() {
        return Err(Unread::Outside);
    }
    Ok((path, note))
}

/// The bytes, where they encode a change.
fn read_encoding(alloc: Global, bytes: &[u8]) -> Result<Blob, Unread>
    ensures found { Finds (λ blob. blob) result (whole (encoding_of change_format) bytes.now) }
    // Other bytes are refused whatever memory there is.
    ensures wants { IfErr result (λ fault. WantsFor fault (whole (encoding_of change_format) bytes.now)) }
{
    match read_change(alloc, bytes) {
        Ok(_change) => Ok(Blob::from_vec(Vec::from_slice(alloc, bytes)?)),
        Err(BadEncoding::Memory) => Err(Unread::Memory),
        Err(BadEncoding::At(_, _)) => Err(Unread::Outside),
    }
}

/// The record of a kind that all of the bytes are the body of.
fn read_body(alloc: Global, kind: u8, bytes: &[u8]) -> Result<Record, Unread>
    ensures { Finds (λ record_read. record_read) result (whole (body_of kind) bytes.now) }
{
    match kind {
        1 => match read_actor(bytes)? {
            (actor, []) => Ok(Record::Actor(actor)),
            (_, [_, ..]) => Err(Unread::Outside),
        },
        2 => {
            let encoding = read_encoding(alloc, bytes)?;
            Ok(Record::Change(encoding))
        }
        3 => {
            let (path, note) = read_noted(alloc, bytes)?;
            Ok(Record::Note(path, note))
        }
        _ => Err(Unread::Outside),
    }
}

/// The first record of the bytes.
#[tactic(auto, unfolding(crate::specs::Encoding::record_field))]
fn read_record(alloc: Global, bytes: &[u8]) -> Result<(Record, &[u8]), Unread>
    ensures { Finds (λ x. (x.0, x.1.now)) result (record_field.reads bytes.now) }
{
    let [kind, rest @ ..] = bytes else {
        return Err(Unread::Outside);
    };
    let (len, rest) = read_u64(rest)?;
    if (rest.len() as u64) < len {
        return Err(Unread::Outside);
    }
    let (body, behind) = rest.split_at(len as usize);
    let record = read_body(alloc, *kind, body)?;
    Ok((record, behind))
}

/// The records that all of the bytes are, one behind the other.
fn read_records(alloc: Global, bytes: &[u8]) -> Result<Vec<Record>, Unread>
    ensures { Finds (λ records_read. records_read.items) result (to_end record_field bytes.now) }
{
    let mut records = Vec::new(alloc);
    let mut rest = bytes;
    while !rest.is_empty() {
        let (record, behind) = read_record(alloc, rest)?;
        records.push(record)?;
        rest = behind;
    }
    Ok(records)
}

/// The records of a group, from behind its gate on.
#[tactic(auto, unfolding(crate::specs::Image::group_field))]
pub(crate) fn read_group(alloc: Global, bytes: &[u8]) -> Result<(Vec<Record>, &[u8]), Unread>
    ensures { Finds (λ x. (x.0.items, x.1.now)) result (group_field.reads bytes.now) }
{
    let (len, rest) = read_u64(bytes)?;
    if (rest.len() as u64) < len {
        return Err(Unread::Outside);
    }
    let (front, behind) = rest.split_at(len as usize);
    let records = read_records(alloc, front)?;
    if records.is_empty() {
        return Err(Unread::Outside);
    }
    Ok((records, behind))
}
