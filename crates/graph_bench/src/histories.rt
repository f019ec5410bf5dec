//! The histories on which operations are measured.

use anyhow::{Result, bail};
use byte_format::{put_name, put_names, put_u64};
use change_codec::{Change, name_of, read_change};
use std::alloc::{AllocError, Global};
use tt_base::Name;

/// The mark of a change, and an actor.
const FRONT: &[u8] = b"TTC1\0\0\0\0\0\0\0\0\0\0\0\0\0\0\0\x01";

/// Makes a file at `f`.
const MAKE: &[u8] = b"\x01\0\x01f";
/// Inserts into what the same change makes first, at its root.
const INSERT_HERE: &[u8] = b"\x03\0\0\0\0\0\0\0\0\0\0";

/// Changes, each behind those that it depends on.
#[derive(Drop)]
pub struct History {
    pub encodings: Vec<Vec<u8>>,
    pub names: Vec<Name>,
    pub changes: Vec<Change>,
}

impl History {
    /// Puts a change with so many operations behind the others.
    fn push(&mut self, alloc: Global, deps: &[Name], count: u64, ops: &[u8]) -> Result<Name> {
        let mut bytes = Vec::from_slice(alloc, FRONT)?;
        put_u64(&mut bytes, self.names.len() as u64)?;
        put_names(&mut bytes, deps)?;
        put_u64(&mut bytes, count)?;
        bytes.extend_from_slice(ops)?;
        let name = name_of(bytes.as_slice());
        self.changes.push(read_change(alloc, bytes.as_slice())?)?;
        self.encodings.push(bytes)?;
        self.names.push(name)?;
        Ok(name)
    }
}

/// Writes a ref to this index of the change with the name.
fn put_there(out: &mut Vec<u8>, name: &Name, index: u64) -> Result<(), AllocError> {
    out.push(1)?;
    put_name(out, name)?;
    put_u64(out, index)
}

/// Writes an insertion of two characters into the first thing that the one change makes, behind what stands at this index
/// of the other.
fn put_insert(
    out: &mut Vec<u8>,
    object: &Name,
    change: &Name,
    index: u64,
) -> Result<(), AllocError> {
    out.push(3)?;
    put_there(out, object, 0)?;
    out.push(1)?;
    put_there(out, change, index)?;
    put_u64(out, 2)?;
    out.extend_from_slice(b"ab")?;
    Ok(())
}

/// So many of the last names, rising, behind so many that are left out where others stand before them.
fn last_names(
    alloc: Global,
    names: &[Name],
    skip: usize,
    count: usize,
) -> Result<Vec<Name>, AllocError> {
    let skip = skip.min(names.len().saturating_sub(1));
    let last = names.iter().rev().skip(skip).take(count);
    let mut last: Vec<Name> = last.copied().collect(alloc)?;
    last.sort()?;
    Ok(last)
}

/// A file is made with a text of so many characters, in one insertion.
fn push_file(alloc: Global, history: &mut History, size: usize) -> Result<Name> {
    let mut ops = Vec::from_slice(alloc, MAKE)?;
    ops.extend_from_slice(INSERT_HERE)?;
    put_u64(&mut ops, size as u64)?;
    ops.extend_from_slice("a".repeat(alloc, size)?.as_bytes())?;
    history.push(alloc, &[], 2, ops.as_slice())
}

/// So many changes. Each depends on so many of those before it, behind so many that it does not know of, and types behind
/// one of them.
fn push_typed(
    alloc: Global,
    history: &mut History,
    size: usize,
    skip: usize,
    count: usize,
) -> Result<()> {
    let file = push_file(alloc, history, 2)?;
    for _ in 1..size {
        let deps = last_names(alloc, history.names.as_slice(), skip, count)?;
        let mut ops = Vec::new(alloc);
        for parent in deps.iter().take(1) {
            put_insert(&mut ops, &file, parent, 1)?;
        }
        let _name = history.push(alloc, deps.as_slice(), 1, ops.as_slice())?;
    }
    Ok(())
}

/// A file, a change of so many insertions, and one of as many that each point into that change.
fn push_refs(alloc: Global, history: &mut History, size: usize) -> Result<()> {
    let file = push_file(alloc, history, 2)?;
    let mut ops = Vec::new(alloc);
    for _ in 0..size {
        put_insert(&mut ops, &file, &file, 1)?;
    }
    let long = history.push(alloc, &[file], size as u64, ops.as_slice())?;
    let mut ops = Vec::new(alloc);
    for index in 0..size {
        put_insert(&mut ops, &file, &long, index as u64)?;
    }
    let _last = history.push(alloc, &[long], size as u64, ops.as_slice())?;
    Ok(())
}

/// The history of this shape and size.
pub fn history_of(alloc: Global, shape: &str, size: usize) -> Result<History> {
    let mut history = History {
        encodings: Vec::new(alloc),
        names: Vec::new(alloc),
        changes: Vec::new(alloc),
    };
    match shape {
        "chain" => push_typed(alloc, &mut history, size, 0, 1)?,
        "ladder" => push_typed(alloc, &mut history, size, 0, 2)?,
        "fork" => push_typed(alloc, &mut history, size, 1, 1)?,
        "refs" => push_refs(alloc, &mut history, size)?,
        "text" => {
            let _file = push_file(alloc, &mut history, size)?;
        }
        _ => bail!("there is no shape {shape}"),
    }
    Ok(history)
}
