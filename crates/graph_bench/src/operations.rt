//! The operations that are measured.

use crate::histories::History;
use anyhow::{Result, bail};
use change_codec::{read_change, write_change};
use change_graph::Graph;
use std::alloc::Global;
use tt_base::Name;

/// The graph of copies of the changes.
fn graph_of(alloc: Global, history: &History) -> Result<Graph> {
    let mut graph = Graph::new(alloc);
    for change in &history.changes {
        let _note = graph.add(alloc, change.copied(alloc)?)?;
    }
    Ok(graph)
}

/// The number of changes of graphs that are made of the history, and of the heads of the last one.
fn add(alloc: Global, history: &History, count: usize) -> Result<(usize, usize)> {
    let mut told = (0, 0);
    for _ in 0..count {
        let graph = graph_of(alloc, history)?;
        told = (graph.count(), graph.heads(alloc)?.len());
    }
    Ok(told)
}

/// The first and the last name.
fn ends_of(history: &History) -> Result<(Name, Name)> {
    match (history.names.first(), history.names.last()) {
        (Some(first), Some(last)) => Ok((*first, *last)),
        _ => bail!("the history has no changes"),
    }
}

/// How often the first change is an ancestor of the last.
fn is_ancestor(alloc: Global, history: &History, count: usize) -> Result<(usize, usize)> {
    let graph = graph_of(alloc, history)?;
    let (first, last) = ends_of(history)?;
    let mut found = 0usize;
    for _ in 0..count {
        found = found.saturating_add(graph.is_ancestor(alloc, &first, &last)? as usize);
    }
    Ok((graph.count(), found))
}

/// The number of changes between the first and the last.
fn between(alloc: Global, history: &History, count: usize) -> Result<(usize, usize)> {
    let graph = graph_of(alloc, history)?;
    let (first, last) = ends_of(history)?;
    let mut found = 0;
    for _ in 0..count {
        found = graph.between(alloc, &[last], &[first])?.len();
    }
    Ok((graph.count(), found))
}

/// The bytes of the encodings, and the operations that are read of them.
fn read(alloc: Global, history: &History, count: usize) -> Result<(usize, usize)> {
    let mut told = (0usize, 0usize);
    for _ in 0..count {
        told = (0, 0);
        for encoding in &history.encodings {
            let change = read_change(alloc, encoding.as_slice())?;
            told.0 = told.0.saturating_add(encoding.len());
            told.1 = told.1.saturating_add(change.ops().len());
        }
    }
    Ok(told)
}

/// The bytes of the encodings that are written, and the number of changes.
fn write(alloc: Global, history: &History, count: usize) -> Result<(usize, usize)> {
    let mut bytes = 0usize;
    for _ in 0..count {
        bytes = 0;
        for change in &history.changes {
            bytes = bytes.saturating_add(write_change(alloc, change)?.len());
        }
    }
    Ok((bytes, history.changes.len()))
}

/// Runs the operation so often. What came out of the last run is two numbers.
pub fn run(
    alloc: Global,
    operation: &str,
    history: &History,
    count: usize,
) -> Result<(usize, usize)> {
    match operation {
        "add" => add(alloc, history, count),
        "is_ancestor" => is_ancestor(alloc, history, count),
        "between" => between(alloc, history, count),
        "read" => read(alloc, history, count),
        "write" => write(alloc, history, count),
        _ => bail!("there is no operation {operation}"),
    }
}
