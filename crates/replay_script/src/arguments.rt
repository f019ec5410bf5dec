//! The arguments of a line, shape by shape.
//!
//! All arguments that can be judged without memory are judged before any memory is asked for: so a line outside the
//! grammar is refused as such, whatever memory there is.

ghost use Rattle.std.specs.Prelude.{◌≡◌, [], ◌∷◌};
ghost use Rattle.std.specs.Option.{option_map};
ghost use Rattle.replay_script.specs.Arguments.{first_of, read_all, Number, Path, Contents};
ghost use Rattle.replay_script.specs.Arguments as spec;
ghost use Rattle.replay_script.specs.Lines.{asked_with};
ghost use Rattle.replay_script.specs.Reads.{Reads, ReadsAs};

use crate::contents::{Speaker, is_content, read_content, read_mode, read_speaker};
use crate::cuts::cut;
use crate::faults::LineFault;
use crate::moves::Move;
use crate::numbers::{is_hexadecimal, read_hexadecimal, read_number};
use crate::paths::read_path;
use crate::quotes::{is_text, read_text};
use crate::words::Word;
use std::alloc::Global;
use tt_base::{Blob, Content, SharedPath, Text};

/// The number that a text begins with, and what stands behind the space that ends it.
fn first_number(text: &str) -> Option<(u64, &str)>
    ensures { option_map (λ first. record { value = first.0; rest = first.1.now }) result ≡ first_of Number text.entry.now }
{
    let parts = cut(text)?;
    let number = read_number(parts.argument)?;
    Some((number, parts.rest))
}

fn two_numbers(text: &str) -> Option<(u64, u64)>
    ensures { option_map (λ values. (values.0, (values.1, tt))) result ≡ read_all (Number ∷ Number ∷ []) text.now }
{
    let (first, rest) = first_number(text)?;
    let second = read_number(rest)?;
    Some((first, second))
}

fn three_numbers(text: &str) -> Option<(u64, u64, u64)>
    ensures { option_map (λ values. (values.0, (values.1, (values.2, tt)))) result ≡ read_all (Number ∷ Number ∷ Number ∷ []) text.now }
{
    let (first, rest) = first_number(text)?;
    let (second, third) = two_numbers(rest)?;
    Some((first, second, third))
}

pub(crate) fn read_link(text: &str) -> Option<Move>
    ensures { result ≡ asked_with text.now Word.Link }
{
    let (from, to) = two_numbers(text)?;
    Some(Move::Link(from, to))
}

pub(crate) fn read_unlink(text: &str) -> Option<Move>
    ensures { result ≡ asked_with text.now Word.Unlink }
{
    let (from, to) = two_numbers(text)?;
    Some(Move::Unlink(from, to))
}

pub(crate) fn read_end(text: &str) -> Option<Move>
    ensures { result ≡ asked_with text.now Word.End }
{
    let (daemon, conn) = two_numbers(text)?;
    Some(Move::End(daemon, conn))
}

pub(crate) fn read_pass(text: &str) -> Option<Move>
    ensures { result ≡ asked_with text.now Word.Pass }
{
    let (from, to, frame) = three_numbers(text)?;
    Some(Move::Pass(from, to, frame))
}

pub(crate) fn read_copy(text: &str) -> Option<Move>
    ensures { result ≡ asked_with text.now Word.Copy }
{
    let (from, to, frame) = three_numbers(text)?;
    Some(Move::Copy(from, to, frame))
}

pub(crate) fn read_sync(text: &str) -> Option<Move>
    ensures { result ≡ asked_with text.now Word.Sync }
{
    let (from, to, most) = three_numbers(text)?;
    Some(Move::Sync(from, to, most))
}

/// A number and a path.
fn number_and_path(alloc: Global, text: &str) -> Result<(u64, SharedPath), LineFault>
    ensures { ReadsAs (λ values. (values.0, (values.1, tt))) result (read_all (Number ∷ Path ∷ []) text.now) }
{
    let Some((number, rest)) = first_number(text) else {
        return Err(LineFault::NotAMove);
    };
    let path = read_path(alloc, rest)?;
    Ok((number, path))
}

pub(crate) fn read_file(alloc: Global, text: &str) -> Result<Move, LineFault>
    ensures { Reads result (asked_with text.now Word.File) }
{
    let (daemon, path) = number_and_path(alloc, text)?;
    Ok(Move::File(daemon, path))
}

pub(crate) fn read_disk(alloc: Global, text: &str) -> Result<Move, LineFault>
    ensures { Reads result (asked_with text.now Word.Disk) }
{
    let (daemon, path) = number_and_path(alloc, text)?;
    Ok(Move::Disk(daemon, path))
}

/// A path and a content.
fn path_and_content(alloc: Global, text: &str) -> Result<(SharedPath, Content), LineFault>
    ensures { ReadsAs (λ values. (values.0, (values.1, tt))) result (read_all (Path ∷ Contents ∷ []) text.now) }
{
    let Some(parts) = cut(text) else {
        return Err(LineFault::NotAMove);
    };
    if !is_content(parts.rest) {
        return Err(LineFault::NotAMove);
    }
    let path = read_path(alloc, parts.argument)?;
    let content = read_content(alloc, parts.rest)?;
    Ok((path, content))
}

/// A number, a path and a content.
fn number_and_content(alloc: Global, text: &str) -> Result<(u64, SharedPath, Content), LineFault>
    ensures { ReadsAs (λ values. (values.0, (values.1, (values.2, tt)))) result (read_all (Number ∷ Path ∷ Contents ∷ []) text.now) }
{
    let Some((number, rest)) = first_number(text) else {
        return Err(LineFault::NotAMove);
    };
    let (path, content) = path_and_content(alloc, rest)?;
    Ok((number, path, content))
}

pub(crate) fn read_outside(alloc: Global, text: &str) -> Result<Move, LineFault>
    ensures { Reads result (asked_with text.now Word.Outside) }
{
    let (daemon, path, content) = number_and_content(alloc, text)?;
    Ok(Move::Outside(daemon, path, content))
}

pub(crate) fn read_report(alloc: Global, text: &str) -> Result<Move, LineFault>
    ensures { Reads result (asked_with text.now Word.Report) }
{
    let (daemon, path, content) = number_and_content(alloc, text)?;
    Ok(Move::Report(daemon, path, content))
}

/// A text and bytes.
fn text_and_bytes(alloc: Global, text: &str) -> Result<(Text, Blob), LineFault>
    ensures { ReadsAs (λ values. (values.0, (values.1, tt))) result (read_all (spec.Text ∷ spec.Hexadecimal ∷ []) text.now) }
{
    let Some(parts) = cut(text) else {
        return Err(LineFault::NotAMove);
    };
    if !is_hexadecimal(parts.rest) {
        return Err(LineFault::NotAMove);
    }
    let base = read_text(alloc, parts.argument)?;
    let disk = read_hexadecimal(alloc, parts.rest)?;
    Ok((base, disk))
}

pub(crate) fn read_load(alloc: Global, text: &str) -> Result<Move, LineFault>
    ensures { Reads result (asked_with text.now Word.Load) }
{
    let Some((daemon, rest)) = first_number(text) else {
        return Err(LineFault::NotAMove);
    };
    let (base, disk) = text_and_bytes(alloc, rest)?;
    Ok(Move::Load(daemon, base, disk))
}

/// A path and a text.
fn path_and_text(alloc: Global, text: &str) -> Result<(SharedPath, Text), LineFault>
    ensures { ReadsAs (λ values. (values.0, (values.1, tt))) result (read_all (Path ∷ spec.Text ∷ []) text.now) }
{
    let Some(parts) = cut(text) else {
        return Err(LineFault::NotAMove);
    };
    if !is_text(parts.rest) {
        return Err(LineFault::NotAMove);
    }
    let path = read_path(alloc, parts.argument)?;
    let text = read_text(alloc, parts.rest)?;
    Ok((path, text))
}

pub(crate) fn read_editor(alloc: Global, text: &str) -> Result<Move, LineFault>
    ensures { Reads result (asked_with text.now Word.Editor) }
{
    let Some((editor, rest)) = first_number(text) else {
        return Err(LineFault::NotAMove);
    };
    let Some((daemon, rest)) = first_number(rest) else {
        return Err(LineFault::NotAMove);
    };
    let (path, text) = path_and_text(alloc, rest)?;
    Ok(Move::Editor(editor, daemon, path, text))
}

pub(crate) fn read_typed(alloc: Global, text: &str) -> Result<Move, LineFault>
    ensures { Reads result (asked_with text.now Word.Typed) }
{
    let Some((editor, rest)) = first_number(text) else {
        return Err(LineFault::NotAMove);
    };
    let Some((place, rest)) = first_number(rest) else {
        return Err(LineFault::NotAMove);
    };
    let Some((gone, rest)) = first_number(rest) else {
        return Err(LineFault::NotAMove);
    };
    let text = read_text(alloc, rest)?;
    Ok(Move::Typed(editor, place, gone, text))
}

pub(crate) fn read_hear(alloc: Global, text: &str) -> Result<Move, LineFault>
    ensures { Reads result (asked_with text.now Word.Hear) }
{
    let Some((daemon, rest)) = first_number(text) else {
        return Err(LineFault::NotAMove);
    };
    let Some((conn, rest)) = first_number(rest) else {
        return Err(LineFault::NotAMove);
    };
    let bytes = read_hexadecimal(alloc, rest)?;
    Ok(Move::Hear(daemon, conn, bytes))
}

pub(crate) fn read_stop(text: &str) -> Option<Move>
    ensures { result ≡ asked_with text.now Word.Stop }
{
    let (daemon, rest) = first_number(text)?;
    let (call, rest) = first_number(rest)?;
    let mode = read_mode(rest)?;
    Some(Move::Stop(daemon, call, mode))
}

pub(crate) fn read_begin(text: &str) -> Option<Move>
    ensures { result ≡ asked_with text.now Word.Begin }
{
    let (daemon, rest) = first_number(text)?;
    let (conn, rest) = first_number(rest)?;
    match read_speaker(rest)? {
        Speaker::Editor => Some(Move::BeginEditor(daemon, conn)),
        Speaker::Peer => Some(Move::BeginPeer(daemon, conn)),
    }
}
