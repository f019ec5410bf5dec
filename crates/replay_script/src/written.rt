//! How each form of argument is written. After want of memory a part may be written.

ghost use Rattle.std.specs.Prelude.{◌≡◌, ◌∷◌, ◌++◌, IfOk, OnOk, string_bytes, encode_utf8_all};
ghost use Rattle.std.specs.Fmt.{decimal};
ghost use Rattle.std.specs.List.{flat_map};
ghost use Rattle.std.specs.Str.{chars};
ghost use Rattle.hex.specs.Hex.{encode_lower};
ghost use Rattle.replay_script.specs.Contents.{speaker_word};
ghost use Rattle.replay_script.specs.Grammar.{content_text, file_text, mode_word, path_text};
ghost use Rattle.replay_script.specs.Texts.{escaped, quoted};

use crate::contents::Speaker;
use crate::escapes::push_escaped;
use crate::paths::is_bare;
use outside::Mode;
use std::alloc::{AllocError, Global};
use std::str;
use tt_base::{Blob, Content, SharedPath, Text};

/// Writes the characters of a string as they stand between quotes.
fn push_characters(out: &mut String, text: &str) -> Result<(), AllocError>
    ensures { OnOk result (string_bytes out.new ≡ string_bytes out.old ++ encode_utf8_all (flat_map escaped (chars text.now))) }
{
    for ch in text.chars() {
        push_escaped(out, ch)?;
    }
    Ok(())
}

/// Writes a run of characters as they stand between quotes.
fn push_run(out: &mut String, run: &[char]) -> Result<(), AllocError>
    ensures { OnOk result (string_bytes out.new ≡ string_bytes out.old ++ encode_utf8_all (flat_map escaped run.now)) }
{
    for ch in run {
        push_escaped(out, *ch)?;
    }
    Ok(())
}

/// Writes the text as it stands between quotes, page by page.
fn push_pages(out: &mut String, text: &Text) -> Result<(), AllocError>
    ensures { OnOk result (string_bytes out.new ≡ string_bytes out.old ++ encode_utf8_all (flat_map escaped text.now)) }
{
    for page in text.pages() {
        push_run(out, page.as_slice())?;
    }
    Ok(())
}

fn push_quoted(out: &mut String, text: &str) -> Result<(), AllocError>
    ensures { OnOk result (string_bytes out.new ≡ string_bytes out.old ++ quoted (chars text.now)) }
{
    out.push('"')?;
    push_characters(out, text)?;
    out.push('"')
}

pub(crate) fn push_text(out: &mut String, text: &Text) -> Result<(), AllocError>
    ensures { OnOk result (string_bytes out.new ≡ string_bytes out.old ++ quoted text.now) }
{
    out.push('"')?;
    push_pages(out, text)?;
    out.push('"')
}

pub(crate) fn push_path(out: &mut String, path: &SharedPath) -> Result<(), AllocError>
    ensures { OnOk result (string_bytes out.new ≡ string_bytes out.old ++ path_text path.now) }
{
    let text = path.as_str();
    if is_bare(text) {
        out.push_str(text)
    } else {
        push_quoted(out, text)
    }
}

pub(crate) fn push_hexadecimal(
    alloc: Global,
    out: &mut String,
    bytes: &Blob,
) -> Result<(), AllocError>
    ensures { OnOk result (string_bytes out.new ≡ string_bytes out.old ++ encode_lower bytes.now) }
{
    let digits = hex::encode(alloc, bytes.as_slice())?;
    out.push_str(digits.as_str())
}

fn push_bytes(alloc: Global, out: &mut String, bytes: &Blob) -> Result<(), AllocError>
    ensures { OnOk result (string_bytes out.new ≡ string_bytes out.old ++ file_text bytes.now) }
{
    match str::from_utf8(bytes.as_slice()) {
        Ok(text) => push_quoted(out, text),
        Err(_) => {
            out.push_str("hex ")?;
            push_hexadecimal(alloc, out, bytes)
        }
    }
}

pub(crate) fn push_content(
    alloc: Global,
    out: &mut String,
    content: &Content,
) -> Result<(), AllocError>
    ensures { OnOk result (string_bytes out.new ≡ string_bytes out.old ++ content_text content.now) }
{
    match content {
        Content::Absent => out.push_str("absent"),
        Content::Bytes(bytes) => push_bytes(alloc, out, bytes),
        Content::Larger => out.push_str("larger"),
    }
}

fn mode_name(mode: Mode) -> &'static str
    ensures { result.now ≡ mode_word mode }
{
    match mode {
        Mode::Lost => "lost",
        Mode::Kept => "kept",
        Mode::Torn => "torn",
    }
}

pub(crate) fn push_mode(out: &mut String, mode: Mode) -> Result<(), AllocError>
    ensures { OnOk result (string_bytes out.new ≡ string_bytes out.old ++ mode_word mode) }
{
    out.push_str(mode_name(mode))
}

fn speaker_name(speaker: Speaker) -> &'static str
    ensures { result.now ≡ speaker_word speaker }
{
    match speaker {
        Speaker::Editor => "editor",
        Speaker::Peer => "peer",
    }
}

pub(crate) fn push_speaker(out: &mut String, speaker: Speaker) -> Result<(), AllocError>
    ensures { OnOk result (string_bytes out.new ≡ string_bytes out.old ++ speaker_word speaker) }
{
    out.push_str(speaker_name(speaker))
}

pub(crate) fn push_number(out: &mut String, number: u64) -> Result<(), AllocError>
    ensures { OnOk result (string_bytes out.new ≡ string_bytes out.old ++ decimal number) }
{
    write!(out, "{number}")
}

/// The text in quotes, as a script has it: with the five short escapes, `\u{H}` for other control characters of ASCII,
/// and each other character for itself.
pub fn write_text(alloc: Global, text: &Text) -> Result<String, AllocError>
    ensures { IfOk result (λ written. string_bytes written ≡ quoted text.now) }
{
    let mut out = String::new(alloc);
    push_text(&mut out, text)?;
    Ok(out)
}

/// The path as a script has it: bare where its characters allow that, and else in quotes.
pub fn write_path(alloc: Global, path: &SharedPath) -> Result<String, AllocError>
    ensures { IfOk result (λ written. string_bytes written ≡ path_text path.now) }
{
    let mut out = String::new(alloc);
    push_path(&mut out, path)?;
    Ok(out)
}
