ghost use Rattle.std.specs.Prelude.{◌≡◌, ◌==◌, is_some, drop, codes, Some, None, if◌then◌else◌};
ghost use Rattle.std.specs.List.{starts_with};
ghost use Rattle.std.specs.Option.{option_map};
ghost use Rattle.replay_script.specs.Contents as spec;
ghost use Rattle.replay_script.specs.Reads.{Reads};

use crate::faults::LineFault;
use crate::numbers::{is_hexadecimal, read_hexadecimal};
use crate::quotes::{is_text, read_text};
use outside::Mode;
use std::alloc::Global;
use tt_base::Content;

/// What is heard on a connection that a script begins.
#[derive(Clone, Copy, Debug, PartialEq, Eq)]
pub(crate) enum Speaker {
    /// Frames of an editor.
    Editor,
    /// Frames of a daemon.
    Peer,
}

/// What stands behind the word `hex` and a space, where they are there.
fn behind_hex(argument: &str) -> Option<&str>
    ensures { option_map (λ digits. digits.now) result
        ≡ (if starts_with ◌==◌ argument.entry.now (codes "hex ") then Some (drop 4 argument.entry.now) else None) }
{
    argument.strip_prefix("hex ")
}

/// Whether the argument is a content of a file.
pub(crate) fn is_content(argument: &str) -> bool
    ensures { result ≡ is_some (spec.content_of argument.now) }
{
    if argument == "absent" || argument == "larger" {
        return true;
    }
    match behind_hex(argument) {
        Some(digits) => is_hexadecimal(digits),
        None => is_text(argument),
    }
}

/// Reads the content of a file that has these bytes.
fn read_bytes(alloc: Global, argument: &str) -> Result<Content, LineFault>
    ensures { Reads result (spec.file_of argument.now) }
{
    match behind_hex(argument) {
        Some(digits) => Ok(Content::Bytes(read_hexadecimal(alloc, digits)?)),
        None => {
            let text = read_text(alloc, argument)?;
            Ok(Content::Bytes(text.to_bytes(alloc)?))
        }
    }
}

/// Reads a content of a file.
pub(crate) fn read_content(alloc: Global, argument: &str) -> Result<Content, LineFault>
    ensures { Reads result (spec.content_of argument.now) }
{
    if argument == "absent" {
        return Ok(Content::Absent);
    }
    if argument == "larger" {
        return Ok(Content::Larger);
    }
    read_bytes(alloc, argument)
}

/// Reads the mode of a stop.
pub(crate) fn read_mode(argument: &str) -> Option<Mode>
    ensures { result ≡ spec.mode_of argument.now }
{
    if argument == "lost" {
        return Some(Mode::Lost);
    }
    if argument == "kept" {
        return Some(Mode::Kept);
    }
    if argument == "torn" {
        return Some(Mode::Torn);
    }
    None
}

/// Reads what is heard on a connection.
pub(crate) fn read_speaker(argument: &str) -> Option<Speaker>
    ensures { result ≡ spec.speaker_of argument.now }
{
    if argument == "editor" {
        return Some(Speaker::Editor);
    }
    if argument == "peer" {
        return Some(Speaker::Peer);
    }
    None
}
