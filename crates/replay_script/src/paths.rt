//! Paths. A quoted one is spelled out in room of its own on the stack, since a path has few bytes: so no memory is
//! asked for before it is known to be a path.

ghost use Rattle.std.specs.Prelude.{◌≡◌, ◌+◌, ◌<◌, ◌++◌, length, MatchOption, encode_utf8_all};
ghost use Rattle.std.specs.Bool.{OnTrue, OnFalse};
ghost use Rattle.std.specs.List.{list_all};
ghost use Rattle.std.specs.Str.{chars};
ghost use Rattle.arrayvec.specs.ArrayString.{array_string_len};
ghost use Rattle.replay_script.specs.Grammar as grammar;
ghost use Rattle.replay_script.specs.Paths as spec;
ghost use Rattle.replay_script.specs.Quotes.{given_by, spelled, seen};
ghost use Rattle.replay_script.specs.Reads.{Reads};

use crate::escapes::Place;
use crate::faults::LineFault;
use crate::quotes::Spelling;
use arrayvec::ArrayString;
use std::alloc::Global;
use tt_base::{PathFault, SharedPath};

fn is_bare_byte(byte: u8) -> bool
    ensures { result ≡ grammar.is_bare byte }
{
    byte.is_ascii_alphanumeric() || matches!(byte, b'.' | b'_' | b'-' | b'/')
}

/// Whether the text may stand in a line without quotes.
pub(crate) fn is_bare(text: &str) -> bool
    ensures { result ≡ list_all grammar.is_bare text.now }
{
    text.as_bytes().iter().all(|byte| is_bare_byte(*byte))
}

/// Adds the text that stands between quotes, and says whether there was room for it.
fn push_unescaped(path: &mut ArrayString<1024>, inside: &str) -> bool
    ensures added { OnTrue result (path.new.bytes ≡ path.old.bytes ++ encode_utf8_all (given_by Place.Between (chars inside.now))) }
    ensures too_long { OnFalse result (1024 < array_string_len path.old + length (encode_utf8_all (given_by Place.Between (chars inside.now)))) }
{
    let mut place = Place::Between;
    for ch in inside.chars() {
        let step = place.step(ch);
        place = step.place;
        if let Some(given) = step.given {
            if path.try_push(given).is_err() {
                return false;
            }
        }
    }
    true
}

/// The text that is spelled, `None` where it has more bytes than a path may have.
fn spelled_path(spelling: Spelling<'_>) -> Option<ArrayString<1024>>
    ensures { MatchOption result (1024 < length (encode_utf8_all (spelled (seen spelling.entry)))) (λ path. path.bytes ≡ encode_utf8_all (spelled (seen spelling.entry))) }
{
    let mut path = ArrayString::new();
    for time in 0..spelling.times {
        if !push_unescaped(&mut path, spelling.inside) {
            return None;
        }
    }
    Some(path)
}

/// Reads a path as it is, without quotes.
fn read_sound(alloc: Global, text: &str) -> Result<SharedPath, LineFault>
    ensures { Reads result (spec.sound_path text.now) }
{
    match SharedPath::read(alloc, text) {
        Ok(path) => Ok(path),
        Err(PathFault::Memory) => Err(LineFault::Memory),
        Err(_) => Err(LineFault::NotAMove),
    }
}

/// Reads a path, bare or in quotes.
pub(crate) fn read_path(alloc: Global, argument: &str) -> Result<SharedPath, LineFault>
    ensures { Reads result (spec.path_of argument.now) }
{
    if is_bare(argument) {
        return read_sound(alloc, argument);
    }
    let Some(spelling) = Spelling::of(argument) else {
        return Err(LineFault::NotAMove);
    };
    match spelled_path(spelling) {
        Some(path) => read_sound(alloc, path.as_str()),
        None => Err(LineFault::NotAMove),
    }
}
