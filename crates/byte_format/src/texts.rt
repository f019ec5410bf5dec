ghost use Rattle.std.specs.Prelude.{◌≡◌, true, false, is_none, MatchOption, MatchResult};
ghost use Rattle.std.specs.Str.{chars, is_utf8};
ghost use Rattle.tt_base.specs.Path.{path_fault};
ghost use Rattle.byte_format.specs.Values.{path_field, text_field};
ghost use Rattle.byte_format.specs.Read.{GivesExactly, Answers};

use crate::faults::{Kind, Outside, ReadFault};
use crate::numbers::{read_count, read_u16};
use std::alloc::Global;
use tt_base::{PathFault, SharedPath, Text};

/// The bytes as a text, where they are UTF-8.
fn utf8_of(bytes: &[u8]) -> Option<&str>
    ensures { MatchOption result (is_utf8 bytes.now ≡ false) (λ text. (text.now ≡ bytes.now) × (is_utf8 bytes.now ≡ true)) }
{
    match std::str::from_utf8(bytes) {
        Ok(text) => Some(text),
        Err(_) => None,
    }
}

/// The path that a text is. An error has the rule that it breaks, or none for want of memory.
fn path_of(alloc: Global, text: &str) -> Result<SharedPath, Option<PathFault>>
    ensures { MatchResult result (λ path. (path ≡ text.now) × (is_none (path_fault text.now) ≡ true))
        (λ broken. MatchOption broken (is_none (path_fault text.now) ≡ true) (λ rule. is_none (path_fault text.now) ≡ false)) }
{
    match SharedPath::read(alloc, text) {
        Ok(path) => Ok(path),
        Err(PathFault::Memory) => Err(None),
        Err(rule) => Err(Some(rule)),
    }
}

/// Whether the text is a shared path. Memory for it is asked for only behind the rules, so want of it says that it is one.
fn is_path(alloc: Global, text: &str) -> bool
    ensures { result ≡ is_none (path_fault text.now) }
{
    match path_of(alloc, text) {
        Ok(_) | Err(None) => true,
        Err(Some(_)) => false,
    }
}

/// The text of a shared path behind its length of 2 bytes, where it stands, and the bytes behind it.
#[tactic(auto, unfolding(crate::specs::Values::path_field))]
pub fn read_path_text(alloc: Global, bytes: &[u8]) -> Result<(&str, &[u8]), Outside>
    ensures { GivesExactly (λ x. (x.0.now, x.1.now)) result (path_field.reads bytes.now) }
{
    let (len, rest) = read_u16(bytes)?;
    let len = len as usize;
    if rest.len() < len {
        return Err(Outside::at(Kind::Short, rest));
    }
    let (front, behind) = rest.split_at(len);
    let Some(text) = utf8_of(front) else {
        return Err(Outside::at(Kind::Path, rest));
    };
    if !is_path(alloc, text) {
        return Err(Outside::at(Kind::Path, rest));
    }
    Ok((text, behind))
}

/// The shared path behind its length of 2 bytes, and the bytes behind it.
pub fn read_path(alloc: Global, bytes: &[u8]) -> Result<(SharedPath, &[u8]), ReadFault>
    ensures { Answers (λ x. (x.0, x.1.now)) result (path_field.reads bytes.now) }
{
    let (text, behind) = read_path_text(alloc, bytes)?;
    match path_of(alloc, text) {
        Ok(path) => Ok((path, behind)),
        Err(_) => Err(ReadFault::Memory),
    }
}

/// The text of at least one character behind its length in bytes, where it stands, and the bytes behind it.
#[tactic(auto, unfolding(crate::specs::Values::text_field))]
pub fn read_str(bytes: &[u8]) -> Result<(&str, &[u8]), Outside>
    ensures { GivesExactly (λ x. (chars x.0.now, x.1.now)) result (text_field.reads bytes.now) }
{
    let (len, rest) = read_count(bytes)?;
    if (rest.len() as u64) < len {
        return Err(Outside::at(Kind::Short, rest));
    }
    let (front, behind) = rest.split_at(len as usize);
    let Some(text) = utf8_of(front) else {
        return Err(Outside::at(Kind::Utf8, rest));
    };
    Ok((text, behind))
}

/// The text of at least one character behind its length in bytes, and the bytes behind it.
pub fn read_text(alloc: Global, bytes: &[u8]) -> Result<(Text, &[u8]), ReadFault>
    ensures { Answers (λ x. (x.0, x.1.now)) result (text_field.reads bytes.now) }
{
    let (text, behind) = read_str(bytes)?;
    Ok((Text::from_str(alloc, text)?, behind))
}
