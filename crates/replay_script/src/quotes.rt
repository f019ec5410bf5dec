//! Texts in quotes. A spelling is judged in one pass that takes no memory, and its text is made in
//! another: it is spelled out once, and then copied for each further time.

ghost use Rattle.std.specs.Prelude.{◌≡◌, length, IfOk, is_some};
ghost use Rattle.std.specs.Option.{option_map};
ghost use Rattle.std.specs.Str.{chars};
ghost use Rattle.replay_script.specs.Quotes as spec;
ghost use Rattle.replay_script.specs.Reads.{Reads};

use crate::escapes::Place;
use crate::faults::LineFault;
use crate::numbers::read_number;
use std::alloc::{AllocError, Global};
use tt_base::Text;

/// How often a text may be spelled.
const MOST_TIMES: u64 = 4_194_304;

/// How many characters a text may have that is spelled by a number of times.
const MOST_CHARACTERS: u64 = 16_777_216;

/// A text in quotes, as it stands in a line.
#[derive(Clone, Copy, Debug)]
pub(crate) struct Spelling<'a> {
    /// What stands between the quotes, with its escapes.
    pub inside: &'a str,
    /// How often the text is spelled, one behind the other.
    pub times: u64,
}

/// How many characters stand between the quotes, an escape for one; `None` where this spells no text.
fn spelled_length(inside: &str) -> Option<usize>
    ensures { result ≡ option_map length (spec.unescaped (chars inside.now)) }
{
    let mut place = Place::Between;
    let mut count = 0;
    for ch in inside.chars() {
        let step = place.step(ch);
        place = step.place;
        if step.given.is_some() {
            count += 1;
        }
    }
    if place.is_between() {
        Some(count)
    } else {
        None
    }
}

/// Whether a text of this length may be spelled so often.
fn may_repeat(len: usize, times: u64) -> bool
    ensures { result ≡ spec.may_repeat len times }
{
    if times == 0 || times > MOST_TIMES {
        return false;
    }
    match times.checked_mul(len as u64) {
        Some(whole) => whole <= MOST_CHARACTERS,
        None => false,
    }
}

/// How often a text of this length is spelled, by what stands behind its closing quote.
fn read_times(len: usize, behind: &str) -> Option<u64>
    ensures { result ≡ spec.times_of len behind.now }
{
    if behind.is_empty() {
        return Some(1);
    }
    let times = read_number(behind.strip_prefix('*')?)?;
    if may_repeat(len, times) {
        Some(times)
    } else {
        None
    }
}

/// What stands between the first quote and the last, and what stands behind the last.
fn between_quotes(text: &str) -> Option<(&str, &str)>
    ensures { option_map (λ parts. (parts.0.now, parts.1.now)) result ≡ spec.between_quotes text.entry.now }
{
    text.strip_prefix('"')?.rsplit_once('"')
}

impl<'a> Spelling<'a> {
    /// The spelling that an argument is, `None` where it is no text in quotes.
    pub(crate) fn of(argument: &'a str) -> Option<Spelling<'a>>
        ensures { option_map spec.seen result ≡ spec.spelling_of argument.entry.now }
    {
        let (inside, behind) = between_quotes(argument)?;
        let len = spelled_length(inside)?;
        let times = read_times(len, behind)?;
        Some(Spelling { inside, times })
    }
}

/// The text that stands between quotes, spelled once.
fn unescaped(alloc: Global, inside: &str) -> Result<Vec<char>, AllocError>
    ensures { IfOk result (λ text. text.items ≡ spec.given_by Place.Between (chars inside.now)) }
{
    let mut place = Place::Between;
    let mut text = Vec::new(alloc);
    for ch in inside.chars() {
        let step = place.step(ch);
        place = step.place;
        if let Some(given) = step.given {
            text.push(given)?;
        }
    }
    Ok(text)
}

/// The text that is spelled. It is spelled out once, however often it is meant.
fn spelled_text(alloc: Global, spelling: Spelling<'_>) -> Result<Text, AllocError>
    ensures { IfOk result (λ text. text ≡ spec.spelled (spec.seen spelling.entry)) }
{
    let once = unescaped(alloc, spelling.inside)?;
    if spelling.times == 1 {
        return Text::from_vec(alloc, once);
    }
    let all = once.as_slice().repeat(alloc, spelling.times as usize)?;
    Text::from_vec(alloc, all)
}

/// Whether the argument is a text in quotes.
pub(crate) fn is_text(argument: &str) -> bool
    ensures { result ≡ is_some (spec.text_of argument.now) }
{
    Spelling::of(argument).is_some()
}

/// Reads a text in quotes.
pub(crate) fn read_text(alloc: Global, argument: &str) -> Result<Text, LineFault>
    ensures { Reads result (spec.text_of argument.now) }
{
    let Some(spelling) = Spelling::of(argument) else {
        return Err(LineFault::NotAMove);
    };
    match spelled_text(alloc, spelling) {
        Ok(text) => Ok(text),
        Err(_) => Err(LineFault::Memory),
    }
}
