ghost use Rattle.std.specs.Prelude.{◌≡◌, OnOk, ◌++◌, false, codes, string_bytes, encode_utf8_all};
ghost use Rattle.std.specs.Fmt.{digits};
ghost use Rattle.replay_script.specs.Characters as characters;
ghost use Rattle.replay_script.specs.Quotes as spec;
ghost use Rattle.replay_script.specs.Texts as texts;

use std::alloc::AllocError;

/// Where the reading of a text between quotes stands.
#[derive(Clone, Copy, Debug, PartialEq, Eq)]
pub(crate) enum Place {
    /// In front of a character or an escape.
    Between,
    /// Behind a backslash.
    Escape,
    /// Behind `\u`.
    Unicode,
    /// Behind `\u{` and so many digits, which have this value.
    Digits(u32, u32),
    /// Behind what spells no text.
    Wrong,
}

/// What one more character does: the next place, and the character that is given there.
#[derive(Clone, Copy, Debug)]
pub(crate) struct Step {
    pub place: Place,
    pub given: Option<char>,
}

fn goes_to(place: Place) -> Step
    ensures { result ≡ spec.goes_to place }
{
    Step { place, given: None }
}

fn gives(ch: char) -> Step
    ensures { result ≡ spec.gives ch }
{
    Step {
        place: Place::Between,
        given: Some(ch),
    }
}

fn gives_if_some(ch: Option<char>) -> Step
    ensures { result ≡ spec.gives_if_some ch }
{
    match ch {
        Some(ch) => gives(ch),
        None => goes_to(Place::Wrong),
    }
}

/// Whether the character stands for itself between quotes.
fn is_plain(ch: char) -> bool
    ensures { result ≡ texts.is_plain ch }
{
    ch > '\u{1f}' && ch != '"' && ch != '\\' && ch != '\u{7f}'
}

/// The character that a backslash and this letter stand for.
fn short_escape(letter: char) -> Option<char>
    ensures { result ≡ spec.short_escape letter }
{
    match letter {
        '"' | '\\' => Some(letter),
        'n' => Some('\n'),
        'r' => Some('\r'),
        't' => Some('\t'),
        _ => None,
    }
}

/// The scalar value that so many digits of this value spell.
fn scalar_of(count: u32, value: u32) -> Option<char>
    ensures { result ≡ spec.scalar_of count value }
{
    if count == 0 {
        return None;
    }
    char::from_u32(value)
}

pub(crate) fn is_lower_hex(ch: char) -> bool
    ensures { result ≡ characters.is_lower_hex ch }
{
    ch.is_ascii_digit() || ('a'..='f').contains(&ch)
}

fn step_between(ch: char) -> Step
    ensures { result ≡ spec.step_between ch }
{
    if ch == '\\' {
        goes_to(Place::Escape)
    } else if is_plain(ch) {
        gives(ch)
    } else {
        goes_to(Place::Wrong)
    }
}

fn step_escape(ch: char) -> Step
    ensures { result ≡ spec.step_escape ch }
{
    if ch == 'u' {
        goes_to(Place::Unicode)
    } else {
        gives_if_some(short_escape(ch))
    }
}

fn step_unicode(ch: char) -> Step
    ensures { result ≡ spec.step_unicode ch }
{
    if ch == '{' {
        goes_to(Place::Digits(0, 0))
    } else {
        goes_to(Place::Wrong)
    }
}

fn step_digits(count: u32, value: u32, ch: char) -> Step
    ensures { result ≡ spec.step_digits count value ch }
{
    if ch == '}' {
        return gives_if_some(scalar_of(count, value));
    }
    match ch.to_digit(16) {
        Some(digit) if is_lower_hex(ch) && count < 6 && value < 0x10_0000 => {
            goes_to(Place::Digits(count + 1, 16 * value + digit))
        }
        _ => goes_to(Place::Wrong),
    }
}

impl Place {
    /// What the character does here.
    pub(crate) fn step(self, ch: char) -> Step
        ensures { result ≡ spec.step_at self ch }
    {
        match self {
            Place::Between => step_between(ch),
            Place::Escape => step_escape(ch),
            Place::Unicode => step_unicode(ch),
            Place::Digits(count, value) => step_digits(count, value, ch),
            Place::Wrong => goes_to(Place::Wrong),
        }
    }

    /// Whether a text may end here.
    pub(crate) fn is_between(self) -> bool
        ensures { result ≡ spec.is_between self }
    {
        matches!(self, Place::Between)
    }
}

/// The letter of the short escape for the character.
fn short_letter(ch: char) -> Option<char>
    ensures { result ≡ texts.short_letter ch }
{
    match ch {
        '"' | '\\' => Some(ch),
        '\n' => Some('n'),
        '\r' => Some('r'),
        '\t' => Some('t'),
        _ => None,
    }
}

/// Writes `\u{H}` for the code of a character.
fn push_code(out: &mut String, code: u32) -> Result<(), AllocError>
    ensures { OnOk result (string_bytes out.new ≡ string_bytes out.old ++ (codes "\\u{" ++ digits 16 false code ++ codes "}")) }
{
    out.push_str("\\u{")?;
    write!(out, "{code:x}")?;
    out.push('}')
}

/// Writes the character as it stands between quotes. After want of memory a part may be written.
pub(crate) fn push_escaped(out: &mut String, ch: char) -> Result<(), AllocError>
    ensures { OnOk result (string_bytes out.new ≡ string_bytes out.old ++ encode_utf8_all (texts.escaped ch)) }
{
    if is_plain(ch) {
        return out.push(ch);
    }
    match short_letter(ch) {
        Some(letter) => {
            out.push('\\')?;
            out.push(letter)
        }
        None => push_code(out, ch as u32),
    }
}
