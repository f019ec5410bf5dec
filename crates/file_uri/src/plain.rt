//! Plain URIs: behind the base's text, bytes that stand for themselves and whole escapes.
//!
//! In such a text the parser of URLs resolves dot segments and changes nothing else. So where no decoded part is `.` or
//! `..`, the decoded text is the path that the parser gives; that both agree is the law `plain_reading_agrees`.

ghost use Rattle.std.specs.Prelude.{◌≡◌, ◌+◌, ◌*◌, ◌<◌, true, false, length, MatchOption, IfOk};
ghost use Rattle.std.specs.Char.{digit_value};
ghost use Rattle.percent_encoding.specs.Percent.{is_escape, percent_decode};
ghost use Rattle.file_uri.specs.UriOf.{is_kept};
ghost use Rattle.file_uri.specs.PlainUri.{BeginsWith, is_plain_text};
ghost use Rattle.file_uri.specs.PlainUri as spec;

use std::alloc::{AllocError, Global};

/// Whether the byte stands for itself in the path of a URI.
fn is_kept(byte: u8) -> bool
    ensures { result ≡ is_kept byte }
{
    byte.is_ascii_alphanumeric() || matches!(byte, b'-' | b'.' | b'_' | b'~' | b'/')
}

/// The byte that `%` and these two digits stand for.
fn escaped_byte(high: u8, low: u8) -> Option<u8>
    ensures { MatchOption result (is_escape 37 high low ≡ false)
        (λ byte. (is_escape 37 high low ≡ true) × (byte ≡ 16 * digit_value high + digit_value low)) }
{
    let high = char::from(high).to_digit(16)?;
    let low = char::from(low).to_digit(16)?;
    Some(high as u8 * 16 + low as u8)
}

/// The byte that a plain text begins with, and the text behind it; `None` where the text is empty
/// or not plain.
fn split_plain(text: &[u8]) -> Option<(u8, &[u8])>
    ensures { MatchOption result (0 < length text.now → is_plain_text text.now ≡ false)
        (λ split. BeginsWith text.now split.0 split.1.now) }
{
    match text {
        [b'%', high, low, rest @ ..] => Some((escaped_byte(*high, *low)?, rest)),
        [byte, rest @ ..] if is_kept(*byte) => Some((*byte, rest)),
        _ => None,
    }
}

/// The bytes that a plain text stands for, or `None` where it is not plain.
pub(crate) fn decode_plain(alloc: Global, text: &[u8]) -> Result<Option<Vec<u8>>, AllocError>
    ensures { IfOk result (λ bytes. MatchOption bytes (is_plain_text text.now ≡ false)
        (λ bytes. (is_plain_text text.now ≡ true) × (bytes.items ≡ percent_decode text.now))) }
{
    let mut bytes = Vec::new(alloc);
    let mut rest = text;
    while let Some((byte, after)) = split_plain(rest) {
        bytes.push(byte)?;
        rest = after;
    }
    if !rest.is_empty() {
        return Ok(None);
    }
    Ok(Some(bytes))
}

/// Whether a part of the path is `.` or `..`.
pub(crate) fn has_dot_part(path: &[u8]) -> bool
    ensures { result ≡ spec.has_dot_part path.now }
{
    path.split(|byte| *byte == b'/')
        .any(|part| part == b".".as_slice() || part == b"..".as_slice())
}
