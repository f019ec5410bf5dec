ghost use Rattle.std.specs.Prelude.{◌≡◌, ◌==◌, ◌&&◌, ◌||◌, nat_lt, length, slice_index};
ghost use Rattle.std.specs.List.{list_all};
ghost use Rattle.replay_script.specs.Characters as characters;
ghost use Rattle.replay_script.specs.Numbers as numbers;
ghost use Rattle.replay_script.specs.Reads.{Reads};

use crate::faults::LineFault;
use std::alloc::Global;
use tt_base::Blob;

/// Whether the digits are written with a sign or with a zero in front.
fn is_padded(text: &str) -> bool
    ensures { result ≡ (slice_index text.now 0 == 43 || (slice_index text.now 0 == 48 && nat_lt 1 (length text.now))) }
{
    matches!(text.as_bytes(), [b'+', ..] | [b'0', _, ..])
}

/// Reads a number: decimal digits without leading zeros, in u64.
pub(crate) fn read_number(text: &str) -> Option<u64>
    ensures { result ≡ numbers.number_of text.now }
{
    if is_padded(text) {
        return None;
    }
    text.parse::<u64>().ok()
}

fn is_lower_hex(byte: u8) -> bool
    ensures { result ≡ characters.is_lower_hex byte }
{
    byte.is_ascii_digit() || (b'a'..=b'f').contains(&byte)
}

fn are_lower_hex(text: &str) -> bool
    ensures { result ≡ list_all characters.is_lower_hex text.now }
{
    text.as_bytes().iter().all(|byte| is_lower_hex(*byte))
}

/// Whether the text is two or more lower-case hexadecimal digits, in pairs.
pub(crate) fn is_hexadecimal(text: &str) -> bool
    ensures { result ≡ numbers.is_hexadecimal text.now }
{
    !text.is_empty() && text.len() % 2 == 0 && are_lower_hex(text)
}

/// Reads bytes in hexadecimal.
pub(crate) fn read_hexadecimal(alloc: Global, argument: &str) -> Result<Blob, LineFault>
    ensures { Reads result (numbers.bytes_of argument.now) }
{
    if !is_hexadecimal(argument) {
        return Err(LineFault::NotAMove);
    }
    match hex::decode(alloc, argument) {
        Ok(bytes) => Ok(Blob::from_vec(bytes)),
        Err(_) => Err(LineFault::Memory),
    }
}
