ghost use Rattle.std.specs.Prelude.{◌≡◌, ℕ, ◌≤◌, length, IfOk, IfErr};
ghost use Rattle.std.specs.Result.{result_ok};
ghost use Rattle.tt_base.specs.declared.edits.Position.{Position};
ghost use Rattle.text_position.specs.Places.{IsPlace, offset_at, position_at};

use crate::faults::BadPosition;
use tt_base::{Position, Text};

/// The number of characters before a position, where the text has it.
fn offset_at(text: &Text, p: Position) -> Option<usize>
    ensures { result ≡ offset_at text.now p }
{
    let line = p.line as usize;
    let start = text.behind_line_ends(line)?;
    if p.character > (text.len() - start) as u64 {
        return None;
    }
    let offset = start + p.character as usize;
    if text.line_ends_before(offset) == line {
        Some(offset)
    } else {
        None
    }
}

/// The number of characters before a position.
///
/// `BadPosition` says that the line is past the last one, or the character past the end of its line,
/// to which the LF does not belong. (The Language Server Protocol moves such a character back to the end
/// of the line.)
pub fn offset_of(text: &Text, p: Position) -> Result<usize, BadPosition>
    ensures place { IfOk result (λ offset. IsPlace text.now p offset) }
    ensures refused { IfErr result (λ _. (offset : ℕ) → ¬ IsPlace text.now p offset) }
    ensures computed { result_ok result ≡ offset_at text.now p }
{
    match offset_at(text, p) {
        Some(offset) => Ok(offset),
        None => Err(BadPosition),
    }
}

/// The position with so many characters of the text before it.
fn position_at(text: &Text, offset: usize) -> Position
    requires { offset ≤ length text.now }
    ensures { result ≡ position_at text.now offset }
{
    let line = text.line_ends_before(offset);
    match text.behind_line_ends(line) {
        Some(start) => Position {
            line: line as u64,
            character: (offset - start) as u64,
        },
        None => unreachable!(),
    }
}

/// The position with so many characters of the text before it.
pub fn position_of(text: &Text, offset: usize) -> Position
    requires { offset ≤ length text.now }
    ensures place { IsPlace text.now result offset }
    ensures only { (p : Position) → IsPlace text.now p offset → p ≡ result }
    ensures computed { result ≡ position_at text.now offset }
{
    position_at(text, offset)
}
