//! The same operations on a plain vector of characters, as the yardstick.
use tt_base::Position;

/// The position with so many characters before it, by a pass over them.
pub fn position_in(chars: &[char], place: usize) -> Position {
    let mut position = Position {
        line: 0,
        character: 0,
    };
    for ch in chars.iter().take(place) {
        position = if *ch == '\n' {
            Position {
                line: position.line.saturating_add(1),
                character: 0,
            }
        } else {
            Position {
                line: position.line,
                character: position.character.saturating_add(1),
            }
        };
    }
    position
}

/// The number of characters before a position, by a pass over them.
pub fn offset_in(chars: &[char], position: Position) -> usize {
    let mut line = 0u64;
    let mut start = 0usize;
    for (i, ch) in chars.iter().enumerate() {
        if line == position.line {
            break;
        }
        if *ch == '\n' {
            line = line.saturating_add(1);
            start = i.saturating_add(1);
        }
    }
    start.saturating_add(position.character as usize)
}
