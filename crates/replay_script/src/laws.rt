//! Laws of the grammar of scripts. Each is a function without effect whose contract is the law.

ghost use Rattle.replay_script.specs.Laws.{GrammarIsDecided, LinesAreUnambiguous, WrittenLineAsks};

/// The line that is written for a move asks for this move, unless it is a `Load` or a `Hear` without bytes.
pub fn written_line_asks()
    ensures { WrittenLineAsks }
{}

/// A line asks for one move at most, and for none where it asks for nothing.
pub fn lines_are_unambiguous()
    ensures { LinesAreUnambiguous }
{}

/// For a line in UTF-8, `line_asks` computes what the grammar says of it.
pub fn grammar_is_decided()
    ensures { GrammarIsDecided }
{}
