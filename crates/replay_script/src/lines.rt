ghost use Rattle.std.specs.Prelude.{◌≡◌, false};
ghost use Rattle.replay_script.specs.Lines.{asked_by, asked_with, line_asks};
ghost use Rattle.replay_script.specs.Reads.{Answers, ReadsLine, ReadsMove};
ghost use Rattle.replay_script.specs.Words.{takes_memory};

use crate::arguments::{
    read_begin, read_copy, read_disk, read_editor, read_end, read_file, read_hear, read_link,
    read_load, read_outside, read_pass, read_report, read_stop, read_sync, read_typed, read_unlink,
};
use crate::cuts::cut;
use crate::faults::LineFault;
use crate::moves::Move;
use crate::numbers::read_number;
use crate::words::Word;
use std::alloc::Global;

/// Reads the arguments of a word whose moves have no path, text or bytes. It takes no memory.
fn read_plain(word: Word, text: &str) -> Option<Move>
    ensures { takes_memory word ≡ false → result ≡ asked_with text.now word }
{
    match word {
        Word::Daemon => Some(Move::Daemon(read_number(text)?)),
        Word::Up => Some(Move::Up(read_number(text)?)),
        Word::Down => Some(Move::Down(read_number(text)?)),
        Word::Settle => Some(Move::Settle(read_number(text)?)),
        Word::Close => Some(Move::Close(read_number(text)?)),
        Word::Open => Some(Move::Open(read_number(text)?)),
        Word::Cut => Some(Move::Cut(read_number(text)?)),
        Word::Show => Some(Move::Show(read_number(text)?)),
        Word::Held => Some(Move::Held(read_number(text)?)),
        Word::Sweep => Some(Move::Sweep(read_number(text)?)),
        Word::Crash => Some(Move::Crash(read_number(text)?)),
        Word::Restart => Some(Move::Restart(read_number(text)?)),
        Word::Link => read_link(text),
        Word::Pass => read_pass(text),
        Word::Copy => read_copy(text),
        Word::Sync => read_sync(text),
        Word::Unlink => read_unlink(text),
        Word::Stop => read_stop(text),
        Word::Begin => read_begin(text),
        Word::End => read_end(text),
        _ => None,
    }
}

/// Reads the arguments of the word.
fn read_arguments(alloc: Global, word: Word, text: &str) -> Result<Move, LineFault>
    ensures { ReadsMove result (asked_with text.now word) }
{
    match word {
        Word::Load => read_load(alloc, text),
        Word::Editor => read_editor(alloc, text),
        Word::Typed => read_typed(alloc, text),
        Word::File => read_file(alloc, text),
        Word::Outside => read_outside(alloc, text),
        Word::Report => read_report(alloc, text),
        Word::Disk => read_disk(alloc, text),
        Word::Hear => read_hear(alloc, text),
        _ => read_plain(word, text).ok_or(LineFault::NotAMove),
    }
}

/// Reads a word and its arguments.
fn read_move(alloc: Global, text: &str) -> Result<Move, LineFault>
    ensures { ReadsMove result (asked_by text.now) }
{
    let Some(parts) = cut(text) else {
        return Err(LineFault::NotAMove);
    };
    let Some(word) = Word::named(parts.argument) else {
        return Err(LineFault::NotAMove);
    };
    read_arguments(alloc, word, parts.rest)
}

/// Reads one line of a script, given without its LF: the move that it asks for, `None` for an empty line and for one
/// that begins with `#`.
///
/// # Errors
///
/// `NotAMove` exactly where the line is outside the grammar, whatever memory there is. `Memory` only in place of a
/// move that has a path, a text or bytes.
pub fn read_line(alloc: Global, line: &str) -> Result<Option<Move>, LineFault>
    // What the grammar says of the line.
    ensures grammar { Answers line.now result }
    // The same, where the grammar is computed.
    ensures computed { ReadsLine result (line_asks line.now) }
{
    if line.is_empty() || line.starts_with('#') {
        return Ok(None);
    }
    let moved = read_move(alloc, line)?;
    Ok(Some(moved))
}
