//! The line of a move: its word, and each argument with a space in front.

ghost use Rattle.std.specs.Prelude.{◌≡◌, [], ◌∷◌, ◌++◌, IfOk, OnOk, string_bytes};
ghost use Rattle.replay_script.specs.Characters.{space};
ghost use Rattle.replay_script.specs.Contents.{speaker_word};
ghost use Rattle.replay_script.specs.Grammar.{line_of, spaced, written, Number, Path, Contents, Fixed};
ghost use Rattle.replay_script.specs.Grammar as grammar;
ghost use Rattle.replay_script.specs.Words.{name_of};

use crate::contents::Speaker;
use crate::moves::Move;
use crate::words::Word;
use crate::written::{
    push_content, push_hexadecimal, push_mode, push_number, push_path, push_speaker, push_text,
};
use outside::Mode;
use std::alloc::{AllocError, Global};
use tt_base::{Blob, Content, SharedPath, Text};

/// Adds a number behind a space.
fn add_number(line: &mut String, number: u64) -> Result<(), AllocError>
    ensures { OnOk result (string_bytes line.new ≡ string_bytes line.old ++ space ∷ written (Number number)) }
{
    line.push(' ')?;
    push_number(line, number)
}

/// Adds a path behind a space.
fn add_path(line: &mut String, path: &SharedPath) -> Result<(), AllocError>
    ensures { OnOk result (string_bytes line.new ≡ string_bytes line.old ++ space ∷ written (Path path.now)) }
{
    line.push(' ')?;
    push_path(line, path)
}

/// Adds a text behind a space.
fn add_text(line: &mut String, text: &Text) -> Result<(), AllocError>
    ensures { OnOk result (string_bytes line.new ≡ string_bytes line.old ++ space ∷ written (grammar.Text text.now)) }
{
    line.push(' ')?;
    push_text(line, text)
}

/// Adds bytes in hexadecimal behind a space.
fn add_hexadecimal(alloc: Global, line: &mut String, bytes: &Blob) -> Result<(), AllocError>
    ensures { OnOk result (string_bytes line.new ≡ string_bytes line.old ++ space ∷ written (grammar.Hexadecimal bytes.now)) }
{
    line.push(' ')?;
    push_hexadecimal(alloc, line, bytes)
}

/// The word and one number.
fn with_number(alloc: Global, word: Word, number: u64) -> Result<String, AllocError>
    ensures { IfOk result (λ line. string_bytes line ≡ spaced (name_of word) (written (Number number) ∷ [])) }
{
    let mut line = word.written(alloc)?;
    add_number(&mut line, number)?;
    Ok(line)
}

/// The word and two numbers.
fn with_two(alloc: Global, word: Word, first: u64, second: u64) -> Result<String, AllocError>
    ensures { IfOk result (λ line. string_bytes line ≡ spaced (name_of word) (written (Number first) ∷ written (Number second) ∷ [])) }
{
    let mut line = word.written(alloc)?;
    add_number(&mut line, first)?;
    add_number(&mut line, second)?;
    Ok(line)
}

/// The word and three numbers.
fn with_three(
    alloc: Global,
    word: Word,
    first: u64,
    second: u64,
    third: u64,
) -> Result<String, AllocError>
    ensures { IfOk result (λ line. string_bytes line ≡ spaced (name_of word) (written (Number first) ∷ written (Number second) ∷ written (Number third) ∷ [])) }
{
    let mut line = with_two(alloc, word, first, second)?;
    add_number(&mut line, third)?;
    Ok(line)
}

/// The word, a number and a path.
fn with_path(
    alloc: Global,
    word: Word,
    daemon: u64,
    path: &SharedPath,
) -> Result<String, AllocError>
    ensures { IfOk result (λ line. string_bytes line ≡ spaced (name_of word) (written (Number daemon) ∷ written (Path path.now) ∷ [])) }
{
    let mut line = with_number(alloc, word, daemon)?;
    add_path(&mut line, path)?;
    Ok(line)
}

/// Adds a content behind a space.
fn add_content(alloc: Global, line: &mut String, content: &Content) -> Result<(), AllocError>
    ensures { OnOk result (string_bytes line.new ≡ string_bytes line.old ++ space ∷ written (Contents content.now)) }
{
    line.push(' ')?;
    push_content(alloc, line, content)
}

fn outside_line(
    alloc: Global,
    daemon: u64,
    path: &SharedPath,
    content: &Content,
) -> Result<String, AllocError>
    ensures { IfOk result (λ line. string_bytes line ≡ line_of (Move.Outside daemon path.now content.now)) }
{
    let mut line = with_path(alloc, Word::Outside, daemon, path)?;
    add_content(alloc, &mut line, content)?;
    Ok(line)
}

fn report_line(
    alloc: Global,
    daemon: u64,
    path: &SharedPath,
    content: &Content,
) -> Result<String, AllocError>
    ensures { IfOk result (λ line. string_bytes line ≡ line_of (Move.Report daemon path.now content.now)) }
{
    let mut line = with_path(alloc, Word::Report, daemon, path)?;
    add_content(alloc, &mut line, content)?;
    Ok(line)
}

fn load_line(alloc: Global, daemon: u64, base: &Text, disk: &Blob) -> Result<String, AllocError>
    ensures { IfOk result (λ line. string_bytes line ≡ line_of (Move.Load daemon base.now disk.now)) }
{
    let mut line = with_number(alloc, Word::Load, daemon)?;
    add_text(&mut line, base)?;
    add_hexadecimal(alloc, &mut line, disk)?;
    Ok(line)
}

fn editor_line(
    alloc: Global,
    editor: u64,
    daemon: u64,
    path: &SharedPath,
    text: &Text,
) -> Result<String, AllocError>
    ensures { IfOk result (λ line. string_bytes line ≡ line_of (Move.Editor editor daemon path.now text.now)) }
{
    let mut line = with_two(alloc, Word::Editor, editor, daemon)?;
    add_path(&mut line, path)?;
    add_text(&mut line, text)?;
    Ok(line)
}

fn typed_line(
    alloc: Global,
    editor: u64,
    place: u64,
    gone: u64,
    text: &Text,
) -> Result<String, AllocError>
    ensures { IfOk result (λ line. string_bytes line ≡ line_of (Move.Typed editor place gone text.now)) }
{
    let mut line = with_three(alloc, Word::Typed, editor, place, gone)?;
    add_text(&mut line, text)?;
    Ok(line)
}

fn stop_line(alloc: Global, daemon: u64, call: u64, mode: Mode) -> Result<String, AllocError>
    ensures { IfOk result (λ line. string_bytes line ≡ line_of (Move.Stop daemon call mode)) }
{
    let mut line = with_two(alloc, Word::Stop, daemon, call)?;
    line.push(' ')?;
    push_mode(&mut line, mode)?;
    Ok(line)
}

fn begin_line(alloc: Global, daemon: u64, conn: u64, speaker: Speaker) -> Result<String, AllocError>
    ensures { IfOk result (λ line. string_bytes line ≡ spaced (name_of Word.Begin) (written (Number daemon) ∷ written (Number conn) ∷ written (Fixed (speaker_word speaker)) ∷ [])) }
{
    let mut line = with_two(alloc, Word::Begin, daemon, conn)?;
    line.push(' ')?;
    push_speaker(&mut line, speaker)?;
    Ok(line)
}

fn hear_line(alloc: Global, daemon: u64, conn: u64, bytes: &Blob) -> Result<String, AllocError>
    ensures { IfOk result (λ line. string_bytes line ≡ line_of (Move.Hear daemon conn bytes.now)) }
{
    let mut line = with_two(alloc, Word::Hear, daemon, conn)?;
    add_hexadecimal(alloc, &mut line, bytes)?;
    Ok(line)
}

/// The line that is written for the move, without an LF. It asks for this move, unless the move is a `Load` or a
/// `Hear` without bytes: no line asks for such a move.
pub fn write_line(alloc: Global, moved: &Move) -> Result<String, AllocError>
    ensures { IfOk result (λ line. string_bytes line ≡ line_of moved.now) }
{
    match moved {
        Move::Daemon(daemon) => with_number(alloc, Word::Daemon, *daemon),
        Move::Load(daemon, base, disk) => load_line(alloc, *daemon, base, disk),
        Move::Editor(index, daemon, path, text) => editor_line(alloc, *index, *daemon, path, text),
        Move::Typed(editor, place, gone, text) => typed_line(alloc, *editor, *place, *gone, text),
        Move::Up(editor) => with_number(alloc, Word::Up, *editor),
        Move::Down(editor) => with_number(alloc, Word::Down, *editor),
        Move::Settle(editor) => with_number(alloc, Word::Settle, *editor),
        Move::Close(editor) => with_number(alloc, Word::Close, *editor),
        Move::Open(editor) => with_number(alloc, Word::Open, *editor),
        Move::Cut(editor) => with_number(alloc, Word::Cut, *editor),
        Move::Show(editor) => with_number(alloc, Word::Show, *editor),
        Move::File(daemon, path) => with_path(alloc, Word::File, *daemon, path),
        Move::Held(daemon) => with_number(alloc, Word::Held, *daemon),
        Move::Link(from, to) => with_two(alloc, Word::Link, *from, *to),
        Move::Pass(from, to, frame) => with_three(alloc, Word::Pass, *from, *to, *frame),
        Move::Copy(from, to, frame) => with_three(alloc, Word::Copy, *from, *to, *frame),
        Move::Sync(from, to, most) => with_three(alloc, Word::Sync, *from, *to, *most),
        Move::Unlink(from, to) => with_two(alloc, Word::Unlink, *from, *to),
        Move::Outside(daemon, path, content) => outside_line(alloc, *daemon, path, content),
        Move::Sweep(daemon) => with_number(alloc, Word::Sweep, *daemon),
        Move::Report(daemon, path, content) => report_line(alloc, *daemon, path, content),
        Move::Disk(daemon, path) => with_path(alloc, Word::Disk, *daemon, path),
        Move::Crash(daemon) => with_number(alloc, Word::Crash, *daemon),
        Move::Restart(daemon) => with_number(alloc, Word::Restart, *daemon),
        Move::Stop(daemon, call, mode) => stop_line(alloc, *daemon, *call, *mode),
        Move::BeginEditor(daemon, conn) => begin_line(alloc, *daemon, *conn, Speaker::Editor),
        Move::BeginPeer(daemon, conn) => begin_line(alloc, *daemon, *conn, Speaker::Peer),
        Move::Hear(daemon, conn, bytes) => hear_line(alloc, *daemon, *conn, bytes),
        Move::End(daemon, conn) => with_two(alloc, Word::End, *daemon, *conn),
    }
}
