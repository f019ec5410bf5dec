ghost use Rattle.std.specs.Prelude.{◌≡◌, ◌==◌, position, ◌<◌, ◌+◌, ◌^◌, ◌++◌, ◌∷◌, [], Err, true, length, MatchOption, IfOk};
ghost use Rattle.std.specs.List.{list_all};
ghost use Rattle.daemon_world.specs.Worlds.{new_world};
ghost use Rattle.plain_world.specs.RawFrames.{Reader};
ghost use Rattle.plain_world.specs.World as plain;
ghost use Rattle.replay_script.specs.Reads.{ReadsLine};
ghost use Rattle.replay.specs.Script.{bytes_ask, is_inner};
ghost use Rattle.replay.specs.Ending.{StandsFor, WroteSo, CountsFaults, GivesLine, PlaysLine, PlaysPiece};
ghost use Rattle.replay.specs.declared.faults.ReplayFault.TheVariants.{Memory};

use crate::faults::ReplayFault;
use daemon_world::World;
use outside::{Gave, Sink};
use replay_script::{LineFault, Move, read_line};
use std::alloc::{AllocError, Global};
use std::str;

/// How far a script was played: the world, the bytes behind the last LF, and the number of the last
/// line begun, whose LF has come.
#[derive(Drop)]
pub struct Player {
    pub world: World,
    pub pending: Vec<u8>,
    pub line: u64,
}

/// Writes all of the bytes, in as many calls as the sink takes.
fn write_all<K: Sink>(alloc: Global, out: &mut K, bytes: &[u8]) -> Result<(), ReplayFault>
    ensures wrote { WroteSo (K.meaning out.old) (K.meaning out.new) bytes.now result }
    ensures counts { CountsFaults (K.meaning out.old) (K.meaning out.new) result }
    ensures some { result ≡ Err Memory → 0 < length bytes.now }
{
    let mut rest = bytes;
    while !rest.is_empty() {
        match out.write(alloc, rest) {
            Gave::Bytes(count) => rest = &rest[count..],
            Gave::Failed => return Err(ReplayFault::SinkFailed),
            Gave::Memory => return Err(ReplayFault::Memory),
        }
    }
    Ok(())
}

/// The move that a line of bytes asks for, given without its LF. Bytes that are no text are outside the grammar.
fn read_bytes(alloc: Global, line: &[u8]) -> Result<Option<Move>, LineFault>
    ensures { ReadsLine result (bytes_ask line.now) }
{
    match str::from_utf8(line) {
        Ok(text) => read_line(alloc, text),
        Err(_) => Err(LineFault::NotAMove),
    }
}

/// Plays what a line of bytes asks for, and gives what it prints. A line that asks for nothing prints nothing.
fn play_bytes(alloc: Global, world: &mut World, line: &[u8]) -> Result<String, ReplayFault>
    ensures { (reader : Reader) (w : plain.World) → StandsFor world.old w → GivesLine reader w world.new line.now result }
{
    match read_bytes(alloc, line)? {
        Some(moved) => Ok(world.play(alloc, &moved)?),
        None => Ok(String::new(alloc)),
    }
}

/// Plays a line, given without its LF, and writes what it prints.
fn play_line<K: Sink>(
    alloc: Global,
    world: &mut World,
    line: &[u8],
    out: &mut K,
) -> Result<(), ReplayFault>
    ensures { PlaysLine world.old world.new (K.meaning out.old) (K.meaning out.new) line.now result }
{
    let printed = play_bytes(alloc, world, line)?;
    write_all(alloc, out, printed.as_bytes())
}

fn newline_place(bytes: &[u8]) -> Option<usize>
    ensures { result ≡ position (λ byte. byte == 10) bytes.now }
{
    bytes.iter().position(|byte| *byte == b'\n')
}

/// The bytes before the first LF and those behind it, where there is an LF.
fn first_line(bytes: &[u8]) -> Option<(&[u8], &[u8])>
    ensures { MatchOption result (list_all is_inner bytes.entry.now ≡ true) (λ parts. (bytes.entry.now ≡ parts.0.now ++ 10 ∷ parts.1.now) × (list_all is_inner parts.0.now ≡ true)) }
{
    let place = newline_place(bytes)?;
    Some((&bytes[..place], &bytes[place + 1..]))
}

impl Player {
    /// A player that has played nothing.
    pub fn new(alloc: Global) -> Result<Player, AllocError>
        ensures world { IfOk result (λ player. player.world ≡ new_world) }
        ensures pending { IfOk result (λ player. player.pending.items ≡ []) }
        ensures line { IfOk result (λ player. player.line ≡ 0) }
    {
        Ok(Player {
            world: World::new(alloc)?,
            pending: Vec::new(alloc),
            line: 0,
        })
    }
}

/// Plays the line begun, whose LF has come. No bytes are begun behind it.
fn end_line<K: Sink>(alloc: Global, player: &mut Player, out: &mut K) -> Result<(), ReplayFault>
    ensures plays { PlaysLine player.old.world player.new.world (K.meaning out.old) (K.meaning out.new) player.old.pending.items result }
    ensures line { player.new.line ≡ player.old.line }
    ensures pending { player.new.pending.items ≡ [] }
{
    let played = play_line(alloc, &mut player.world, player.pending.as_slice(), out);
    player.pending.clear();
    played
}

/// Plays the lines that end in this piece of a script, each as soon as it is whole, and keeps the
/// bytes behind them for the next piece.
pub fn play_piece<K: Sink>(
    alloc: Global,
    player: &mut Player,
    piece: &[u8],
    out: &mut K,
) -> Result<(), ReplayFault>
    requires fits { player.old.line + length piece.now < 2 ^ 64 }
    requires begun { list_all is_inner player.old.pending.items ≡ true }
    ensures { PlaysPiece player.old player.new (K.meaning out.old) (K.meaning out.new) piece.now result }
{
    let mut rest = piece;
    while let Some((line, after)) = first_line(rest) {
        player.line += 1;
        player.pending.extend_from_slice(line)?;
        rest = after;
        end_line(alloc, player, out)?;
    }
    player.pending.extend_from_slice(rest)?;
    Ok(())
}
