ghost use Rattle.std.specs.Prelude.{◌≡◌, ◌+◌, ◌^◌, ◌<◌, ◌≤◌, [], length};
ghost use Rattle.outside.specs.Takes.{Takes};
ghost use Rattle.daemon_world.specs.Worlds.{new_world};
ghost use Rattle.replay.specs.Ending.{IsWithin, EndsLines, EndsSource};

use crate::faults::ReplayFault;
use crate::player::{Player, play_piece};
use outside::{Sink, Source, Took};
use std::alloc::Global;

/// How many bytes of a script are taken at most.
const MOST_BYTES: u64 = 1_099_511_627_776;

/// How many bytes of a script are read at once.
const PIECE_BYTES: usize = 65_536;

/// Takes the next bytes, at most as many as `room`.
fn read_piece<S: Source>(source: &mut S, buf: &mut [u8], room: usize) -> Took
    requires some { 0 < room }
    requires fits { room ≤ length buf.old }
    ensures takes { Takes (S.meaning source.old) (S.meaning source.new) buf.new result }
    ensures within { IsWithin room result }
{
    source.read(&mut buf[..room])
}

/// Ends a script whose source has ended: the bytes behind its last LF are a line without LF.
fn end_lines(player: &mut Player) -> Result<(), ReplayFault>
    requires { player.old.line + 1 < 2 ^ 64 }
    ensures { EndsLines player.old player.new result }
{
    if player.pending.is_empty() {
        return Ok(());
    }
    player.line += 1;
    Err(ReplayFault::NoLineEnd)
}

/// Plays the script of the source, a piece at a time, from a player that has played nothing.
fn play_pieces<S: Source, K: Sink>(
    alloc: Global,
    player: &mut Player,
    buf: &mut [u8],
    source: &mut S,
    out: &mut K,
) -> Result<(), ReplayFault>
    requires room { length buf.old ≡ PIECE_BYTES }
    requires world { player.old.world ≡ new_world }
    requires pending { player.old.pending.items ≡ [] }
    requires line { player.old.line ≡ 0 }
    ensures { EndsSource (S.meaning source.old) (S.meaning source.new) (K.meaning out.old) (K.meaning out.new) result player.new.line }
{
    let mut taken = 0;
    while taken < MOST_BYTES {
        let room = (MOST_BYTES - taken).min(PIECE_BYTES as u64) as usize;
        match read_piece(source, buf, room) {
            Took::Bytes(count) => {
                taken += count as u64;
                play_piece(alloc, player, &buf[..count], out)?;
            }
            Took::Ended => return end_lines(player),
            Took::Failed => return Err(ReplayFault::SourceFailed),
        }
    }
    Err(ReplayFault::TooLong)
}

/// Plays the script of the source, writes what it prints to the sink, and leaves in `line` the number of the last line
/// begun.
///
/// Each line is played as soon as it is whole, and its output written before the next read.
pub fn play_source<S: Source, K: Sink>(
    alloc: Global,
    source: &mut S,
    out: &mut K,
    line: &mut u64,
) -> Result<(), ReplayFault>
    requires { line.old ≡ 0 }
    ensures { EndsSource (S.meaning source.old) (S.meaning source.new) (K.meaning out.old) (K.meaning out.new) result line.new }
{
    let mut player = Player::new(alloc)?;
    let mut buf = vec![in alloc; 0u8; PIECE_BYTES]?;
    let played = play_pieces(alloc, &mut player, buf.as_mut_slice(), source, out);
    *line = player.line;
    played
}
