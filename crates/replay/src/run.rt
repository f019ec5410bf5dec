ghost use Rattle.std.specs.Prelude.{◌≡◌, ◌≢◌, ◌⊎◌, ◌↔◌, ◌<◌, ◌≤◌, ◌++◌, [], List, ℕ, length, Some, None, true, false};
ghost use Rattle.outside.specs.Faults.{Rose};
ghost use Rattle.plain_world.specs.RawFrames.{Reader};
ghost use Rattle.replay.specs.Faults.{status_of};
ghost use Rattle.replay.specs.Script.{lines_of, run_over, most_bytes};
ghost use Rattle.replay.specs.Table.{HasEnded, GoesOn, WasGiven, WasWritten, IsPlayable, IsPlayedTo, IsRefusedFor, IsShortOf, IsLineBegun, IsFrontOf, run_to};
ghost use Rattle.replay.specs.declared.faults.ReplayFault.{ReplayFault};
ghost use Rattle.replay.specs.declared.faults.ReplayFault.TheVariants.{Words, NoLineEnd};

use crate::faults::ReplayFault;
use crate::playing::play_source;
use outside::{Sink, Source};
use std::alloc::Global;

/// How a replay ended.
#[derive(Clone, Copy, Debug, PartialEq, Eq)]
pub struct ReplayEnd {
    /// The status of the program: 0 where the whole script was played, 1 for wrong words, 2 for a
    /// line that cannot be played, 4 for a failed source, 5 for a failed sink, 6 for want of
    /// memory, and 7 for a script that is too long.
    pub status: u8,
    /// The number of the last line begun, from 1; 0 where none was.
    pub line: u64,
    /// What ended the replay before the end of the script, if anything did.
    pub fault: Option<ReplayFault>,
}

fn status_of(fault: Option<ReplayFault>) -> u8
    ensures { result ≡ status_of fault }
{
    match fault {
        None => 0,
        Some(ReplayFault::Words) => 1,
        Some(ReplayFault::NotAMove | ReplayFault::NotPossible | ReplayFault::NoLineEnd) => 2,
        Some(ReplayFault::SourceFailed) => 4,
        Some(ReplayFault::SinkFailed) => 5,
        Some(ReplayFault::Memory) => 6,
        Some(ReplayFault::TooLong) => 7,
    }
}

impl ReplayEnd {
    /// The end for this fault, or for none, with the number of the last line begun.
    pub fn new(fault: Option<ReplayFault>, line: u64) -> ReplayEnd
        ensures { result ≡ record { status = status_of fault; line = line; fault = fault } }
    {
        ReplayEnd {
            status: status_of(fault),
            line,
            fault,
        }
    }
}

/// Plays the script of the source: reads it to its end, plays its lines, and writes what they print.
///
/// It waits for nobody and always returns. Want of memory, status 6, is the one answer that no
/// clause ties to a cause. What is said of a `reader` holds for each reading of streams by the grammar of frames: there is
/// one, and no other.
pub fn replay_run<S: Source, K: Sink>(
    alloc: Global,
    words: &[String],
    script: &mut S,
    out: &mut K,
) -> ReplayEnd
    // The status tells the fault, but for the three of a line that is refused, which share 2.
    ensures status { result.status ≡ status_of result.fault }

    // What was taken and written, where the source and the sink tell it: at most the most bytes.
    ensures given { (all : List ℕ) → (S.meaning script.old).left ≡ Some all
        → (bytes : List ℕ) × WasGiven (S.meaning script.old) (S.meaning script.new) bytes }
    ensures wrote { (front : List ℕ) → (K.meaning out.old).written ≡ Some front
        → (bytes : List ℕ) × WasWritten (K.meaning out.old) (K.meaning out.new) bytes }
    ensures bounded { (bytes : List ℕ) → WasGiven (S.meaning script.old) (S.meaning script.new) bytes
        → length bytes ≤ most_bytes }
    ensures room { (result.status ≡ 0) ⊎ (result.status ≡ 4) → (bytes : List ℕ)
        → WasGiven (S.meaning script.old) (S.meaning script.new) bytes → length bytes < most_bytes }

    // Only 0, and 2 for a script that ends within a line, come behind the end of the source.
    ensures goes_on { (result.status ≡ 0 → ⊥) → (result.fault ≡ Some NoLineEnd → ⊥)
        → GoesOn (S.meaning script.old) (S.meaning script.new) }

    // 1: exactly where there are words. Nothing is read or written, and the line is 0.
    ensures words { (result.status ≡ 1) ↔ (0 < length words.now) }
    ensures untouched { result.status ≡ 1 → (result.line ≡ 0) × (script.new ≡ script.old) × (out.new ≡ out.old) }

    // 0: the source was read to its end, each line was played, and the whole output was written.
    ensures ended { result.status ≡ 0 → HasEnded (S.meaning script.new) }
    ensures played { (reader : Reader) → result.status ≡ 0 → (all : List ℕ) → (S.meaning script.old).left ≡ Some all
        → IsPlayable reader all × (result.line ≡ (run_over reader all).line) }
    ensures output { (reader : Reader) → result.status ≡ 0 → (all front : List ℕ) → (S.meaning script.old).left ≡ Some all
        → (K.meaning out.old).written ≡ Some front
        → (K.meaning out.new).written ≡ Some (front ++ (run_over reader all).printed) }

    // 2: exactly where `line` is the first that cannot be played, or the script ends within it; `fault` says which, and why the
    // line cannot be played. It yields to 5 and 6.
    ensures refused { (reader : Reader) (cause : ReplayFault) → result.status ≡ 2 → result.fault ≡ Some cause → (bytes : List ℕ)
        → WasGiven (S.meaning script.old) (S.meaning script.new) bytes
        → IsRefusedFor reader (S.meaning script.old) (S.meaning script.new) bytes cause result.line }
    ensures refuses { (reader : Reader) (cause : ReplayFault) (bytes : List ℕ) → WasGiven (S.meaning script.old) (S.meaning script.new) bytes
        → (run_over reader bytes).stop ≡ Some cause → (result.fault ≡ Some cause) ⊎ (result.status ≡ 5) ⊎ (result.status ≡ 6) }
    ensures cut_off { (bytes : List ℕ) → WasGiven (S.meaning script.old) (S.meaning script.new) bytes
        → (S.meaning script.old).ended ≡ false → (S.meaning script.new).ended ≡ true
        → (lines_of bytes).rest ≢ [] → result.fault ≡ Some NoLineEnd }

    // 4 and 5: exactly where the count of the source or of the sink rose in this call: no fault is passed over.
    ensures source_fault { result.status ≡ 4 → Rose (S.meaning script.old).faults (S.meaning script.new).faults }
    ensures source_kept { (result.status ≡ 4 → ⊥) → (S.meaning script.new).faults ≡ (S.meaning script.old).faults }
    ensures sink_fault { result.status ≡ 5 → Rose (K.meaning out.old).faults (K.meaning out.new).faults }
    ensures sink_kept { (result.status ≡ 5 → ⊥) → (K.meaning out.new).faults ≡ (K.meaning out.old).faults }
    ensures failed_after { (reader : Reader) → result.status ≡ 4 → (bytes : List ℕ)
        → WasGiven (S.meaning script.old) (S.meaning script.new) bytes → IsPlayedTo reader bytes result.line }

    // 7: exactly where the most bytes were taken, and the source has not answered its end. It yields to 2, 5 and 6.
    ensures too_long { (reader : Reader) → result.status ≡ 7 → (bytes : List ℕ)
        → WasGiven (S.meaning script.old) (S.meaning script.new) bytes
        → (length bytes ≡ most_bytes) × IsPlayedTo reader bytes result.line × GoesOn (S.meaning script.old) (S.meaning script.new) }
    ensures full { (bytes : List ℕ) → WasGiven (S.meaning script.old) (S.meaning script.new) bytes → length bytes ≡ most_bytes
        → (result.status ≡ 7) ⊎ (result.status ≡ 2) ⊎ (result.status ≡ 5) ⊎ (result.status ≡ 6) }

    // 6: no clause says when it comes. All lines before `line` can be played, and 0 comes only where no line is whole.
    ensures memory { (reader : Reader) → result.status ≡ 6 → (bytes : List ℕ)
        → WasGiven (S.meaning script.old) (S.meaning script.new) bytes → IsLineBegun reader bytes result.line }

    // What was written: with every status but 5 and 6, all that the lines taken whole print; with these, a front of
    // it, with all that the lines before `line` print; and with 5 not all that `line` prints.
    ensures written { (reader : Reader) → (result.status ≡ 5 → ⊥) → (result.status ≡ 6 → ⊥) → (bytes written : List ℕ)
        → WasGiven (S.meaning script.old) (S.meaning script.new) bytes
        → WasWritten (K.meaning out.old) (K.meaning out.new) written → written ≡ (run_over reader bytes).printed }
    ensures front { (reader : Reader) → (result.status ≡ 5) ⊎ (result.status ≡ 6) → (bytes written : List ℕ)
        → WasGiven (S.meaning script.old) (S.meaning script.new) bytes
        → WasWritten (K.meaning out.old) (K.meaning out.new) written → IsFrontOf written (run_over reader bytes).printed }
    ensures short { (reader : Reader) → (result.status ≡ 5) ⊎ (result.status ≡ 6) → (bytes written : List ℕ)
        → WasGiven (S.meaning script.old) (S.meaning script.new) bytes
        → WasWritten (K.meaning out.old) (K.meaning out.new) written → IsShortOf reader bytes written result.line }
    ensures cut { (reader : Reader) → result.status ≡ 5 → (bytes written : List ℕ)
        → WasGiven (S.meaning script.old) (S.meaning script.new) bytes
        → WasWritten (K.meaning out.old) (K.meaning out.new) written
        → length written < length (run_to reader result.line bytes).printed }

    // A script that can be played, over a source and a sink that do not fail, is played whole, unless memory runs out.
    ensures complete { (reader : Reader) (all : List ℕ) → (S.meaning script.old).left ≡ Some all → IsPlayable reader all
        → length all < most_bytes → length words.now ≡ 0
        → (Rose (S.meaning script.old).faults (S.meaning script.new).faults → ⊥)
        → (Rose (K.meaning out.old).faults (K.meaning out.new).faults → ⊥)
        → (result.status ≡ 0) ⊎ (result.status ≡ 6) }
{
    if !words.is_empty() {
        return ReplayEnd::new(Some(ReplayFault::Words), 0);
    }
    let mut line = 0;
    let played = play_source(alloc, script, out, &mut line);
    ReplayEnd::new(played.err(), line)
}
