ghost use Rattle.std.specs.Prelude.{◌≡◌, ◌↔◌, ◌+◌, ◌<◌, ◌^◌, true, None, IfOk, OnOk, OnErr, string_bytes};
ghost use Rattle.kept_world.specs.Laws.{Plays};
ghost use Rattle.kept_world.specs.Tie.{Ties};
ghost use Rattle.plain_world.specs.Base.{script_base};
ghost use Rattle.plain_world.specs.RawFrames.{Reader};
ghost use Rattle.plain_world.specs.Step.{played};
ghost use Rattle.plain_world.specs.World as P;
ghost use Rattle.daemon_world.specs.Worlds.{new_world, takes_no_memory};

use crate::machine::{Machine, read_base};
use file_uri::Base;
use kept_world::laws::{moves_are_alike, moves_are_possible_alike};
use replay_script::Move;
use std::alloc::{AllocError, Global};
use std::marker::Model;
use thiserror::Error;

/// Why a move was not played.
#[derive(Clone, Copy, Debug, PartialEq, Eq, Error)]
pub enum PlayEnd {
    /// The move is not possible in this world, which is as before.
    #[error("the move is not possible")]
    NotPossible,
    /// Memory, or a count in u64, ran out. The world is spent.
    #[error("out of memory")]
    Memory,
}

/// The daemons and editors of a script, which moves change.
///
/// It is seen as the world that `kept_world` defines, and how many moves were played in it.
#[derive(Debug, Drop)]
pub struct World {
    base: Base,
    machine: Machine,
    moves: u64,
}

impl Model for World {
    ghost use Rattle.std.specs.Prelude.{◌≡◌};
    ghost use Rattle.plain_world.specs.Base.{script_base};
    ghost use Rattle.daemon_world.specs.Worlds.{WorldView};

    ghost Value = { WorldView };

    ghost view = { λ w. record { kept = w.machine; moves = w.moves } };

    ghost invariant = { λ w. w.base ≡ script_base };
}

impl World {
    /// A world without daemons and editors.
    pub fn new(alloc: Global) -> Result<World, AllocError>
        ensures { IfOk result (λ world. world ≡ new_world) }
    {
        Ok(World {
            base: read_base(alloc)?,
            machine: Machine::new(alloc),
            moves: 0,
        })
    }

    /// How many moves were played.
    pub fn moves(&self) -> u64
        ensures { result ≡ self.now.moves }
    {
        self.moves
    }

    /// Plays one move, and gives the lines that it prints, each with its LF.
    ///
    /// A world that is tied to one of the plain machine leads to the next one there, and prints the same. Whether a move is possible is
    /// judged before memory is asked for, and the end of a connection asks for none.
    pub fn play(&mut self, alloc: Global, moved: &Move) -> Result<String, PlayEnd>
        ensures plays { (reader : Reader) (w : P.World) → Ties script_base self.old.kept w → IfOk result (λ printed.
            Plays script_base reader w moved.now (record { world = self.new.kept; printed = string_bytes printed })) }
        ensures not_possible { (reader : Reader) (w : P.World) → Ties script_base self.old.kept w
            → (result ≡ Err PlayEnd.NotPossible) ↔ (played script_base reader w moved.now ≡ None) }
        ensures as_before { result ≡ Err PlayEnd.NotPossible → self.new ≡ self.old }
        ensures counts { OnOk result (self.new.moves ≡ self.old.moves + 1) }
        ensures uncounted { OnErr result (self.new.moves ≡ self.old.moves) }
        ensures quick { takes_no_memory moved.now ≡ true → self.old.moves + 1 < 2 ^ 64 → result ≡ Err PlayEnd.Memory → ⊥ }
    {
        moves_are_alike();
        moves_are_possible_alike();
        self.base.settled();
        if !self.machine.can_play(moved) {
            return Err(PlayEnd::NotPossible);
        }
        let Some(moves) = self.moves.checked_add(1) else {
            return Err(PlayEnd::Memory);
        };
        let Ok(printed) = self.machine.make(alloc, moved) else {
            return Err(PlayEnd::Memory);
        };
        self.moves = moves;
        Ok(printed)
    }
}
