ghost use Rattle.std.specs.Prelude.{◌≡◌, true, [], is_ok, IfOk, IsOk, OnOk, string_bytes};
ghost use Rattle.kept_world.specs.Moves.{IsMove, can_move};
ghost use Rattle.plain_world.specs.Base.{script_base};
ghost use Rattle.plain_world.specs.RawFrames.{Reader};
ghost use Rattle.daemon_world.specs.Worlds.{takes_no_memory};

use crate::machine::Machine;
use replay_script::Move;
use std::alloc::{AllocError, Global};

/// What is printed of a move that prints nothing, where it is made.
fn quietly(alloc: Global, done: Result<(), AllocError>) -> Result<String, AllocError>
    ensures made { OnOk result (is_ok done ≡ true) }
    ensures lines { IfOk result (λ printed. string_bytes printed ≡ []) }
{
    done?;
    Ok(String::new(alloc))
}

impl Machine {
    /// Makes a move that is possible: what is printed.
    pub(crate) fn make(&mut self, alloc: Global, moved: &Move) -> Result<String, AllocError>
        requires { can_move script_base self.old moved.now ≡ true }
        ensures moved { IfOk result (λ printed. (reader : Reader)
            → IsMove script_base reader self.old moved.now (record { world = self.new; printed = string_bytes printed })) }
        ensures quick { takes_no_memory moved.now ≡ true → IsOk result }
    {
        match moved {
            Move::Daemon(_) => quietly(alloc, self.begin_daemon(alloc)),
            Move::Editor(_, d, path, text) => quietly(alloc, self.join(alloc, *d, path, text)),
            Move::Typed(e, place, gone, text) => {
                quietly(alloc, self.type_text(alloc, *e, *place, *gone, text))
            }
            Move::Up(e) => self.up(alloc, *e),
            Move::Down(e) => self.down(alloc, *e),
            Move::Settle(e) => self.settle(alloc, *e),
            Move::Close(e) => quietly(alloc, self.close(alloc, *e)),
            Move::Open(e) => quietly(alloc, self.open(alloc, *e)),
            Move::Cut(e) => {
                self.cut(*e);
                Ok(String::new(alloc))
            }
            Move::Show(e) => self.show(alloc, *e),
            Move::File(d, path) => self.write_file(alloc, *d, path),
            Move::Held(d) => self.write_held(alloc, *d),
            Move::BeginEditor(d, c) => quietly(alloc, self.begin_fed(alloc, *d, *c)),
            Move::Hear(d, c, piece) => self.hear(alloc, *d, *c, piece),
            Move::End(d, c) => {
                self.end_fed(*d, *c);
                Ok(String::new(alloc))
            }
            _ => unreachable!(),
        }
    }
}
