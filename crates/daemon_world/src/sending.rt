ghost use Rattle.std.specs.Prelude.{◌≡◌, ℕ, ◌<◌, [], ◌∷◌, ◌++◌, map, length, IfOk, IfSome, IfNone, OnOk, string_bytes};
ghost use Rattle.daemon_core.specs.declared.events.Output.TheVariants.{Send};
ghost use Rattle.kept_world.specs.Events.{fed_line, fed_lines};
ghost use Rattle.kept_world.specs.Worlds.{lost_with, without_host};
ghost use Rattle.daemon_world.specs.Serving.{told, HasNobody, HasReceiver};

use crate::machine::Machine;
use daemon_core::Output;
use daemon_host::push_told;
use editor_seat::EditorSeat;
use plain_world::FIRST_OWN;
use std::alloc::{AllocError, Global};
use tt_base::{Blob, List};

/// The connection of an editor ends, if it is to this daemon.
fn lose(editor: &mut EditorSeat, d: u64)
    ensures { editor.new ≡ lost_with d editor.old }
{
    if editor.daemon() == d {
        editor.cut();
    }
}

/// The connections of a daemon's editors end.
fn lose_all(editors: &mut [EditorSeat], d: u64)
    ensures { editors.new ≡ map (lost_with d) editors.old }
{
    for editor in editors.iter_mut() {
        lose(editor, d);
    }
}

impl Machine {
    /// What always holds: no editor has a connection that the script feeds.
    fn settled(&self)
        ensures { (d n : ℕ) → n < FIRST_OWN → HasNobody self.now d n }
    {
        let _ = &self.owners;
    }

    /// The place of the editor that has a connection to a daemon, if one has it. It is found by the connection's number.
    fn receiver(&self, d: u64, n: u64) -> Option<usize>
        ensures none { IfNone result (HasNobody self.now d n) }
        ensures some { IfSome result (HasReceiver self.now d n) }
    {
        self.settled();
        if n < FIRST_OWN {
            return None;
        }
        let place = (n - FIRST_OWN) as usize;
        if place >= self.owners.len() {
            return None;
        }
        let e = self.owners[place] as usize;
        if e >= self.editors.len() {
            return None;
        }
        let editor = &self.editors[e];
        let Some(own) = editor.connection() else {
            return None;
        };
        if own != n {
            return None;
        }
        if editor.daemon() != d {
            return None;
        }
        Some(e)
    }

    /// A frame that a daemon sends is under way to the editor that has the connection, if one has it.
    fn receive(&mut self, d: u64, n: u64, frame: Blob) -> Result<(), AllocError>
        ensures { OnOk result (self.new ≡ told self.old d (Send n frame ∷ [])) }
    {
        let Some(e) = self.receiver(d, n) else {
            return Ok(());
        };
        let editor = &mut self.editors[e];
        editor.receive(frame)?;
        Ok(())
    }

    /// What a daemon sends is under way to the editor that has the connection, or printed where the script feeds that.
    fn send(
        &mut self,
        alloc: Global,
        d: u64,
        output: Output,
        printed: &mut String,
    ) -> Result<(), AllocError>
        ensures editors { OnOk result (self.new ≡ told self.old d (output ∷ [])) }
        ensures printed { OnOk result (string_bytes printed.new ≡ string_bytes printed.old ++ fed_line d output) }
    {
        match output {
            Output::Send(n, frame) => {
                if n < FIRST_OWN {
                    self.settled();
                    push_told(alloc, printed, d, n, &frame)
                } else {
                    self.receive(d, n, frame)
                }
            }
            Output::HangUp(_) => Ok(()),
            Output::Notice(_) => Ok(()),
            Output::Shutdown => Ok(()),
        }
    }

    /// All that a daemon sends, in order: what is printed of it.
    pub(crate) fn send_all(
        &mut self,
        alloc: Global,
        d: u64,
        outputs: List<Output>,
    ) -> Result<String, AllocError>
        ensures editors { OnOk result (self.new ≡ told self.old d outputs) }
        ensures printed { IfOk result (λ printed. string_bytes printed ≡ fed_lines d outputs) }
    {
        let mut printed = String::new(alloc);
        for output in outputs.into_vec() {
            self.send(alloc, d, output, &mut printed)?;
        }
        Ok(printed)
    }

    /// A daemon stops, and the connections of its editors end.
    pub(crate) fn stop(&mut self, d: u64)
        requires { d < length self.old.hosts }
        ensures { self.new ≡ without_host self.old d }
    {
        self.hosts[d as usize] = None;
        lose_all(&mut self.editors, d);
    }
}
