ghost use Rattle.std.specs.Prelude.{◌≡◌, true, IfOk, OnErr, string_bytes};
ghost use Rattle.frame_world.specs.Seats.{IsDelivered};
ghost use Rattle.kept_world.specs.Moves.{IsUp, IsDown, IsSettled, GoesUp, GoesDown, has_up, has_down, is_connected};
ghost use Rattle.kept_world.specs.Worlds.{editor_of};

use crate::machine::Machine;
use editor_client::HeardNote;
use editor_seat::{EditorSeat, write_note};
use std::alloc::{AllocError, Global};

/// The first frame under way to an editor comes to it, where its counts have room for one more. After want of memory it is as it was.
fn deliver_to(alloc: Global, editor: &mut EditorSeat) -> Result<HeardNote, AllocError>
    ensures delivered { IfOk result (λ note. IsDelivered editor.old.seat note editor.new.seat) }
    ensures rest { editor.new ≡ record editor.old { seat = editor.new.seat } }
    ensures err { OnErr result (editor.new ≡ editor.old) }
{
    if !editor.has_room() {
        return Err(AllocError);
    }
    match editor.deliver(alloc) {
        Ok(note) => Ok(note),
        Err(_) => Err(AllocError),
    }
}

impl Machine {
    /// The first body under way from an editor comes to its daemon.
    pub(crate) fn up(&mut self, alloc: Global, e: u64) -> Result<String, AllocError>
        requires { has_up (editor_of self.old e) ≡ true }
        ensures { IfOk result (λ printed. IsUp self.old e (record { world = self.new; printed = string_bytes printed })) }
    {
        let editor = &mut self.editors[e as usize];
        let d = editor.daemon();
        let Some(n) = editor.connection() else {
            unreachable!()
        };
        let Some(body) = editor.take_up() else {
            unreachable!()
        };
        let lines = self.handle(alloc, d, n, body)?;
        Ok(lines)
    }

    /// The first frame under way to an editor comes to it. What a daemon has written is always a message to an editor.
    pub(crate) fn down(&mut self, alloc: Global, e: u64) -> Result<String, AllocError>
        requires { has_down (editor_of self.old e) ≡ true }
        ensures { IfOk result (λ printed. IsDown self.old e (record { world = self.new; printed = string_bytes printed })) }
    {
        let editor = &mut self.editors[e as usize];
        let note = deliver_to(alloc, editor)?;
        let line = write_note(alloc, e, note)?;
        Ok(line)
    }

    /// So many bodies under way from an editor come to its daemon in turn, as long as there is one.
    fn up_times(&mut self, alloc: Global, e: u64, times: usize) -> Result<String, AllocError>
        ensures { IfOk result (λ printed. GoesUp e times self.old (record { world = self.new; printed = string_bytes printed })) }
    {
        let mut printed = String::new(alloc);
        for _ in 0..times {
            if !self.has_up(e) {
                return Ok(printed);
            }
            let lines = self.up(alloc, e)?;
            printed.push_str(lines.as_str())?;
        }
        Ok(printed)
    }

    /// So many frames under way to an editor come to it in turn, as long as there is one.
    fn down_times(&mut self, alloc: Global, e: u64, times: usize) -> Result<String, AllocError>
        ensures { IfOk result (λ printed. GoesDown e times self.old (record { world = self.new; printed = string_bytes printed })) }
    {
        let mut printed = String::new(alloc);
        for _ in 0..times {
            if !self.has_down(e) {
                return Ok(printed);
            }
            let lines = self.down(alloc, e)?;
            printed.push_str(lines.as_str())?;
        }
        Ok(printed)
    }

    /// All that is under way from an editor comes to its daemon, and then all that is under way to it comes to it.
    pub(crate) fn settle(&mut self, alloc: Global, e: u64) -> Result<String, AllocError>
        requires { is_connected (editor_of self.old e) ≡ true }
        ensures { IfOk result (λ printed. IsSettled self.old e (record { world = self.new; printed = string_bytes printed })) }
    {
        let Some(editor) = self.editor(e) else {
            unreachable!()
        };
        let up = editor.up_len();
        let mut printed = self.up_times(alloc, e, up)?;
        let Some(editor) = self.editor(e) else {
            unreachable!()
        };
        let down = editor.down_len();
        let lines = self.down_times(alloc, e, down)?;
        printed.push_str(lines.as_str())?;
        Ok(printed)
    }
}
