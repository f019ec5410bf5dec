ghost use Rattle.std.specs.Prelude.{◌≡◌, ◌+◌, List, ℕ, is_some, length, nat_le};
ghost use Rattle.kept_world.specs.Moves.{can_move, has_up, has_down, is_connected, is_fed};
ghost use Rattle.kept_world.specs.Steps.{begins, joins, types, closes, opens, cuts, shows, tells_file, tells_held, raw_begins, raw_ends};
ghost use Rattle.kept_world.specs.Worlds.{running, editor_of};
ghost use Rattle.plain_world.specs.Base.{script_base};

use crate::machine::Machine;
use plain_world::{FIRST_OWN, LONGEST_SENT, MOST_DAEMONS, MOST_EDITORS};
use replay_script::Move;
use tt_base::Text;

/// Whether a text of this length has so many characters from the place on.
fn has_characters(len: usize, place: u64, gone: u64) -> bool
    ensures { result ≡ nat_le (place + gone) len }
{
    let len = len as u64;
    place <= len && gone <= len - place
}

// Whether each move is possible. None of this takes memory.
impl Machine {
    fn runs(&self, d: u64) -> bool
        ensures { result ≡ is_some (running self.now d) }
    {
        self.host(d).is_some()
    }

    fn can_begin(&self, d: u64) -> bool
        ensures { result ≡ is_some (begins script_base self.now d) }
    {
        d == self.hosts.len() as u64 && d < MOST_DAEMONS
    }

    fn can_join(&self, e: u64, d: u64, text: &Text) -> bool
        ensures { (path : List ℕ) → result ≡ is_some (joins self.now e d path text.now) }
    {
        self.runs(d)
            && e == self.editors.len() as u64
            && e < MOST_EDITORS
            && text.len() <= LONGEST_SENT
    }

    fn can_type(&self, e: u64, place: u64, gone: u64, text: &Text) -> bool
        ensures { result ≡ is_some (types self.now e place gone text.now) }
    {
        match self.editor(e) {
            Some(editor) => {
                has_characters(editor.shown().len(), place, gone) && text.len() <= LONGEST_SENT
            }
            None => false,
        }
    }

    pub(crate) fn has_up(&self, e: u64) -> bool
        ensures { result ≡ has_up (editor_of self.now e) }
    {
        match self.editor(e) {
            Some(editor) => editor.up_len() > 0,
            None => false,
        }
    }

    pub(crate) fn has_down(&self, e: u64) -> bool
        ensures { result ≡ has_down (editor_of self.now e) }
    {
        match self.editor(e) {
            Some(editor) => editor.down_len() > 0,
            None => false,
        }
    }

    fn is_connected(&self, e: u64) -> bool
        ensures { result ≡ is_connected (editor_of self.now e) }
    {
        match self.editor(e) {
            Some(editor) => editor.connection().is_some(),
            None => false,
        }
    }

    fn can_close(&self, e: u64) -> bool
        ensures { result ≡ is_some (closes self.now e) }
    {
        match self.editor(e) {
            Some(editor) => editor.connection().is_some() && !editor.state().is_closed(),
            None => false,
        }
    }

    fn can_open(&self, e: u64) -> bool
        ensures { result ≡ is_some (opens self.now e) }
    {
        match self.editor(e) {
            Some(editor) => {
                (editor.connection().is_some() || self.runs(editor.daemon()))
                    && editor.shown().len() <= LONGEST_SENT
                    && editor.state().is_closed()
            }
            None => false,
        }
    }

    fn can_cut(&self, e: u64) -> bool
        ensures { result ≡ is_some (cuts self.now e) }
    {
        match self.editor(e) {
            Some(editor) => editor.connection().is_some() && self.runs(editor.daemon()),
            None => false,
        }
    }

    fn can_show(&self, e: u64) -> bool
        ensures { result ≡ is_some (shows self.now e) }
    {
        self.editor(e).is_some()
    }

    fn is_fed(&self, d: u64, c: u64) -> bool
        ensures fed { result ≡ is_fed self.now d c }
        ensures ends { result ≡ is_some (raw_ends self.now d c) }
    {
        match self.host(d) {
            Some(host) => host.is_fed(c),
            None => false,
        }
    }

    fn can_begin_raw(&self, d: u64, c: u64) -> bool
        ensures { result ≡ is_some (raw_begins self.now d c) }
    {
        match self.host(d) {
            Some(host) => c < FIRST_OWN && !host.is_fed(c),
            None => false,
        }
    }

    /// Whether a move is possible. That is judged before memory is asked for.
    pub(crate) fn can_play(&self, moved: &Move) -> bool
        ensures { result ≡ can_move script_base self.now moved.now }
    {
        match moved {
            Move::Daemon(d) => self.can_begin(*d),
            Move::Editor(e, d, _, text) => self.can_join(*e, *d, text),
            Move::Typed(e, place, gone, text) => self.can_type(*e, *place, *gone, text),
            Move::Up(e) => self.has_up(*e),
            Move::Down(e) => self.has_down(*e),
            Move::Settle(e) => self.is_connected(*e),
            Move::Close(e) => self.can_close(*e),
            Move::Open(e) => self.can_open(*e),
            Move::Cut(e) => self.can_cut(*e),
            Move::Show(e) => self.can_show(*e),
            Move::File(d, _) => self.runs(*d),
            Move::Held(d) => self.runs(*d),
            Move::BeginEditor(d, c) => self.can_begin_raw(*d, *c),
            Move::Hear(d, c, _) => self.is_fed(*d, *c),
            Move::End(d, c) => self.is_fed(*d, *c),
            _ => false,
        }
    }
}
