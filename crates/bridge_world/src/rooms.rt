ghost use Rattle.std.specs.Prelude.{◌≡◌, ◌+◌, ◌<◌, ◌++◌, ◌∷◌, [], true, length, map, slice_get, Some, None, ◌≤◌, insert, IfSome, IfOk, IfErr, OnOk, OnErr};
ghost use Rattle.delta.specs.Cells.{base_length};
ghost use Rattle.bridge_world.specs.Lists.{Each, one_and_others, same};
ghost use Rattle.bridge_world.specs.Counted as counted;
ghost use Rattle.bridge_world.specs.Counted.{Editor as AnEditor};
ghost use Rattle.bridge_world.specs.Kept.{as_verdict};
ghost use Rattle.bridge_world.specs.Plain.{is_closed};
ghost use Rattle.bridge_world.specs.Room.{Joins, Types, Opens, Closes, Loses, Handles, Delivers, Pushes, plain_step, counted_step, empty_room, plain_room, told_of, changed, new_counted};
ghost use Rattle.bridge_world.specs.Steps.{IsForLink, HasRoom, HeldHasRoom, FirstApplies};
ghost use Rattle.bridge_world.specs.MoveFaults.{fault_at, no_fault, length_fault, open_fault, close_fault, fault_named, left_by, all_have_room};

use crate::editors::Editor;
use crate::faults::MoveFault;
use crate::marks::Verdict;
use delta::Delta;
use std::alloc::{AllocError, Global};
use std::marker::Model;
use std::mem::replace;
use tt_base::Text;

/// One text of a daemon and its editors, in the order in which they came.
///
/// Each editor has its text, and its link is a `Bridge`. What is under way between them comes in order, each
/// when the caller says so. Contracts see the room with its counts, and each step says what it is without
/// them too.
#[derive(Debug, Drop)]
pub struct EditorRoom {
    view: Text,
    editors: Vec<Editor>,
}

impl Model for EditorRoom {
    ghost use Rattle.bridge_world.specs.Room.{Room};
    ghost use Rattle.bridge_world.specs.Counted.{Editor as AnEditor};
    ghost use Rattle.bridge_world.specs.Tie.{AllGood};

    ghost Value = { Room AnEditor };

    ghost view = { λ r. record { view = r.view; editors = r.editors.items } };

    ghost invariant = { λ r. AllGood r.view r.editors.items };
}

/// All editors are told of a change of the daemon's text.
fn tell_all(alloc: Global, editors: Vec<Editor>, d: &Delta) -> Result<Vec<Editor>, AllocError>
    requires fits { Each (λ (e : AnEditor). IsForLink d.now e.link) editors.items }
    requires room { Each HasRoom editors.items }
    ensures { IfOk result (λ told. told.items ≡ map (counted.told d.now) editors.items) }
{
    let mut told = editors;
    for editor in told.iter_mut() {
        editor.tell(alloc, d)?;
    }
    Ok(told)
}

/// The same, if there is a change.
fn tell_of(
    alloc: Global,
    editors: Vec<Editor>,
    effect: &Option<Delta>,
) -> Result<Vec<Editor>, AllocError>
    requires fits { IfSome effect.now (λ d. Each (λ (e : AnEditor). IsForLink d e.link) editors.items) }
    requires room { Each HasRoom editors.items }
    ensures { IfOk result (λ told. told.items ≡ map (told_of counted.told effect.now) editors.items) }
{
    match effect {
        None => Ok(editors),
        Some(d) => tell_all(alloc, editors, d),
    }
}

/// An editor stands among the others again, and these are told of a change, if there is one.
fn with_told(
    alloc: Global,
    others: Vec<Editor>,
    n: usize,
    editor: Editor,
    effect: &Option<Delta>,
) -> Result<Vec<Editor>, AllocError>
    requires there { n ≤ length others.items }
    requires fits { IfSome effect.now (λ d. Each (λ (e : AnEditor). IsForLink d e.link) others.items) }
    requires room { Each HasRoom others.items }
    ensures { IfOk result (λ all. all.items ≡ insert (map (told_of counted.told effect.now) others.items) n editor) }
{
    let mut all = tell_of(alloc, others, effect)?;
    all.insert(n, editor)?;
    Ok(all)
}

/// The text after a change, if there is one. After want of memory it is as it was.
fn change(alloc: Global, text: &mut Text, effect: &Option<Delta>) -> Result<(), AllocError>
    requires { IfSome effect.now (λ d. base_length d ≡ length text.old) }
    ensures ok { OnOk result (text.new ≡ changed effect.now text.old) }
    ensures err { OnErr result (text.new ≡ text.old) }
{
    match effect {
        None => Ok(()),
        Some(d) => d.apply_at_once(alloc, text),
    }
}

/// An editor of the room types a delta.
fn type_at(alloc: Global, editors: &mut Vec<Editor>, n: usize, p: &Delta) -> Result<(), AllocError>
    requires there { n < length editors.old.items }
    requires fits { IfSome (slice_get editors.old.items n) (λ (e : AnEditor). base_length p.now ≡ length e.text) }
    requires room { Each HasRoom editors.old.items }
    ensures ok { OnOk result (editors.new.items ≡ one_and_others (counted.typed p.now) same n editors.old.items) }
    ensures err { OnErr result (editors.new.items ≡ editors.old.items) }
{
    let editor = &mut editors[n];
    editor.type_delta(alloc, p)
}

/// An editor of the room asks for its text.
fn open_at(alloc: Global, editors: &mut Vec<Editor>, n: usize) -> Result<(), AllocError>
    requires there { n < length editors.old.items }
    requires room { Each HasRoom editors.old.items }
    ensures ok { OnOk result (editors.new.items ≡ one_and_others counted.opened same n editors.old.items) }
    ensures err { OnErr result (editors.new.items ≡ editors.old.items) }
{
    let editor = &mut editors[n];
    editor.open(alloc)
}

/// An editor of the room closes its text.
fn close_at(alloc: Global, editors: &mut Vec<Editor>, n: usize) -> Result<(), AllocError>
    requires { n < length editors.old.items }
    ensures ok { OnOk result (editors.new.items ≡ one_and_others counted.closed same n editors.old.items) }
    ensures err { OnErr result (editors.new.items ≡ editors.old.items) }
{
    let editor = &mut editors[n];
    editor.close(alloc)
}

/// The connection of an editor of the room ends.
fn lose_at(alloc: Global, editors: &mut Vec<Editor>, n: usize)
    requires { n < length editors.old.items }
    ensures { editors.new.items ≡ one_and_others counted.lost same n editors.old.items }
{
    let editor = &mut editors[n];
    editor.lose(alloc);
}

/// The first frame under way comes to an editor of the room.
fn deliver_at(alloc: Global, editors: &mut Vec<Editor>, n: usize) -> Result<(), AllocError>
    requires there { n < length editors.old.items }
    requires fits { IfSome (slice_get editors.old.items n) (λ (e : AnEditor). FirstApplies e e.wire) }
    requires room { Each HasRoom editors.old.items }
    ensures { OnOk result (editors.new.items ≡ one_and_others counted.delivered same n editors.old.items) }
{
    let editor = &mut editors[n];
    editor.deliver(alloc)
}

impl EditorRoom {
    /// A text without editors.
    pub fn new(alloc: Global, view: Text) -> EditorRoom
        ensures { result ≡ empty_room view }
    {
        EditorRoom {
            view,
            editors: Vec::new(alloc),
        }
    }

    /// The daemon's text.
    pub fn view(&self) -> &Text
        ensures { result.now ≡ self.now.view }
    {
        &self.view
    }

    /// The editors, in the order in which they came.
    pub fn editors(&self) -> &[Editor]
        ensures { result.now ≡ self.now.editors }
    {
        self.editors.as_slice()
    }

    /// Whether one more of everything can be counted in u64.
    pub fn has_room(&self) -> bool
        ensures { result ≡ all_have_room self.now.editors }
    {
        self.editors
            .as_slice()
            .iter()
            .all(|editor| editor.has_room())
    }

    /// An editor comes that shows this text, and asks for the room's. After want of memory the room is as it
    /// was.
    pub fn join(&mut self, alloc: Global, text: Text) -> Result<(), AllocError>
        ensures counted { OnOk result (counted_step (Joins text) self.old ≡ Some self.new) }
        ensures plain { OnOk result (plain_step (Joins text) (plain_room self.old) ≡ Some (plain_room self.new)) }
        ensures err { OnErr result (self.new ≡ self.old) }
    {
        let mut editor = Editor::new(alloc, text);
        editor.open(alloc)?;
        self.editors.push(editor)?;
        Ok(())
    }

    /// An editor types a delta. Any fault leaves the room as it was.
    pub fn type_edit(&mut self, alloc: Global, n: usize, p: &Delta) -> Result<(), MoveFault>
        requires { all_have_room self.old.editors ≡ true }
        ensures counted { OnOk result (counted_step (Types n p.now) self.old ≡ Some self.new) }
        ensures plain { OnOk result (plain_step (Types n p.now) (plain_room self.old) ≡ Some (plain_room self.new)) }
        ensures fault { IfErr result (λ fault. fault_at (λ e. length_fault p.now e.text) (length self.old.editors) (slice_get self.old.editors n) ≡ fault_named fault) }
        ensures err { OnErr result (self.new ≡ self.old) }
    {
        let Some(editor) = self.editors.get(n) else {
            return Err(MoveFault::NoEditor(self.editors.len()));
        };
        if p.base_length() != editor.text.len() {
            return Err(MoveFault::LengthDiffers(p.base_length(), editor.text.len()));
        }
        type_at(alloc, &mut self.editors, n, p)?;
        Ok(())
    }

    /// An editor asks for the room's text. Any fault leaves the room as it was.
    pub fn open(&mut self, alloc: Global, n: usize) -> Result<(), MoveFault>
        requires { all_have_room self.old.editors ≡ true }
        ensures counted { OnOk result (counted_step (Opens n) self.old ≡ Some self.new) }
        ensures plain { OnOk result (plain_step (Opens n) (plain_room self.old) ≡ Some (plain_room self.new)) }
        ensures fault { IfErr result (λ fault. fault_at (λ e. open_fault (is_closed e.state)) (length self.old.editors) (slice_get self.old.editors n) ≡ fault_named fault) }
        ensures err { OnErr result (self.new ≡ self.old) }
    {
        let Some(editor) = self.editors.get(n) else {
            return Err(MoveFault::NoEditor(self.editors.len()));
        };
        if !editor.state.is_closed() {
            return Err(MoveFault::NotClosed);
        }
        open_at(alloc, &mut self.editors, n)?;
        Ok(())
    }

    /// An editor closes its text. Any fault leaves the room as it was.
    pub fn close(&mut self, alloc: Global, n: usize) -> Result<(), MoveFault>
        ensures counted { OnOk result (counted_step (Closes n) self.old ≡ Some self.new) }
        ensures plain { OnOk result (plain_step (Closes n) (plain_room self.old) ≡ Some (plain_room self.new)) }
        ensures fault { IfErr result (λ fault. fault_at (λ e. close_fault (is_closed e.state)) (length self.old.editors) (slice_get self.old.editors n) ≡ fault_named fault) }
        ensures err { OnErr result (self.new ≡ self.old) }
    {
        let Some(editor) = self.editors.get(n) else {
            return Err(MoveFault::NoEditor(self.editors.len()));
        };
        if editor.state.is_closed() {
            return Err(MoveFault::Closed);
        }
        close_at(alloc, &mut self.editors, n)?;
        Ok(())
    }

    /// The connection of an editor ends, with all that is under way. Any fault leaves the room as it was.
    pub fn lose(&mut self, alloc: Global, n: usize) -> Result<(), MoveFault>
        ensures counted { OnOk result (counted_step (Loses n) self.old ≡ Some self.new) }
        ensures plain { OnOk result (plain_step (Loses n) (plain_room self.old) ≡ Some (plain_room self.new)) }
        ensures fault { IfErr result (λ fault. fault_at no_fault (length self.old.editors) (slice_get self.old.editors n) ≡ fault_named fault) }
        // No memory is asked for.
        ensures named { IfErr result (λ fault. fault_named fault ≡ Some fault) }
        ensures err { OnErr result (self.new ≡ self.old) }
    {
        if n >= self.editors.len() {
            return Err(MoveFault::NoEditor(self.editors.len()));
        }
        lose_at(alloc, &mut self.editors, n);
        Ok(())
    }

    /// The first frame under way comes to an editor. Want of memory ends all connections: the room has its
    /// text and no editor. Any other fault leaves it as it was.
    pub fn deliver(&mut self, alloc: Global, n: usize) -> Result<(), MoveFault>
        requires { all_have_room self.old.editors ≡ true }
        ensures counted { OnOk result (counted_step (Delivers n) self.old ≡ Some self.new) }
        ensures plain { OnOk result (plain_step (Delivers n) (plain_room self.old) ≡ Some (plain_room self.new)) }
        ensures fault { IfErr result (λ fault. fault_at no_fault (length self.old.editors) (slice_get self.old.editors n) ≡ fault_named fault) }
        ensures err { IfErr result (λ fault. self.new ≡ left_by fault self.old) }
    {
        if n >= self.editors.len() {
            return Err(MoveFault::NoEditor(self.editors.len()));
        }
        let mut editors = replace(&mut self.editors, Vec::new(alloc));
        deliver_at(alloc, &mut editors, n)?;
        self.editors = editors;
        Ok(())
    }

    /// The first message under way of an editor comes to the daemon, which judges it so. All other editors
    /// are told what it changes. Want of memory ends all connections: the room has its text and no editor.
    /// Any other fault leaves it as it was.
    pub fn take(&mut self, alloc: Global, n: usize, verdict: Verdict) -> Result<(), MoveFault>
        requires { all_have_room self.old.editors ≡ true }
        ensures counted { OnOk result (counted_step (Handles n (as_verdict verdict)) self.old ≡ Some self.new) }
        ensures plain { OnOk result (plain_step (Handles n (as_verdict verdict)) (plain_room self.old) ≡ Some (plain_room self.new)) }
        ensures fault { IfErr result (λ fault. fault_at no_fault (length self.old.editors) (slice_get self.old.editors n) ≡ fault_named fault) }
        ensures err { IfErr result (λ fault. self.new ≡ left_by fault self.old) }
    {
        if n >= self.editors.len() {
            return Err(MoveFault::NoEditor(self.editors.len()));
        }
        let mut others = replace(&mut self.editors, Vec::new(alloc));
        let mut editor = others.remove(n);
        let effect = editor.handle(alloc, verdict, &self.view)?;
        let editors = with_told(alloc, others, n, editor, &effect)?;
        change(alloc, &mut self.view, &effect)?;
        self.editors = editors;
        Ok(())
    }

    /// The daemon's text changes otherwise than by an editor of the room. Want of memory ends all
    /// connections: the room has its text and no editor. Any other fault leaves it as it was.
    pub fn push(&mut self, alloc: Global, d: &Delta) -> Result<(), MoveFault>
        requires { all_have_room self.old.editors ≡ true }
        ensures counted { OnOk result (counted_step (Pushes d.now) self.old ≡ Some self.new) }
        ensures plain { OnOk result (plain_step (Pushes d.now) (plain_room self.old) ≡ Some (plain_room self.new)) }
        ensures fault { IfErr result (λ fault. length_fault d.now self.old.view ≡ fault_named fault) }
        ensures err { IfErr result (λ fault. self.new ≡ left_by fault self.old) }
    {
        if d.base_length() != self.view.len() {
            return Err(MoveFault::LengthDiffers(d.base_length(), self.view.len()));
        }
        let editors = replace(&mut self.editors, Vec::new(alloc));
        let editors = tell_all(alloc, editors, d)?;
        d.apply_at_once(alloc, &mut self.view)?;
        self.editors = editors;
        Ok(())
    }
}
