ghost use Rattle.std.specs.Prelude.{◌≡◌, ◌<◌, ◌^◌, ◌-◌, [], length, IfOk, OnOk, OnErr};
ghost use Rattle.std.specs.BTreeMap.{insert_entry};
ghost use Rattle.std.specs.Cmp.Lexicographic.{slice_cmp};
ghost use Rattle.std.specs.Map.{lookup};
ghost use Rattle.std.specs.Option.{unwrap_or, option_copied};
ghost use Rattle.std.specs.Ordering.{nat_cmp};
ghost use Rattle.delta.specs.Cells.{base_length, applied};
ghost use Rattle.daemon_core.specs.History.{beginning, is_path, view_at, text_at, made};

use delta::Delta;
use std::alloc::{AllocError, Global};
use std::collections::BTreeMap;
use std::marker::Model;
use tt_base::{SharedPath, Text};

/// The files of a daemon: the text at each path, and how many changes have made them so.
///
/// It is seen as the history of `daemon_core`.
#[derive(Debug, Drop)]
pub struct Files {
    texts: BTreeMap<SharedPath, Text>,
    held: u64,
}

impl Model for Files {
    ghost use Rattle.daemon_core.specs.History.{History};

    ghost Value = { History };

    ghost view = { λ f. record { files = f.texts.entries; held = f.held } };
}

/// The text at a path is changed, and a file that is absent is made. After want of memory all is as it was.
fn change_text(
    alloc: Global,
    texts: &mut BTreeMap<SharedPath, Text>,
    path: &SharedPath,
    d: &Delta,
) -> Result<(), AllocError>
    requires { base_length d.now ≡ length (unwrap_or (lookup (is_path path.now) texts.old.entries) []) }
    ensures ok { OnOk result (texts.new.entries
        ≡ insert_entry (slice_cmp nat_cmp) texts.old.entries path.now (applied d.now (unwrap_or (lookup (is_path path.now) texts.old.entries) []))) }
    ensures err { OnErr result (texts.new.entries ≡ texts.old.entries) }
{
    match texts.get_mut(path) {
        Some(text) => d.apply_at_once(alloc, text),
        None => {
            let mut text = Text::empty(alloc)?;
            d.apply_at_once(alloc, &mut text)?;
            let path = path.copied(alloc)?;
            texts.insert(path, text)?;
            Ok(())
        }
    }
}

impl Files {
    /// No files.
    pub fn none(alloc: Global) -> Files
        ensures { result ≡ beginning }
    {
        Files {
            texts: BTreeMap::new(alloc),
            held: 0,
        }
    }

    /// No file is at hand yet of a daemon that holds so many changes.
    pub fn of_changes(alloc: Global, held: u64) -> Files
        ensures { result ≡ record { files = []; held = held } }
    {
        Files {
            texts: BTreeMap::new(alloc),
            held,
        }
    }

    /// How many changes were made.
    pub fn held(&self) -> u64
        ensures { result ≡ self.now.held }
    {
        self.held
    }

    /// The text of the file at a path, where there is one.
    pub fn view(&self, path: &SharedPath) -> Option<&Text>
        ensures { option_copied result ≡ view_at self.now path.now }
    {
        self.texts.get(path)
    }

    /// How many characters the file at a path has, where one that is absent has none.
    pub fn length_at(&self, path: &SharedPath) -> usize
        ensures { result ≡ length (text_at self.now path.now) }
    {
        match self.view(path) {
            Some(text) => text.len(),
            None => 0,
        }
    }

    /// Has this text at hand for the file at a path. After want of memory all is as it was.
    pub fn put(&mut self, path: SharedPath, text: Text) -> Result<(), AllocError>
        ensures ok { OnOk result (self.new ≡ record self.old { files = insert_entry (slice_cmp nat_cmp) self.old.files path text }) }
        ensures err { OnErr result (self.new ≡ self.old) }
    {
        self.texts.insert(path, text)?;
        Ok(())
    }

    /// Makes one more change, of the text at a path. After want of memory all files are as they were.
    pub fn change(&mut self, alloc: Global, path: &SharedPath, d: &Delta) -> Result<(), AllocError>
        requires fits { base_length d.now ≡ length (text_at self.old path.now) }
        requires room { self.old.held < 2 ^ 64 - 1 }
        ensures ok { OnOk result (self.new ≡ made self.old path.now d.now) }
        ensures err { OnErr result (self.new ≡ self.old) }
    {
        change_text(alloc, &mut self.texts, path, d)?;
        self.held += 1;
        Ok(())
    }
}
