ghost use Rattle.std.specs.Prelude.{◌≡◌, ◌++◌, ◌∷◌, [], length, map, filter, not, flat_map, IfOk, OnOk, OnErr};
ghost use Rattle.std.specs.BTreeMap.{insert_entry};
ghost use Rattle.std.specs.List.Sorted.{IsStrictlySortedBy};
ghost use Rattle.std.specs.Map.{lookup, keys_of};
ghost use Rattle.std.specs.Option.{is_some};
ghost use Rattle.std.specs.Ordering.{nat_cmp};
ghost use Rattle.delta.specs.Cells.{base_length};
ghost use Rattle.daemon_core.specs.History.{text_at};
ghost use Rattle.daemon_core.specs.Outcome.{effects_of, told_links};
ghost use Rattle.daemon_core.specs.Outputs.{told_outputs};
ghost use Rattle.daemon_core.specs.Sending.{EachCanBeSent, messages_told};
ghost use Rattle.daemon_core.specs.State.{is_number};
ghost use Rattle.daemon_links.specs.Changing.{AllMayTell, effect_of};

use crate::changes::Change;
use crate::files::Files;
use crate::open_files::OpenFiles;
use daemon_core::Output;
use file_uri::Base;
use std::alloc::{AllocError, Global};
use std::collections::BTreeMap;
use std::marker::Model;
use std::mem::replace;
use tt_base::Text;

/// The connections of a daemon, by their numbers, each with the files that it has open.
///
/// They are seen as the connections of `daemon_core`.
#[derive(Debug, Drop)]
pub struct Connections {
    open: BTreeMap<u64, OpenFiles>,
}

impl Model for Connections {
    ghost use Rattle.std.specs.Prelude.{List, ℕ};
    ghost use Rattle.daemon_core.specs.State.{Links};

    ghost Value = { List (ℕ × Links) };

    ghost view = { λ c. c.open.entries };
}

/// Each connection is told of a change of this text, by rising number.
fn tell_each(
    alloc: Global,
    base: &Base,
    connections: BTreeMap<u64, OpenFiles>,
    change: &Change,
    text: &Text,
    sent: &mut Vec<Output>,
) -> Result<BTreeMap<u64, OpenFiles>, AllocError>
    requires fits { base_length change.now.delta ≡ length text.now }
    requires told { AllMayTell text.now change.now.path connections.entries }
    ensures links { IfOk result (λ told. told.entries ≡ map (λ c. (c.0, told_links (effect_of change.now ∷ []) c.1)) connections.entries) }
    ensures sent { OnOk result (sent.new.items ≡ sent.old.items ++ flat_map (told_outputs base.now (effect_of change.now ∷ [])) connections.entries) }
    ensures read { OnOk result (EachCanBeSent (flat_map (messages_told base.now (effect_of change.now ∷ [])) connections.entries)) }
{
    let _ = connections.len();
    let mut told = BTreeMap::new(alloc);
    for (number, mut links) in connections {
        links.tell(alloc, base, number, change, text, sent)?;
        told.insert(number, links)?;
    }
    Ok(told)
}

impl Connections {
    /// No connection.
    pub fn none(alloc: Global) -> Connections
        ensures { result ≡ [] }
    {
        Connections {
            open: BTreeMap::new(alloc),
        }
    }

    /// Whether there is a connection with this number.
    pub fn has(&self, n: u64) -> bool
        ensures { result ≡ is_some (lookup (is_number n) self.now) }
    {
        self.open.contains_key(&n)
    }

    /// A connection has these files open. After want of memory all is as it was.
    pub fn put(&mut self, n: u64, own: OpenFiles) -> Result<(), AllocError>
        ensures ok { OnOk result (self.new ≡ insert_entry nat_cmp self.old n own) }
        ensures err { OnErr result (self.new ≡ self.old) }
    {
        self.open.insert(n, own)?;
        Ok(())
    }

    /// Takes a connection out, and gives the files that it has open.
    pub fn take(&mut self, n: u64) -> Option<OpenFiles>
        ensures links { result ≡ lookup (is_number n) self.old }
        ensures others { self.new ≡ filter (λ c. not (is_number n c.0)) self.old }
        ensures ordered { IsStrictlySortedBy nat_cmp (keys_of self.old) }
    {
        let _ = self.open.len();
        self.open.remove(&n)
    }

    /// Each connection is told of a change of the files before it is made, by rising number, and what is sent goes behind
    /// what is sent already. A change that changes nothing is not told.
    pub fn tell(
        &mut self,
        alloc: Global,
        base: &Base,
        files: &Files,
        change: &Change,
        sent: &mut Vec<Output>,
    ) -> Result<(), AllocError>
        requires fits { base_length change.now.delta ≡ length (text_at files.now change.now.path) }
        requires told { AllMayTell (text_at files.now change.now.path) change.now.path self.old }
        ensures links { OnOk result (self.new ≡ map (λ c. (c.0, told_links (effects_of change.now.path change.now.delta) c.1)) self.old) }
        ensures sent { OnOk result (sent.new.items ≡ sent.old.items ++ flat_map (told_outputs base.now (effects_of change.now.path change.now.delta)) self.old) }
        ensures read { OnOk result (EachCanBeSent (flat_map (messages_told base.now (effects_of change.now.path change.now.delta)) self.old)) }
    {
        if change.delta.is_empty() {
            return Ok(());
        }
        let none = Text::empty(alloc)?;
        let text = match files.view(&change.path) {
            Some(text) => text,
            None => &none,
        };
        let connections = replace(&mut self.open, BTreeMap::new(alloc));
        self.open = tell_each(alloc, base, connections, change, text, sent)?;
        Ok(())
    }
}
