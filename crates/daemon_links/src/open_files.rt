ghost use Rattle.std.specs.Prelude.{◌≡◌, ◌∷◌, ◌++◌, [], length, OnOk, OnErr};
ghost use Rattle.std.specs.BTreeMap.{insert_entry};
ghost use Rattle.std.specs.Cmp.Lexicographic.{slice_cmp};
ghost use Rattle.std.specs.List.Sorted.{IsStrictlySortedBy};
ghost use Rattle.std.specs.Map.{keys_of};
ghost use Rattle.std.specs.Option.{is_some};
ghost use Rattle.std.specs.Ordering.{nat_cmp};
ghost use Rattle.delta.specs.Cells.{base_length};
ghost use Rattle.daemon_core.specs.Outcome.{Gone, own_links, told_links};
ghost use Rattle.daemon_core.specs.Outputs.{told_outputs};
ghost use Rattle.daemon_core.specs.Sending.{EachCanBeSent, messages_told};
ghost use Rattle.daemon_core.specs.State.{link_at};
ghost use Rattle.daemon_links.specs.Changing.{MayTell, effect_of};

use crate::changes::Change;
use crate::sending::{edit_message, send};
use daemon_core::Output;
use editor_bridge::Bridge;
use file_uri::Base;
use std::alloc::{AllocError, Global};
use std::collections::BTreeMap;
use std::marker::Model;
use tt_base::{SharedPath, Text};

/// The files that one connection has open, each with its link.
///
/// It is seen as the links of `daemon_core`.
#[derive(Debug, Drop)]
pub struct OpenFiles {
    links: BTreeMap<SharedPath, Bridge>,
}

impl Model for OpenFiles {
    ghost use Rattle.daemon_core.specs.State.{Links};

    ghost Value = { Links };

    ghost view = { λ f. f.links.entries };
}

impl OpenFiles {
    /// No file is open.
    pub fn none(alloc: Global) -> OpenFiles
        ensures { result ≡ [] }
    {
        OpenFiles {
            links: BTreeMap::new(alloc),
        }
    }

    /// Whether the file at a path is open.
    pub fn is_open(&self, path: &SharedPath) -> bool
        ensures { result ≡ is_some (link_at self.now path.now) }
    {
        self.links.contains_key(path)
    }

    /// Closes the file at a path, and gives the link if it was open.
    pub fn close(&mut self, path: &SharedPath) -> Option<Bridge>
        ensures link { result ≡ link_at self.old path.now }
        ensures gone { self.new ≡ own_links (Gone path.now) self.old }
        ensures ordered { IsStrictlySortedBy (slice_cmp nat_cmp) (keys_of self.old) }
    {
        let _ = self.links.len();
        self.links.remove(path)
    }

    /// Has the file at a path open by this link. After want of memory all is as it was.
    pub fn open(&mut self, path: SharedPath, link: Bridge) -> Result<(), AllocError>
        ensures ok { OnOk result (self.new ≡ insert_entry (slice_cmp nat_cmp) self.old path link) }
        ensures err { OnErr result (self.new ≡ self.old) }
    {
        self.links.insert(path, link)?;
        Ok(())
    }

    /// The link to the file of a change is told of it, and what it is sent on connection `n` goes behind what is sent already.
    pub fn tell(
        &mut self,
        alloc: Global,
        base: &Base,
        n: u64,
        change: &Change,
        text: &Text,
        sent: &mut Vec<Output>,
    ) -> Result<(), AllocError>
        requires fits { base_length change.now.delta ≡ length text.now }
        requires told { MayTell text.now change.now.path self.old }
        ensures links { OnOk result (self.new ≡ told_links (effect_of change.now ∷ []) self.old) }
        ensures sent { OnOk result (sent.new.items ≡ sent.old.items ++ told_outputs base.now (effect_of change.now ∷ []) (n, self.old)) }
        ensures read { OnOk result (EachCanBeSent (messages_told base.now (effect_of change.now ∷ []) (n, self.old))) }
    {
        let Some(link) = self.links.get_mut(&change.path) else {
            return Ok(());
        };
        let frame = link.push(alloc, change.delta.copied(alloc)?)?;
        let message = edit_message(
            alloc,
            base,
            &change.path,
            frame.revision,
            text,
            &frame.delta,
        )?;
        sent.push(send(alloc, n, &message)?)?;
        Ok(())
    }
}
