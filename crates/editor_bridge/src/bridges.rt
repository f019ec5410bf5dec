ghost use Rattle.std.specs.Prelude.{◌≡◌, ◌≢◌, ◌+◌, ◌-◌, ◌^◌, ◌<◌, ◌≤◌, length, take, Some, None, IfOk, IfErr, OnOk, OnErr};
ghost use Rattle.delta.specs.Cells.{base_length};
ghost use Rattle.transform.specs.Carried.{applied_all};
ghost use Rattle.editor_bridge.specs.Link.{new_link, issued, daemon_length, editor_text, with_pushed, with_confirmed, with_edit, carried_edit};
ghost use Rattle.editor_bridge.specs.Faults.{revision_fault, edit_fault, fault_named};
ghost use Rattle.editor_bridge.specs.Frames.{frames};
ghost use Rattle.editor_bridge.specs.Carrying.{StandsFor, IsCarried};

use crate::carrying::{Carried, carry, compose_all, without_first};
use crate::faults::BridgeFault;
use crate::frames::BridgeFrame;
use delta::Delta;
use std::alloc::{AllocError, Global};
use std::marker::Model;
use std::mem::replace;
use tt_base::{List, Text};

/// An editor's delta that a bridge has taken.
#[derive(Debug, Drop)]
pub struct Taken {
    /// What it is in the daemon's text.
    pub carried: Delta,
    /// All that the editor had not shown, in order, to be sent again: earlier frames of these deltas
    /// are for a text without its own, and the editor passes over them.
    pub again: List<BridgeFrame>,
}

/// The daemon's end of a link to one editor of one text.
///
/// Contracts see the text that both ends have, the daemon's deltas that the editor has not confirmed,
/// how many it has confirmed, and how many of its own were taken.
#[derive(Debug, Drop)]
pub struct Bridge {
    base: Text,
    queue: List<Delta>,
    issued: u64,
    taken: u64,
    text_length: usize,
}

impl Model for Bridge {
    ghost use Rattle.std.specs.Prelude.{◌-◌, length};
    ghost use Rattle.editor_bridge.specs.Link.{Link};
    ghost use Rattle.editor_bridge.specs.Carrying.{IsBridge};

    ghost Value = { Link };

    ghost view = { λ b. record { base = b.base; unconfirmed = b.queue; confirmed = b.issued - length b.queue; taken = b.taken } };

    ghost invariant = { λ b. IsBridge b.base b.queue b.issued b.text_length };
}

impl Bridge {
    /// The link to an editor that has this text, as the daemon has.
    pub fn new(alloc: Global, base: Text) -> Result<Bridge, AllocError>
        ensures { IfOk result (λ bridge. bridge ≡ new_link base) }
    {
        let text_length = base.len();
        Ok(Bridge {
            base,
            queue: List::empty(alloc)?,
            issued: 0,
            taken: 0,
            text_length,
        })
    }

    /// The number of the daemon's deltas.
    pub fn issued(&self) -> u64
        ensures { result ≡ issued self.now }
    {
        self.issued
    }

    /// The greatest number of the daemon's deltas that the editor has reported as shown.
    pub fn confirmed(&self) -> u64
        ensures { result ≡ self.now.confirmed }
    {
        self.issued - self.queue.len() as u64
    }

    /// The number of the editor's deltas that were taken.
    pub fn taken(&self) -> u64
        ensures { result ≡ self.now.taken }
    {
        self.taken
    }

    /// The length of the daemon's text, in scalar values.
    pub fn daemon_length(&self) -> usize
        ensures { result ≡ daemon_length self.now }
    {
        self.text_length
    }

    /// The editor's text after as many of the daemon's deltas as it has confirmed.
    pub fn confirmed_text(&self) -> &Text
        ensures base { result.now ≡ self.now.base }
        ensures editor { result.now ≡ editor_text self.now.confirmed self.now }
    {
        &self.base
    }

    /// How many of the deltas in the queue an editor has shown that has shown so many in all.
    fn shown_of_queue(&self, seen: u64) -> Result<usize, BridgeFault>
        ensures shown { IfOk result (λ shown. shown ≡ seen - self.now.confirmed) }
        ensures within { IfOk result (λ shown. shown ≤ length self.now.unconfirmed) }
        ensures back { OnOk result (self.now.confirmed ≤ seen) }
        ensures fits { OnOk result (revision_fault seen self.now ≡ None) }
        ensures fault { IfErr result (λ fault. revision_fault seen self.now ≡ Some fault) }
        ensures named { IfErr result (λ fault. fault_named fault ≡ Some fault) }
    {
        let confirmed = self.confirmed();
        if seen > self.issued {
            Err(BridgeFault::RevisionAhead(seen, self.issued))
        } else if seen < confirmed {
            Err(BridgeFault::RevisionBack(seen, confirmed))
        } else {
            Ok((seen - confirmed) as usize)
        }
    }

    /// The length of the base after so many deltas of the queue.
    fn length_after(&self, shown: usize) -> usize
        requires { shown ≤ length self.now.unconfirmed }
        ensures { result ≡ length (applied_all (take shown self.now.unconfirmed) self.now.base) }
    {
        if shown == 0 {
            self.base.len()
        } else {
            self.queue.at(shown - 1).result_length()
        }
    }

    /// The first deltas of the queue, as one.
    fn shown_deltas(&self, alloc: Global, shown: usize) -> Result<Delta, AllocError>
        requires some { shown ≢ 0 }
        requires within { shown ≤ length self.now.unconfirmed }
        ensures shown { IfOk result (StandsFor (take shown self.now.unconfirmed)) }
        ensures base { IfOk result (λ all. base_length all ≡ length self.now.base) }
    {
        compose_all(alloc, &self.queue.as_slice()[..shown])
    }

    /// The editor's text after `seen` of the daemon's deltas.
    ///
    /// It is a copy. Where these are as many as it has confirmed, `confirmed_text` lends the text.
    pub fn editor_text(&self, alloc: Global, seen: u64) -> Result<Text, BridgeFault>
        ensures text { IfOk result (λ text. text ≡ editor_text seen self.now) }
        ensures fits { OnOk result (revision_fault seen self.now ≡ None) }
        ensures fault { IfErr result (λ fault. revision_fault seen self.now ≡ fault_named fault) }
    {
        let shown = self.shown_of_queue(seen)?;
        if shown == 0 {
            return Ok(self.base.copied(alloc)?);
        }
        let all = self.shown_deltas(alloc, shown)?;
        let text = all.apply(alloc, &self.base)?;
        Ok(text)
    }

    /// The editor has shown `seen` of the daemon's deltas: these count as confirmed from then on, and
    /// `confirmed_text` lends the editor's text after them.
    ///
    /// The base is changed in place. Any fault leaves the bridge as it was.
    pub fn confirm(&mut self, alloc: Global, seen: u64) -> Result<(), BridgeFault>
        ensures ok { OnOk result (self.new ≡ with_confirmed seen self.old) }
        ensures fits { OnOk result (revision_fault seen self.old ≡ None) }
        ensures fault { IfErr result (λ fault. revision_fault seen self.old ≡ fault_named fault) }
        ensures err { OnErr result (self.new ≡ self.old) }
    {
        let shown = self.shown_of_queue(seen)?;
        if shown == 0 {
            return Ok(());
        }
        let all = self.shown_deltas(alloc, shown)?;
        all.apply_at_once(alloc, &mut self.base)?;
        let queue = replace(&mut self.queue, List::from_vec(Vec::new(alloc)));
        self.queue = without_first(queue, shown);
        Ok(())
    }

    /// Tells the editor that the daemon's text has changed by `d`, otherwise than by a delta of its own.
    /// After want of memory the bridge is as it was.
    pub fn push(&mut self, alloc: Global, d: Delta) -> Result<BridgeFrame, AllocError>
        requires fits { base_length d ≡ daemon_length self.old }
        requires room { issued self.old < 2 ^ 64 - 1 }
        ensures ok { OnOk result (self.new ≡ with_pushed d self.old) }
        ensures frame { IfOk result (λ frame. frame ≡ record { revision = self.old.taken; delta = d }) }
        ensures err { OnErr result (self.new ≡ self.old) }
    {
        let delta = d.copied(alloc)?;
        let text_length = d.result_length();
        self.queue.push(alloc, d)?;
        self.issued += 1;
        self.text_length = text_length;
        Ok(BridgeFrame {
            revision: self.taken,
            delta,
        })
    }

    /// What a delta of the editor makes of the link.
    fn carried(&self, alloc: Global, seen: u64, p: Delta) -> Result<Carried, BridgeFault>
        requires { self.now.taken < 2 ^ 64 - 1 }
        ensures carried { IfOk result (IsCarried self.now seen p) }
        ensures fits { OnOk result (edit_fault seen p self.now ≡ None) }
        ensures fault { IfErr result (λ fault. edit_fault seen p self.now ≡ fault_named fault) }
    {
        let shown = self.shown_of_queue(seen)?;
        let length = self.length_after(shown);
        if p.base_length() != length {
            return Err(BridgeFault::LengthDiffers(p.base_length(), length));
        }
        let carried = carry(alloc, self.queue.as_slice(), shown, self.taken + 1, p)?;
        Ok(carried)
    }

    /// Takes a delta of the editor, made when it had shown `seen` of the daemon's deltas.
    ///
    /// These count as confirmed from then on. The base is changed in place. Any fault leaves the bridge as it
    /// was.
    pub fn take(&mut self, alloc: Global, seen: u64, p: Delta) -> Result<Taken, BridgeFault>
        requires { self.old.taken < 2 ^ 64 - 1 }
        ensures ok { OnOk result (self.new ≡ with_edit seen p self.old) }
        ensures carried { IfOk result (λ taken. taken.carried ≡ carried_edit seen p self.old) }
        ensures again { IfOk result (λ taken. taken.again ≡ frames self.new.taken self.new.unconfirmed) }
        ensures fits { OnOk result (edit_fault seen p self.old ≡ None) }
        ensures fault { IfErr result (λ fault. edit_fault seen p self.old ≡ fault_named fault) }
        ensures err { OnErr result (self.new ≡ self.old) }
    {
        let carried = self.carried(alloc, seen, p)?;
        carried.change.apply_at_once(alloc, &mut self.base)?;
        self.text_length = carried.delta.result_length();
        self.queue = carried.queue;
        self.taken += 1;
        Ok(Taken {
            carried: carried.delta,
            again: carried.again,
        })
    }
}
