ghost use Rattle.std.specs.Prelude.{◌≡◌, ◌↔◌, ◌⊎◌, ℕ, List, false, [], IsTrue, IfOk, OnOk};
ghost use Rattle.rpc_frame.specs.Faults.{answer_of};
ghost use Rattle.rpc_frame.specs.Stream.{IsFrameBegun, Begun, Broken};
ghost use Rattle.rpc_frame.specs.ReaderView.{ReadsOn, IsUnbroken};

use crate::begun::{FrameBegun, Stop};
use crate::faults::{FrameEnd, FrameFault};
use std::alloc::{AllocError, Global};
use std::marker::Model;
use std::mem;
use tt_base::{Blob, List};

/// Whether a reader can go on.
#[derive(Clone, Copy, Debug)]
enum Standing {
    Reading,
    Broken(FrameFault),
    Spent,
}

/// Reads a stream of frames that comes in pieces.
///
/// Contracts see five things of it: its limit in bytes, which a body may not pass; what it keeps of its stream, which
/// is the bytes of the frame begun or the first fault in their place; the bytes that it holds in memory; the bodies
/// that `take_done` would give; and whether it is live. Memory that ran out in `feed` leaves it spent: such a reader
/// is only dropped.
#[derive(Debug, Drop)]
pub struct FrameReader {
    limit: u64,
    begun: FrameBegun,
    standing: Standing,
    done: Vec<Blob>,
}

impl Model for FrameReader {
    ghost use Rattle.rpc_frame.specs.ReaderView.{ReaderView};

    ghost Value = { ReaderView };

    ghost use Rattle.rpc_frame.specs.Reader.{view_of, IsInOrder};

    ghost view = { view_of };

    ghost invariant = { IsInOrder };
}

impl FrameReader {
    /// A reader at the beginning of a stream, for bodies of at most `limit` bytes.
    pub fn new(alloc: Global, limit: u64) -> Result<FrameReader, AllocError>
        ensures limit { IfOk result (λ reader. reader.limit ≡ limit) }
        ensures kept { IfOk result (λ reader. reader.kept ≡ Begun []) }
        ensures live { IfOk result (λ reader. IsTrue reader.live) }
        ensures done { IfOk result (λ reader. reader.done ≡ []) }
    {
        Ok(FrameReader {
            limit,
            begun: FrameBegun::new(alloc),
            standing: Standing::Reading,
            done: Vec::new(alloc),
        })
    }

    /// Reads a piece of the stream, and gives the bodies that end in it, in order.
    ///
    /// The first fault ends the reading; `take_done` gives the bodies that ended before it in the same piece. From
    /// then on each call answers `Closed` with that fault. After `Memory` the reader is spent.
    pub fn feed(&mut self, alloc: Global, piece: &[u8]) -> Result<List<Blob>, FrameEnd>
        requires live { IsTrue self.old.live }
        ensures limit { self.new.limit ≡ self.old.limit }

        // The bytes kept and the piece are these bodies, and then the bytes kept after.
        ensures read { IfOk result (λ bodies. ReadsOn self.old.limit self.old.kept piece.now bodies self.new.kept) }
        ensures unbroken { OnOk result (IsUnbroken self.new.kept) }
        ensures none_wait { OnOk result (self.new.done ≡ []) }
        ensures live { OnOk result (IsTrue self.new.live) }

        // Or they are the bodies that wait now, and then the first fault.
        ensures fault { (fault : FrameFault) → result ≡ Err (answer_of fault)
            → ReadsOn self.old.limit self.old.kept piece.now self.new.done (Broken fault) }
        ensures broken { (fault : FrameFault) → result ≡ Err (answer_of fault) → self.new.kept ≡ Broken fault }

        // Where the stream has a fault, no other answer comes while memory lasts.
        ensures exact { (bodies : List (List ℕ)) (fault : FrameFault)
            → ReadsOn self.old.limit self.old.kept piece.now bodies (Broken fault)
            → (result ≡ Err (answer_of fault)) ⊎ (result ≡ Err FrameEnd.Memory) }

        // Behind a fault, and only there, the reader stays closed.
        ensures closed { (fault : FrameFault) → (result ≡ Err (FrameEnd.Closed fault)) ↔ (self.old.kept ≡ Broken fault) }
        ensures still { (fault : FrameFault) → self.old.kept ≡ Broken fault → self.new ≡ self.old }

        // Without memory the reader is spent, and no body waits in it.
        ensures spent { (result ≡ Err FrameEnd.Memory) ↔ (self.new.live ≡ false) }
        ensures emptied { result ≡ Err FrameEnd.Memory → self.new.done ≡ [] }
    {
        if let Standing::Broken(fault) = self.standing {
            return Err(FrameEnd::Closed(fault));
        }
        match self.begun.read(alloc, self.limit, piece, &mut self.done) {
            Ok(()) => Ok(List::from_vec(mem::replace(&mut self.done, Vec::new(alloc)))),
            Err(Stop::Fault(fault)) => {
                self.begun = FrameBegun::new(alloc);
                self.standing = Standing::Broken(fault);
                Err(FrameEnd::from(fault))
            }
            Err(Stop::Memory) => {
                self.begun = FrameBegun::new(alloc);
                self.done = Vec::new(alloc);
                self.standing = Standing::Spent;
                Err(FrameEnd::Memory)
            }
        }
    }

    /// What holds of every reader: what it keeps is a frame begun, whose bytes it holds while it is live, and behind a
    /// fault, or without memory, it holds no part of a frame.
    pub fn settled(&self)
        ensures begun { (bytes : List ℕ) → self.now.kept ≡ Begun bytes → IsFrameBegun self.now.limit bytes }
        ensures held { (bytes : List ℕ) → IsTrue self.now.live → self.now.kept ≡ Begun bytes → self.now.held ≡ bytes }
        ensures closed { (fault : FrameFault) → self.now.kept ≡ Broken fault → self.now.held ≡ [] }
        ensures spent { self.now.live ≡ false → self.now.held ≡ [] }
    {
        let _ = &self.done;
    }

    /// The bodies that ended before the fault in the same piece; a second call gives none.
    pub fn take_done(&mut self) -> List<Blob>
        ensures bodies { result ≡ self.old.done }
        ensures rest { self.new ≡ record self.old { done = [] } }
    {
        let alloc = *self.done.allocator();
        List::from_vec(mem::replace(&mut self.done, Vec::new(alloc)))
    }
}
