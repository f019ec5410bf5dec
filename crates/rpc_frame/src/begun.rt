//! The bytes of a frame begun, and the stage that they have reached.
//!
//! What is held is never a whole frame (`IsHeld`): a body that comes whole is handed out in the turn that ends it. So
//! what was read is always the bodies so far and then what is held, and a byte either keeps that or is the first fault.

ghost use Rattle.std.specs.Prelude.{◌≡◌, ◌≤◌, ◌<◌, ℕ, List, [], ◌++◌, length, take, vec_len, IfOk, OnOk, IfErr, IfNone, IfSome};
ghost use Rattle.rpc_frame.specs.Held.{held_bytes, IsHeld, IsReached, stage_at, stage_behind, TakesByte, RefusesByte};
ghost use Rattle.rpc_frame.specs.Stream.{IsFrame, HasFault, Begun, Broken, Reads};
ghost use Rattle.rpc_frame.specs.declared.begun.Stop.TheVariants.{Memory};

use crate::faults::FrameFault;
use crate::headers::{HEADER_LIMIT, Lengths, Place, Scan};
use std::alloc::{AllocError, AllocFailed, Global};
use std::mem;
use tt_base::Blob;

/// Why bytes are not taken.
#[derive(Clone, Copy, Debug)]
pub(crate) enum Stop {
    Fault(FrameFault),
    Memory,
}

impl From<AllocError> for Stop {
    ghost from_gives = { λ _ e. e ≡ Memory };

    fn from(_e: AllocError) -> Stop {
        Stop::Memory
    }
}

impl<T: Drop> From<AllocFailed<T>> for Stop {
    ghost from_gives = { λ _ e. e ≡ Memory };

    fn from(_e: AllocFailed<T>) -> Stop {
        Stop::Memory
    }
}

/// Which part of a frame the next byte belongs to.
#[derive(Clone, Copy, Debug)]
pub(crate) enum Stage {
    Head(Scan),
    /// A body of that many bytes.
    Body(u64),
}

/// The bytes of a frame that has not come whole.
#[derive(Debug, Drop)]
pub(crate) struct FrameBegun {
    pub(crate) head: Vec<u8>,
    pub(crate) body: Vec<u8>,
    pub(crate) stage: Stage,
}

impl FrameBegun {
    /// Before the first byte of a frame.
    pub(crate) fn new(alloc: Global) -> FrameBegun
        ensures held { (limit : ℕ) → IsHeld limit result }
        ensures bytes { held_bytes result ≡ [] }
    {
        FrameBegun {
            head: Vec::new(alloc),
            body: Vec::new(alloc),
            stage: Stage::Head(Scan::start()),
        }
    }

    /// Takes the next byte of the header part, and counts it.
    fn take_head_byte(&mut self, limit: u64, scan: Scan, byte: u8) -> Result<usize, Stop>
        requires room { vec_len self.old.head ≤ HEADER_LIMIT }
        ensures count { IfOk result (λ count. count ≡ 1) }
        ensures ok { OnOk result (TakesByte limit scan byte self.old self.new) }
        ensures fault { (fault : FrameFault) → result ≡ Err (Stop.Fault fault) → RefusesByte limit scan byte self.old fault }

        // A byte is judged before memory is asked for it, so its fault is the answer.
        ensures refused { (fault : FrameFault) → RefusesByte limit scan byte self.old fault → result ≡ Err (Stop.Fault fault) }
    {
        let next = scan.after(byte);
        let place = self.head.len();
        if place + 1 + next.missing() > HEADER_LIMIT {
            return Err(Stop::Fault(FrameFault::BadHeader(place as u64)));
        }
        let stage = stage_after(limit, next)?;
        self.head.push(byte)?;
        self.stage = stage;
        Ok(1)
    }

    /// Takes the next bytes of the body, as many of them as it still needs.
    fn take_body_bytes(&mut self, number: u64, rest: &[u8]) -> Result<usize, Stop>
        requires short { vec_len self.old.body < number }
        requires some { 0 < length rest.now }
        ensures count { IfOk result (λ count. (0 < count) × (count ≤ length rest.now)) }
        ensures head { OnOk result (self.new.head.items ≡ self.old.head.items) }
        ensures stage { OnOk result (self.new.stage ≡ self.old.stage) }
        ensures body { IfOk result (λ count. self.new.body.items ≡ self.old.body.items ++ take count rest.now) }
        ensures short { OnOk result (vec_len self.new.body ≤ number) }
        ensures fault { IfErr result (λ stop. stop ≡ Stop.Memory) }
    {
        let wanted = number - self.body.len() as u64;
        let count = rest.len().min(wanted as usize);
        self.body.extend_from_slice(&rest[..count])?;
        Ok(count)
    }

    /// Takes the next bytes, at least one and none past the frame's end, and says how many.
    fn take_bytes(&mut self, limit: u64, rest: &[u8]) -> Result<usize, Stop>
        requires held { IsHeld limit self.old }
        requires some { 0 < length rest.now }
        ensures count { IfOk result (λ count. (0 < count) × (count ≤ length rest.now)) }
        ensures reached { OnOk result (IsReached limit self.new) }
        ensures bytes { IfOk result (λ count. held_bytes self.new ≡ held_bytes self.old ++ take count rest.now) }
        ensures fault { (fault : FrameFault) → result ≡ Err (Stop.Fault fault) → HasFault limit fault (held_bytes self.old ++ rest.now) }
    {
        match self.stage {
            Stage::Head(scan) => self.take_head_byte(limit, scan, rest[0]),
            Stage::Body(number) => self.take_body_bytes(number, rest),
        }
    }

    /// The body, where it has come whole; the next frame begins then.
    fn take_whole(&mut self, alloc: Global, limit: u64) -> Option<Blob>
        requires reached { IsReached limit self.old }
        ensures held { IsHeld limit self.new }
        ensures none { IfNone result (held_bytes self.new ≡ held_bytes self.old) }
        ensures some { IfSome result (λ body. IsFrame limit body (held_bytes self.old) × (held_bytes self.new ≡ [])) }
    {
        match self.stage {
            Stage::Body(number) if self.body.len() as u64 == number => {
                let begun = mem::replace(self, FrameBegun::new(alloc));
                Some(Blob::from_vec(begun.body))
            }
            _ => None,
        }
    }

    /// Takes the next bytes of a piece, at least one, and adds the body that they end.
    fn turn(
        &mut self,
        alloc: Global,
        limit: u64,
        rest: &[u8],
        done: &mut Vec<Blob>,
    ) -> Result<usize, Stop>
        requires held { IsHeld limit self.old }
        requires some { 0 < length rest.now }
        ensures count { IfOk result (λ count. (0 < count) × (count ≤ length rest.now)) }
        ensures held { OnOk result (IsHeld limit self.new) }
        ensures read { IfOk result (λ count. (stream : List ℕ) → Reads limit stream done.old.items (Begun (held_bytes self.old))
            → Reads limit (stream ++ take count rest.now) done.new.items (Begun (held_bytes self.new))) }
        ensures fault { (fault : FrameFault) → result ≡ Err (Stop.Fault fault) → HasFault limit fault (held_bytes self.old ++ rest.now) }
        ensures kept { (fault : FrameFault) → result ≡ Err (Stop.Fault fault) → done.new.items ≡ done.old.items }
    {
        let count = self.take_bytes(limit, rest)?;
        if let Some(body) = self.take_whole(alloc, limit) {
            done.push(body)?;
        }
        Ok(count)
    }

    /// Takes a whole piece of the stream, and adds the bodies that end in it.
    pub(crate) fn read(
        &mut self,
        alloc: Global,
        limit: u64,
        piece: &[u8],
        done: &mut Vec<Blob>,
    ) -> Result<(), Stop>
        requires held { IsHeld limit self.old }
        requires none { done.old.items ≡ [] }
        ensures held { OnOk result (IsHeld limit self.new) }
        ensures read { OnOk result (Reads limit (held_bytes self.old ++ piece.now) done.new.items (Begun (held_bytes self.new))) }
        ensures fault { (fault : FrameFault) → result ≡ Err (Stop.Fault fault) → Reads limit (held_bytes self.old ++ piece.now) done.new.items (Broken fault) }
    {
        let mut at = 0;
        while at < piece.len() {
            at += self.turn(alloc, limit, &piece[at..], done)?;
        }
        Ok(())
    }
}

/// The stage behind a byte of a header part.
fn stage_after(limit: u64, scan: Scan) -> Result<Stage, Stop>
    ensures { result ≡ stage_at limit scan.place scan.lengths }
{
    match scan.place {
        Place::Whole => stage_behind(limit, scan.lengths),
        _ => Ok(Stage::Head(scan)),
    }
}

/// The stage behind a whole header part with these lengths.
fn stage_behind(limit: u64, lengths: Lengths) -> Result<Stage, Stop>
    ensures { result ≡ stage_behind limit lengths }
{
    match lengths {
        Lengths::NoneYet => Err(Stop::Fault(FrameFault::NoLength)),
        Lengths::Several => Err(Stop::Fault(FrameFault::TwoLengths)),
        Lengths::One(number) if number > limit => { Err(Stop::Fault(FrameFault::TooLong(number))) }
        Lengths::One(number) => Ok(Stage::Body(number)),
    }
}
