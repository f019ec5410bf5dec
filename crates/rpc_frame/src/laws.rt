//! What holds of every stream of frames. Each law is a function that does nothing; its contract is the law.
ghost use Rattle.std.specs.Prelude.{◌≡◌, ◌≤◌, ◌<◌, ◌^◌, ℕ, List, [], ◌∷◌, ◌++◌, length};
ghost use Rattle.rpc_frame.specs.Stream.{StreamEnd, Begun, Broken, Reads, IsRead};
ghost use Rattle.rpc_frame.specs.ReaderView.{ReadsOn};
ghost use Rattle.rpc_frame.specs.Written.{frame_bytes};
ghost use Rattle.rpc_frame.specs.declared.faults.FrameFault.{FrameFault as Fault};

/// Every stream has a reading: the bodies of its whole frames, and then a frame begun or the first fault.
pub fn every_stream()
    ensures { (limit : ℕ) (stream : List ℕ) → IsRead limit stream }
{}

/// The empty stream is read as no body, and then as nothing begun.
pub fn empty_stream()
    ensures { (limit : ℕ) → Reads limit [] [] (Begun []) }
{}

/// A stream has one reading: these bodies and this end, and no others.
pub fn one_reading()
    ensures { (limit : ℕ) (stream : List ℕ) (bodies others : List (List ℕ)) (end other : StreamEnd)
        → Reads limit stream bodies end → Reads limit stream others other → (bodies ≡ others) × (end ≡ other) }
{}

/// However a stream is cut in two: the bodies of the front and then those that the rest gives behind what the front
/// kept are the bodies of the whole.
pub fn however_cut()
    ensures { (limit : ℕ) (front rest : List ℕ) (first second : List (List ℕ)) (kept end : StreamEnd)
        → Reads limit front first kept → ReadsOn limit kept rest second end → Reads limit (front ++ rest) (first ++ second) end }
{}

/// Nothing that comes behind a fault is read.
pub fn closed_by_its_fault()
    ensures { (limit : ℕ) (front rest : List ℕ) (bodies : List (List ℕ)) (fault : Fault)
        → Reads limit front bodies (Broken fault) → Reads limit (front ++ rest) bodies (Broken fault) }
{}

/// A written frame whose body is not longer than the limit is read as that body, whatever follows.
pub fn written_is_read()
    ensures { (limit : ℕ) (body rest : List ℕ) (bodies : List (List ℕ)) (end : StreamEnd)
        → length body ≤ limit → length body < 2 ^ 64
        → Reads limit rest bodies end → Reads limit (frame_bytes body ++ rest) (body ∷ bodies) end }
{}
