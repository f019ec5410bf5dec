ghost use Rattle.std.specs.Prelude.{◌≡◌, Some};
ghost use Rattle.outside.specs.Plan.{Arming, left_of};

use crate::disks::Disk;
use crate::modes::Mode;

/// A device that may be stopped on purpose, at a counted call: from that one on each of its calls fails.
pub trait Stops {
    /// Where it is to stop, if it is, and how many calls were counted since.
    ghost arming: { Self → Arming };

    /// Whether two states of the device differ in nothing but the arming.
    ghost same: { Self → Self → Type 0 };

    /// Stops the device at the k-th counted call from here, and with 0 at once. An earlier arming is replaced.
    fn arm(&mut self, k: u64, mode: Mode)
        ensures armed { arming self.new ≡ record { stop = Some (record { call = k; mode = mode }); calls = 0 } }
        ensures same { same self.old self.new };

    /// The number of counted calls up to and with the one that stops it: 0 where it is stopped, and
    /// `None` where nothing is armed.
    fn left(&self) -> Option<u64>
        ensures left { result ≡ left_of (arming self.now) };
}

/// A disk that may be stopped: arming it changes nothing that it tells but its plan and its count of calls.
pub trait StopsDisk: Disk + Stops {
    ghost use Rattle.outside.specs.DiskMeaning.{arming_of};
    ghost use Rattle.outside.specs.DiskCalls.{IsRearmed};

    ghost told_arming: { (disk : Self) → Self.arming disk ≡ arming_of (Self.meaning disk) };

    ghost rearmed: { (old new : Self) → Self.same old new → IsRearmed (Self.meaning old) (Self.meaning new) };
}
