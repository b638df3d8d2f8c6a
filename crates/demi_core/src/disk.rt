ghost use Rattle.std.specs.Prelude.{◌≡◌, ◌+◌, ◌-◌, ◌^◌, ◌<◌, ◌≤◌, ◌⊎◌, ◌↔◌, List, ℕ, Option, length, take, drop, Bool, is_ok, IfOk, OnOk, OnErr, IfSome};
ghost use Rattle.std.specs.Io.KnownBytes.{append_known};
ghost use Rattle.demi_core.specs.Outside.{AreBytes, HasCause, GrowsByFront, Cut, disk_max};

use crate::Failed;

/// What keeps a log: bytes that are read from any place, grow at their end and are cut there.
///
/// A call that meets more than 2^40 bytes, or would make more, gives `Failed`.
/// Not said: how many bytes a read gives, when a call fails, but that its count of faults then rose, and what of the
/// room changed at a read that failed.
pub trait Disk {
    /// How many bytes it holds.
    ghost held: { Self → ℕ };

    /// The bytes that it holds, where it tells them.
    ghost bytes: { Self → Option (List ℕ) };

    /// How often it has failed. The count never falls, and stays at its last value.
    ghost faults: { Self → ℕ };

    /// A call of `append`: the disk before, the piece, whether it answered Ok, and the disk after.
    ghost appends: { Self → List ℕ → Bool → Self → Type 0 };

    /// A call of `cut`: the disk before, the length, whether it answered Ok, and the disk after.
    ghost cuts: { Self → ℕ → Bool → Self → Type 0 };

    /// The disk before and after any number of calls of `size` and `read_at`.
    ghost looks: { Self → Self → Type 0 };

    /// How many bytes it holds.
    fn size(&mut self) -> Result<u64, Failed>
        ensures call { looks self.old self.new }
        ensures held { IfOk result (λ size. (size ≡ held self.old) × (size ≤ disk_max)) }
        ensures same_held { held self.new ≡ held self.old }
        ensures same_bytes { bytes self.new ≡ bytes self.old }
        ensures cause { HasCause (faults self.old) (faults self.new) result };

    /// Puts the bytes from a place on into the front of the room, and says how many; none at or past the end.
    fn read_at(&mut self, at: u64, room: &mut [u8]) -> Result<usize, Failed>
        requires { 0 < length room.old }
        ensures call { looks self.old self.new }
        ensures within { IfOk result (λ k. k ≤ length room.new) }
        ensures there { IfOk result (λ k. k ≤ held self.old - at) }
        ensures end { IfOk result (λ k. (k ≡ 0) ↔ (held self.old ≤ at)) }
        ensures room { IfOk result (λ k. drop k room.new ≡ drop k room.old) }
        ensures bytes { IfOk result (λ k. IfSome (bytes self.old) (λ b. take k room.new ≡ take k (drop at b))) }
        ensures most { OnOk result (held self.old ≤ disk_max) }
        ensures same_held { held self.new ≡ held self.old }
        ensures same_bytes { bytes self.new ≡ bytes self.old }
        ensures cause { HasCause (faults self.old) (faults self.new) result };

    /// Adds a piece at the end. Where it fails, a front of the piece may be there.
    fn append(&mut self, piece: &[u8]) -> Result<(), Failed>
        ensures call { appends self.old piece.now (is_ok result) self.new }
        ensures bytes { OnOk result (bytes self.new ≡ append_known (bytes self.old) piece.now) }
        ensures held { OnOk result (held self.new ≡ held self.old + length piece.now) }
        ensures most { OnOk result (held self.new ≤ disk_max) }
        ensures failed { OnErr result (GrowsByFront (bytes self.old) (bytes self.new) (held self.old) (held self.new) piece.now) }
        ensures cause { HasCause (faults self.old) (faults self.new) result };

    /// Keeps the first bytes alone. Where it fails, they are cut or as before.
    fn cut(&mut self, len: u64) -> Result<(), Failed>
        requires { len ≤ held self.old }
        ensures call { cuts self.old len (is_ok result) self.new }
        ensures cut { OnOk result (Cut (bytes self.old) (bytes self.new) (held self.new) len) }
        ensures most { OnOk result (held self.old ≤ disk_max) }
        ensures failed { OnErr result (Cut (bytes self.old) (bytes self.new) (held self.new) len
            ⊎ ((bytes self.new ≡ bytes self.old) × (held self.new ≡ held self.old))) }
        ensures cause { HasCause (faults self.old) (faults self.new) result };

    /// No call at all.
    ghost looks_same: { (disk : Self) → looks disk disk };

    /// Calls and then further calls.
    ghost looks_on: { (a b c : Self) → looks a b → looks b c → looks a c };

    /// As many bytes are told as are held.
    ghost told_held: { (disk : Self) → IfSome (bytes disk) (λ b. length b ≡ held disk) };

    /// What is told are bytes.
    ghost told_bytes: { (disk : Self) → IfSome (bytes disk) AreBytes };
}
