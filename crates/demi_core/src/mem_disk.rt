ghost use Rattle.std.specs.Prelude.{◌≡◌, ℕ, ◌<◌, ◌≤◌, slice_index, vec_len, vec_capacity};

use crate::calls::Calls;
use crate::{Disk, Failed, NoMemory};
use std::alloc::Global;

// How many bytes a disk holds at most.
const MAX_HELD_BYTES: usize = 1 << 40;

/// A disk in memory: it fails the calls that are listed, and an append that does not fit its room.
#[derive(Drop)]
pub struct MemDisk {
    pub(crate) bytes: Vec<u8>,
    pub(crate) room: usize,
    pub(crate) writes: Calls,
    pub(crate) reads: Calls,
    pub(crate) faults: u64,
    ghost within: { vec_len bytes ≤ room },
    ghost reserved: { room ≤ vec_capacity bytes },
    ghost told: { (k : ℕ) → slice_index bytes.items k < 256 },
}

impl MemDisk {
    ghost use Rattle.std.specs.Prelude.{◌+◌, Some, length, IfOk};
    ghost use Rattle.demi_core.specs.Fakes.{disk_seen, NothingListed, planned};

    /// A disk that holds these bytes, with room for so many. It fails the calls of `append` and `cut`, counted together
    /// from 0, whose numbers stand in `fail`, and leaves its bytes there.
    pub fn make(
        alloc: Global,
        bytes: &[u8],
        room: usize,
        fail: Vec<u64>,
    ) -> Result<MemDisk, NoMemory>
        requires { length bytes.now ≤ room }
        ensures made { IfOk result (λ disk. disk_seen disk ≡ record (disk_seen disk) { bytes = bytes.now; room = room; writes = planned fail; faults = 0 }) }
        ensures reads { IfOk result (λ disk. NothingListed (disk_seen disk).reads) }
    {
        let mut held = Vec::with_capacity(alloc, room)?;
        held.extend_from_slice(bytes)?;
        Ok(MemDisk {
            bytes: held,
            room,
            writes: Calls::new(fail),
            reads: Calls::new(Vec::new(alloc)),
            faults: 0,
        })
    }

    /// From now on it fails the calls of `size` and `read_at`, counted together from 0, whose numbers stand in `calls`.
    pub fn fail_reads(&mut self, calls: Vec<u64>)
        ensures { disk_seen self.new ≡ record (disk_seen self.old) { reads = planned calls } }
    {
        self.reads = Calls::new(calls);
    }

    /// The bytes that it holds.
    pub fn bytes(&self) -> &[u8]
        ensures { ⟦<MemDisk as Disk>⟧.bytes self.now ≡ Some result.now }
    {
        &self.bytes
    }
}

impl Disk for MemDisk {
    ghost use Rattle.std.specs.Prelude.{refl, Bool, is_ok, List, Some, ◌+◌, ◌-◌, ◌⊎◌, ◌↔◌, length, take, drop, min, IfOk, OnOk, OnErr, IsErr, IfSome};
    ghost use Rattle.std.specs.Io.KnownBytes.{append_known};
    ghost use Rattle.demi_core.specs.Outside.{HasCause, GrowsByFront, Cut, disk_max};
    ghost use Rattle.demi_core.specs.Fakes.{AppendFails, CutFails, DiskAppends, DiskCuts, DiskLooks, DiskReadFails, counted, disk_seen, looks_same, looks_on};

    ghost held = { λ d. length (disk_seen d).bytes };

    ghost bytes = { λ d. Some (disk_seen d).bytes };

    ghost faults = { λ d. (disk_seen d).faults };

    ghost appends = { λ d piece ok e. DiskAppends (disk_seen d) piece ok (disk_seen e) };

    ghost cuts = { λ d len ok e. DiskCuts (disk_seen d) len ok (disk_seen e) };

    ghost looks = { λ d e. DiskLooks (disk_seen d) (disk_seen e) };

    ghost looks_same = { λ d. looks_same (disk_seen d) };

    ghost looks_on = { λ a b c. looks_on (disk_seen a) (disk_seen b) (disk_seen c) };

    ghost told_held = { λ d. refl };

    ghost told_bytes = { λ d. d.told };

    // The clauses of the trait, and when the call fails.
    fn size(&mut self) -> Result<u64, Failed>
        ensures call { DiskLooks (disk_seen self.old) (disk_seen self.new) }
        ensures held { IfOk result (λ size. (size ≡ length (disk_seen self.old).bytes) × (size ≤ disk_max)) }
        ensures same_held { length (disk_seen self.new).bytes ≡ length (disk_seen self.old).bytes }
        ensures same_bytes { Some (disk_seen self.new).bytes ≡ Some (disk_seen self.old).bytes }
        ensures cause { HasCause (disk_seen self.old).faults (disk_seen self.new).faults result }
        ensures fails { IsErr result ↔ DiskReadFails (disk_seen self.old) }
        ensures reads { (disk_seen self.new).reads ≡ counted (disk_seen self.old).reads }
        ensures writes { (disk_seen self.new).writes ≡ (disk_seen self.old).writes }
        ensures space { (disk_seen self.new).room ≡ (disk_seen self.old).room }
    {
        if self.reads.next_fails() || self.bytes.len() > MAX_HELD_BYTES {
            self.faults = self.faults.saturating_add(1);
            return Err(Failed);
        }
        Ok(self.bytes.len() as u64)
    }

    // The clauses of the trait, when the call fails, and that it gives all that fits the room.
    fn read_at(&mut self, at: u64, room: &mut [u8]) -> Result<usize, Failed>
        requires { 0 < length room.old }
        ensures call { DiskLooks (disk_seen self.old) (disk_seen self.new) }
        ensures within { IfOk result (λ k. k ≤ length room.new) }
        ensures there { IfOk result (λ k. k ≤ length (disk_seen self.old).bytes - at) }
        ensures end { IfOk result (λ k. (k ≡ 0) ↔ (length (disk_seen self.old).bytes ≤ at)) }
        ensures room { IfOk result (λ k. drop k room.new ≡ drop k room.old) }
        ensures bytes { IfOk result (λ k. take k room.new ≡ take k (drop at (disk_seen self.old).bytes)) }
        ensures most { OnOk result (length (disk_seen self.old).bytes ≤ disk_max) }
        ensures same_held { length (disk_seen self.new).bytes ≡ length (disk_seen self.old).bytes }
        ensures same_bytes { Some (disk_seen self.new).bytes ≡ Some (disk_seen self.old).bytes }
        ensures cause { HasCause (disk_seen self.old).faults (disk_seen self.new).faults result }
        ensures fails { IsErr result ↔ DiskReadFails (disk_seen self.old) }
        ensures count { IfOk result (λ k. k ≡ min (length room.old) (length (disk_seen self.old).bytes - at)) }
        ensures reads { (disk_seen self.new).reads ≡ counted (disk_seen self.old).reads }
        ensures writes { (disk_seen self.new).writes ≡ (disk_seen self.old).writes }
        ensures space { (disk_seen self.new).room ≡ (disk_seen self.old).room }
    {
        if self.reads.next_fails() || self.bytes.len() > MAX_HELD_BYTES {
            self.faults = self.faults.saturating_add(1);
            return Err(Failed);
        }
        if at >= self.bytes.len() as u64 {
            return Ok(0);
        }
        let at = at as usize;
        let count = room.len().min(self.bytes.len() - at);
        room[..count].copy_from_slice(&self.bytes[at..at + count]);
        Ok(count)
    }

    // The clauses of the trait, when the call fails, and that it leaves the bytes there.
    fn append(&mut self, piece: &[u8]) -> Result<(), Failed>
        ensures call { DiskAppends (disk_seen self.old) piece.now (is_ok result) (disk_seen self.new) }
        ensures bytes { OnOk result (Some (disk_seen self.new).bytes ≡ append_known (Some (disk_seen self.old).bytes) piece.now) }
        ensures held { OnOk result (length (disk_seen self.new).bytes ≡ length (disk_seen self.old).bytes + length piece.now) }
        ensures most { OnOk result (length (disk_seen self.new).bytes ≤ disk_max) }
        ensures failed { OnErr result (GrowsByFront (Some (disk_seen self.old).bytes) (Some (disk_seen self.new).bytes) (length (disk_seen self.old).bytes) (length (disk_seen self.new).bytes) piece.now) }
        ensures cause { HasCause (disk_seen self.old).faults (disk_seen self.new).faults result }
        ensures fails { IsErr result ↔ AppendFails (disk_seen self.old) (length piece.now) }
        ensures stays { OnErr result (Some (disk_seen self.new).bytes ≡ Some (disk_seen self.old).bytes) }
        ensures writes { (disk_seen self.new).writes ≡ counted (disk_seen self.old).writes }
        ensures reads { (disk_seen self.new).reads ≡ (disk_seen self.old).reads }
        ensures space { (disk_seen self.new).room ≡ (disk_seen self.old).room }
    {
        let most = self.room.min(MAX_HELD_BYTES);
        if self.writes.next_fails()
            || self.bytes.len() > most
            || piece.len() > most - self.bytes.len()
        {
            self.faults = self.faults.saturating_add(1);
            return Err(Failed);
        }
        let Ok(()) = self.bytes.extend_from_slice(piece) else {
            // The room was taken when the disk was made.
            unreachable!();
        };
        Ok(())
    }

    // The clauses of the trait, when the call fails, and that it leaves the bytes there.
    fn cut(&mut self, len: u64) -> Result<(), Failed>
        requires { len ≤ length (disk_seen self.old).bytes }
        ensures call { DiskCuts (disk_seen self.old) len (is_ok result) (disk_seen self.new) }
        ensures cut { OnOk result (Cut (Some (disk_seen self.old).bytes) (Some (disk_seen self.new).bytes) (length (disk_seen self.new).bytes) len) }
        ensures most { OnOk result (length (disk_seen self.old).bytes ≤ disk_max) }
        ensures failed { OnErr result (Cut (Some (disk_seen self.old).bytes) (Some (disk_seen self.new).bytes) (length (disk_seen self.new).bytes) len
            ⊎ ((Some (disk_seen self.new).bytes ≡ Some (disk_seen self.old).bytes) × (length (disk_seen self.new).bytes ≡ length (disk_seen self.old).bytes))) }
        ensures cause { HasCause (disk_seen self.old).faults (disk_seen self.new).faults result }
        ensures fails { IsErr result ↔ CutFails (disk_seen self.old) }
        ensures stays { OnErr result (Some (disk_seen self.new).bytes ≡ Some (disk_seen self.old).bytes) }
        ensures writes { (disk_seen self.new).writes ≡ counted (disk_seen self.old).writes }
        ensures reads { (disk_seen self.new).reads ≡ (disk_seen self.old).reads }
        ensures space { (disk_seen self.new).room ≡ (disk_seen self.old).room }
    {
        if self.writes.next_fails() || self.bytes.len() > MAX_HELD_BYTES {
            self.faults = self.faults.saturating_add(1);
            return Err(Failed);
        }
        self.bytes.truncate(len as usize);
        Ok(())
    }
}
