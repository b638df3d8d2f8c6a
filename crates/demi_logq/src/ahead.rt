ghost use Rattle.std.specs.Prelude.{◌≡◌, ◌+◌, ◌-◌, ◌≤◌, min, length, take, drop, vec_len, IfOk, OnOk, IfSome};
ghost use Rattle.demi_core.specs.Outside.{HasCause, disk_max};
ghost use Rattle.demi_logq.specs.Reading.{IsAhead};

use crate::reading::read_full;
use crate::sizes::MAX_ENTRY_BYTES;
use demi_core::{Disk, Failed};
use std::alloc::{AllocError, Global};

/// Bytes of a disk that were read ahead, for those who go through it from the front on.
#[derive(Drop)]
pub struct Ahead {
    pub(crate) room: Vec<u8>,
    pub(crate) from: u64,
    pub(crate) count: usize,
}

impl Ahead {
    /// Nothing was read yet.
    pub fn make(alloc: Global) -> Result<Ahead, AllocError>
        ensures none { IfOk result (λ a. a.count ≡ 0) }
        ensures room { IfOk result (λ a. vec_len a.room ≡ 65802) }
    {
        let room = Vec::from_elem(alloc, 0, MAX_ENTRY_BYTES)?;
        Ok(Ahead {
            room,
            from: 0,
            count: 0,
        })
    }

    // Reads on, if the bytes from this place are not all there.
    fn reach<D: Disk>(&mut self, disk: &mut D, at: u64, size: usize) -> Result<(), Failed>
        requires at { at ≤ disk_max }
        requires size { size ≤ vec_len self.old.room }
        requires ahead { IsAhead (D.bytes disk.old) (D.held disk.old) self.old }
        ensures ahead { IsAhead (D.bytes disk.old) (D.held disk.old) self.new }
        ensures before { OnOk result (self.new.from ≤ at) }
        ensures reached { OnOk result (min size (D.held disk.old - at) ≤ self.new.count - (at - self.new.from)) }
        ensures room { vec_len self.new.room ≡ vec_len self.old.room }
        ensures same_held { D.held disk.new ≡ D.held disk.old }
        ensures same_bytes { D.bytes disk.new ≡ D.bytes disk.old }
        ensures calls { D.looks disk.old disk.new }
        ensures cause { HasCause (D.faults disk.old) (D.faults disk.new) result }
    {
        if self.from <= at {
            let start = at - self.from;
            if start <= self.count as u64 && size as u64 <= self.count as u64 - start {
                return Ok(());
            }
        }
        self.count = 0;
        let count = read_full(disk, at, &mut self.room)?;
        self.from = at;
        self.count = count;
        Ok(())
    }

    /// Puts the bytes from a place on into the room until it is full or the disk ends, and says how many. It reads the
    /// disk only where they are not there already, and then as far as its own room goes.
    pub fn read<D: Disk>(&mut self, disk: &mut D, at: u64, room: &mut [u8]) -> Result<usize, Failed>
        requires at { at ≤ disk_max }
        requires size { length room.old ≤ vec_len self.old.room }
        requires ahead { IsAhead (D.bytes disk.old) (D.held disk.old) self.old }
        ensures ahead { IsAhead (D.bytes disk.old) (D.held disk.old) self.new }
        ensures count { IfOk result (λ k. k ≡ min (length room.new) (D.held disk.old - at)) }
        ensures bytes { IfOk result (λ k. IfSome (D.bytes disk.old) (λ b. take k room.new ≡ take k (drop at b))) }
        ensures room { vec_len self.new.room ≡ vec_len self.old.room }
        ensures same_held { D.held disk.new ≡ D.held disk.old }
        ensures same_bytes { D.bytes disk.new ≡ D.bytes disk.old }
        ensures calls { D.looks disk.old disk.new }
        ensures cause { HasCause (D.faults disk.old) (D.faults disk.new) result }
    {
        self.reach(disk, at, room.len())?;
        let start = (at - self.from) as usize;
        if start >= self.count {
            return Ok(0);
        }
        let count = room.len().min(self.count - start);
        room[..count].copy_from_slice(&self.room[start..start + count]);
        Ok(count)
    }
}

// Bytes that are there, from what was read ahead, into the front of the room.
pub(crate) fn ahead_front<D: Disk>(
    disk: &mut D,
    at: u64,
    size: usize,
    ahead: &mut Ahead,
    room: &mut [u8],
) -> Result<(), Failed>
    requires at { at ≤ disk_max }
    requires room { size ≤ length room.old }
    requires there { at + size ≤ D.held disk.old }
    requires ahead { IsAhead (D.bytes disk.old) (D.held disk.old) ahead.old }
    requires fits { size ≤ vec_len ahead.old.room }
    ensures bytes { OnOk result (IfSome (D.bytes disk.old) (λ b. take size room.new ≡ take size (drop at b))) }
    ensures ahead { IsAhead (D.bytes disk.old) (D.held disk.old) ahead.new }
    ensures ahead_room { vec_len ahead.new.room ≡ vec_len ahead.old.room }
    ensures same_held { D.held disk.new ≡ D.held disk.old }
    ensures same_bytes { D.bytes disk.new ≡ D.bytes disk.old }
    ensures calls { D.looks disk.old disk.new }
    ensures cause { HasCause (D.faults disk.old) (D.faults disk.new) result }
{
    ahead.read(disk, at, &mut room[..size])?;
    Ok(())
}
