ghost use Rattle.std.specs.Prelude.{◌≡◌, ◌+◌, ◌-◌, ◌≤◌, min, length, take, drop, IfOk, OnOk, IfSome};
ghost use Rattle.demi_core.specs.Outside.{HasCause, disk_max};

use demi_core::{Disk, Failed};

// Reads from a place on, until the room is full or the disk ends. Says how many bytes.
pub(crate) fn read_full<D: Disk>(disk: &mut D, at: u64, room: &mut [u8]) -> Result<usize, Failed>
    requires { at ≤ disk_max }
    ensures count { IfOk result (λ k. k ≡ min (length room.new) (D.held disk.old - at)) }
    ensures bytes { IfOk result (λ k. IfSome (D.bytes disk.old) (λ b. take k room.new ≡ take k (drop at b))) }
    ensures same_held { D.held disk.new ≡ D.held disk.old }
    ensures same_bytes { D.bytes disk.new ≡ D.bytes disk.old }
    ensures calls { D.looks disk.old disk.new }
    ensures cause { HasCause (D.faults disk.old) (D.faults disk.new) result }
{
    let mut count = 0;
    'reading: while count < room.len() {
        let more = disk.read_at(at + count as u64, &mut room[count..])?;
        if more == 0 {
            return Ok(count);
        }
        count += more;
    }
    Ok(count)
}

// Reads bytes that are there into the front of the room.
pub(crate) fn read_front<D: Disk>(
    disk: &mut D,
    at: u64,
    size: usize,
    room: &mut [u8],
) -> Result<(), Failed>
    requires at { at ≤ disk_max }
    requires room { size ≤ length room.old }
    requires there { at + size ≤ D.held disk.old }
    ensures bytes { OnOk result (IfSome (D.bytes disk.old) (λ b. take size room.new ≡ take size (drop at b))) }
    ensures same_held { D.held disk.new ≡ D.held disk.old }
    ensures same_bytes { D.bytes disk.new ≡ D.bytes disk.old }
    ensures calls { D.looks disk.old disk.new }
    ensures cause { HasCause (D.faults disk.old) (D.faults disk.new) result }
{
    read_full(disk, at, &mut room[..size])?;
    Ok(())
}
