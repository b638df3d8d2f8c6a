ghost use Rattle.std.specs.Prelude.{◌≡◌, ◌≢◌, ◌^◌, ◌<◌, ◌≤◌, ℕ, [], length, vec_len, IfSome, IfErr, OnOk, Err};
ghost use Rattle.std.specs.Int.{w32, from_be_bytes, to_be_bytes};
ghost use Rattle.demi_core.specs.Outside.{Rose, disk_max};
ghost use Rattle.demi_spec.specs.LogText.{entries};
ghost use Rattle.demi_logq.specs.Logged.{Found};

use crate::ahead::Ahead;
use crate::reading::read_full;
use crate::refusal::LogRefusal;
use crate::sizes::{HEADER, LENGTH_BYTES, MAX_PAYLOAD_BYTES};
use demi_core::Disk;

// The number that four bytes spell.
fn number_of(field: &[u8]) -> u64
    requires { length field.now ≡ 4 }
    ensures value { result ≡ from_be_bytes w32 field.now }
    ensures spelled { to_be_bytes w32 result ≡ field.now }
    ensures fits { result < 2 ^ 32 }
{
    u32::from_be_bytes([field[0], field[1], field[2], field[3]]) as u64
}

// Finds where the entries of a disk end that is not empty.
pub(crate) fn find_entries<D: Disk>(
    disk: &mut D,
    size: u64,
    ahead: &mut Ahead,
    ends: &mut Vec<u64>,
) -> Result<(), LogRefusal>
    requires size { size ≡ D.held disk.old }
    requires some { 0 < size }
    requires most { size ≤ disk_max }
    requires none { ends.old.items ≡ [] }
    requires ahead { (ahead.old.count ≡ 0) × (4 ≤ vec_len ahead.old.room) }
    ensures found { OnOk result (Found (D.bytes disk.old) (D.held disk.old) ends.new.items size) }
    ensures bad { IfErr result (λ e. (at : ℕ) → e ≡ LogRefusal.BadLog at → IfSome (D.bytes disk.old) (λ b. entries b ≡ Err at)) }
    ensures place { IfErr result (λ e. (at : ℕ) → e ≡ LogRefusal.BadLog at → at < D.held disk.old) }
    ensures other { IfErr result (λ e. (e ≢ LogRefusal.Full) × (e ≢ LogRefusal.Broken)) }
    ensures failed { result ≡ Err LogRefusal.Failed → Rose (D.faults disk.old) (D.faults disk.new) }
    ensures later { D.faults disk.old ≤ D.faults disk.new }
    ensures same_held { D.held disk.new ≡ D.held disk.old }
    ensures same_bytes { D.bytes disk.new ≡ D.bytes disk.old }
    ensures calls { D.looks disk.old disk.new }
{
    let mut header = [0; HEADER.len()];
    let count = read_full(disk, 0, &mut header)?;
    if count < HEADER.len() || header != HEADER {
        return Err(LogRefusal::BadLog(0));
    }
    let mut at = HEADER.len() as u64;
    'finding: while at < size {
        let mut field = [0; LENGTH_BYTES];
        let count = ahead.read(disk, at, &mut field)?;
        if count < LENGTH_BYTES {
            return Err(LogRefusal::BadLog(at));
        }
        let length = number_of(&field);
        if length == 0
            || length > MAX_PAYLOAD_BYTES as u64
            || length > size - at - LENGTH_BYTES as u64
        {
            return Err(LogRefusal::BadLog(at));
        }
        at += LENGTH_BYTES as u64 + length;
        ends.push(at)?;
    }
    Ok(())
}
