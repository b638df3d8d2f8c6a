ghost use Rattle.std.specs.Prelude.{◌≡◌, ◌≢◌, ◌≤◌, ◌<◌, ℕ, [], vec_capacity, vec_len, IfSome, IfErr, OnOk, OnErr, Err};
ghost use Rattle.demi_core.specs.Outside.{Rose, disk_max};
ghost use Rattle.demi_spec.specs.LogText.{entries};
ghost use Rattle.demi_logq.specs.Logged.{Opened, OpenedBy, NotOpenedBy, LeftAs, StandsAs};

use crate::ahead::Ahead;
use crate::find::find_entries;
use crate::refusal::LogRefusal;
use crate::sizes::HEADER;
use demi_core::Disk;

// Reads the entries of a disk, or gives it its header, with room for as many entries more.
pub(crate) fn open<D: Disk>(
    disk: &mut D,
    ahead: &mut Ahead,
    ends: &mut Vec<u64>,
    limit: u32,
) -> Result<(), LogRefusal>
    requires none { ends.old.items ≡ [] }
    requires ahead { (ahead.old.count ≡ 0) × (4 ≤ vec_len ahead.old.room) }
    ensures opened { OnOk result (Opened (D.bytes disk.old) (D.bytes disk.new) (D.held disk.new) ends.new.items) }
    ensures stands { OnOk result (StandsAs (D.bytes disk.old) (D.bytes disk.new) (D.held disk.old) (D.held disk.new)) }
    ensures most { OnOk result (D.held disk.new ≤ disk_max) }
    ensures room { OnOk result (limit ≤ vec_capacity ends.new) }
    ensures calls { OnOk result (OpenedBy D.looks D.appends (D.held disk.old) disk.old disk.new) }
    ensures bad { IfErr result (λ e. (at : ℕ) → e ≡ LogRefusal.BadLog at → IfSome (D.bytes disk.old) (λ b. entries b ≡ Err at)) }
    ensures place { IfErr result (λ e. (at : ℕ) → e ≡ LogRefusal.BadLog at → at < D.held disk.old) }
    ensures left { OnErr result (LeftAs (D.bytes disk.old) (D.bytes disk.new) (D.held disk.old) (D.held disk.new)) }
    ensures other { IfErr result (λ e. (e ≢ LogRefusal.Full) × (e ≢ LogRefusal.Broken)) }
    ensures failed { result ≡ Err LogRefusal.Failed → Rose (D.faults disk.old) (D.faults disk.new) }
    ensures refused { OnErr result (NotOpenedBy D.looks D.appends (D.held disk.old) disk.old disk.new) }
    ensures later { D.faults disk.old ≤ D.faults disk.new }
{
    let size = disk.size()?;
    if size == 0 {
        ends.reserve(limit as usize)?;
        disk.append(&HEADER)?;
        return Ok(());
    }
    find_entries(disk, size, ahead, ends)?;
    ends.reserve(limit as usize)?;
    Ok(())
}
