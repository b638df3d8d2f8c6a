//! An array, appended to a log as an entry.
ghost use Rattle.std.specs.Prelude.{◌≡◌, ◌<◌, ◌≤◌, []};
ghost use Rattle.demi_sga.specs.Arrays.{byte_count};
ghost use Rattle.demi_logq.specs.Calls.{Committed};
ghost use Rattle.demi_logq.specs.Folding.{bytes_of};

use crate::{Log, LogRefusal};
use demi_core::Disk;
use demi_sga::DevSga;

// Stages the bytes of an array.
fn stage_all<D: Disk>(log: &mut Log<D>, sga: &DevSga)
    requires none { log.old.staged ≡ [] }
    requires most { byte_count sga.now ≤ 65798 }
    ensures { log.new ≡ record log.old { staged = bytes_of sga.now } }
{
    let count = sga.len();
    let mut from = 0u32;
    'staging: while from < count {
        let piece = sga.part(from, count);
        log.stage(piece);
        from += piece.len() as u32;
    }
}

/// Appends the bytes of an array as an entry, by one append of the disk.
pub(crate) fn append_array<D: Disk>(log: &mut Log<D>, sga: &DevSga) -> Result<u64, LogRefusal>
    requires none { log.old.staged ≡ [] }
    requires some { 0 < byte_count sga.now }
    requires most { byte_count sga.now ≤ 65798 }
    ensures done { Committed D.bytes D.held D.faults D.appends (record log.old { staged = bytes_of sga.now }) log.new result }
    ensures later { D.faults log.old.disk ≤ D.faults log.new.disk }
{
    stage_all(log, sga);
    log.commit()
}
