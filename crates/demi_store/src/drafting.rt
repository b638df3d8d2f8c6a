//! A put's record, from the segments of its value.
ghost use Rattle.std.specs.Prelude.{◌≡◌, ◌<◌, ◌≤◌, None, Some, length};
ghost use Rattle.demi_sga.specs.Arrays.{byte_count};
ghost use Rattle.demi_logq.specs.Folding.{bytes_of};

use crate::StoreCore;
use demi_core::Disk;
use demi_frame::Key;
use demi_sga::DevSga;

// Begins the record of a put, and adds its value.
pub(crate) fn begin_with<D: Disk>(
    core: &mut StoreCore<D>,
    link: u16,
    index: u32,
    key: &Key,
    value: &DevSga,
)
    requires none { core.old.begun ≡ None }
    requires key { 0 < length key.now.items }
    requires most { byte_count value.now ≤ 65536 }
    ensures { core.new ≡ record core.old { begun = Some (record { link = link; index = index; key = key.now.items; value = bytes_of value.now }) } }
{
    core.begin(link, index, key);
    let count = value.len();
    let mut from = 0u32;
    'adding: while from < count {
        let piece = value.part(from, count);
        core.piece(piece);
        from += piece.len() as u32;
    }
}
