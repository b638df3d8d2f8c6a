ghost use Rattle.std.specs.Prelude.{◌≡◌, ◌≤◌, length};
ghost use Rattle.demi_buf.specs.Bufs.{size_of};

use crate::table::HeapSeat;
use demi_buf::Buf;
use std::marker::Model;

/// A device half, with the buffer that was lent. No call writes its bytes. It must be spent: by a call of its heap, or by
/// `lose`.
pub struct DevBuf {
    pub(crate) seat: HeapSeat,
    pub(crate) buf: Buf,
    pub(crate) slot: u32,
}

impl Model for DevBuf {
    ghost use Rattle.std.specs.Prelude.{◌≡◌, ◌<◌, [], ◌∷◌, None, Some};
    ghost use Rattle.demi_heap_core.specs.declared.view.Halves.TheVariants.{Device};
    ghost use Rattle.demi_heap.specs.Rule.{Fits};
    ghost use Rattle.demi_heap.specs.Seen.{HalfValue, id_of, Quiet};

    ghost Value = { HalfValue };

    ghost view = { λ d. record { heap = id_of d.seat.table_id d.seat.me.0; slot = d.slot; class = d.buf.class; bytes = d.buf.bytes; clock = d.seat.me.0.half_clock; held = d.seat.me.0.held } };

    ghost invariant = { λ d. (d.seat.me.1 ≡ (d.slot, None) ∷ []) × (d.seat.me.0.halves ≡ Device) × (d.seat.me.0.slot ≡ d.slot) × Quiet d.seat.me.0 × (d.seat.me.0.lent ≡ Some d.buf) × Fits d.seat.me.0.shape d.slot d.buf × (d.slot < d.seat.table_id.words) };
}

impl DevBuf {
    /// Its number in its heap.
    pub fn slot(&self) -> u32
        ensures { result ≡ self.now.slot }
    {
        self.slot
    }

    /// In bytes.
    pub fn len(&self) -> u32
        ensures bytes { result ≡ length self.now.bytes }
        ensures fits { result ≤ size_of self.now.class }
    {
        self.buf.len()
    }

    /// The bytes that were lent.
    pub fn bytes(&self) -> &[u8]
        ensures { result.now ≡ self.now.bytes }
    {
        self.buf.bytes()
    }

    /// Gives it up. Its slot stays owned for good.
    pub fn lose(self) {
        let DevBuf { seat, buf, slot: _ } = self;
        drop(seat);
        buf.lose();
    }
}
