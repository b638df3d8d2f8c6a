ghost use Rattle.std.specs.Prelude.{◌≡◌, length};

use crate::table::HeapSeat;
use std::marker::Model;

/// A lent application half. It knows the bytes that were lent, and has none. It must be spent: by a call of its heap, or by
/// `lose`.
pub struct Lent {
    pub(crate) seat: HeapSeat,
    pub(crate) slot: u32,
    pub(crate) len: u32,
}

impl Model for Lent {
    ghost use Rattle.std.specs.Prelude.{◌≡◌, ◌<◌, [], length};
    ghost use Rattle.demi_heap_core.specs.declared.view.Halves.TheVariants.{Lent};
    ghost use Rattle.demi_heap.specs.Seen.{HalfValue, LentFits, id_of, lent_bytes, lent_class, Quiet};

    ghost Value = { HalfValue };

    ghost view = { λ h. record { heap = id_of h.seat.table_id h.seat.me.0; slot = h.slot; class = lent_class h.seat.me.0.lent; bytes = lent_bytes h.seat.me.0.lent; clock = h.seat.me.0.half_clock; held = h.seat.me.0.held } };

    ghost invariant = { λ h. (h.seat.me.1 ≡ []) × (h.seat.me.0.halves ≡ Lent) × (h.seat.me.0.slot ≡ h.slot) × Quiet h.seat.me.0 × LentFits h.seat.me.0.shape h.slot h.seat.me.0.lent × (h.len ≡ length (lent_bytes h.seat.me.0.lent)) × (h.slot < h.seat.table_id.words) };
}

/// The device still has its half. The lent half comes back.
pub struct StillHeld(pub Lent);

impl Lent {
    /// Its number in its heap.
    pub fn slot(&self) -> u32
        ensures { result ≡ self.now.slot }
    {
        self.slot
    }

    /// In bytes.
    pub fn len(&self) -> u32
        ensures { result ≡ length self.now.bytes }
    {
        self.len
    }

    /// Gives it up. Its slot stays owned for good.
    pub fn lose(self) {
        let Lent {
            seat,
            slot: _,
            len: _,
        } = self;
        drop(seat);
    }
}
