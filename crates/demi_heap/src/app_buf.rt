ghost use Rattle.std.specs.Prelude.{◌≡◌, ◌-◌, ◌≤◌, ◌++◌, length, take, replicate};
ghost use Rattle.std.specs.Borrow.{Lends, Array, sem, u8};
ghost use Rattle.demi_buf.specs.Bufs.{size_of};
ghost use Rattle.demi_heap.specs.Seen.{half_with, half_written};
ghost use Rattle.demi_heap.specs.contracts.app_buf.AppBuf.{the_row};

use crate::table::HeapSeat;
use demi_buf::{Buf, Class};
use std::marker::Model;

/// A sole application half, with the buffer of its slot. It must be spent: by a call of its heap, or by `lose`.
pub struct AppBuf {
    pub(crate) seat: HeapSeat,
    pub(crate) buf: Buf,
    pub(crate) slot: u32,
}

impl Model for AppBuf {
    ghost use Rattle.std.specs.Prelude.{◌≡◌, ◌<◌, [], ◌∷◌, None};
    ghost use Rattle.demi_heap_core.specs.declared.view.Halves.TheVariants.{Sole};
    ghost use Rattle.demi_heap.specs.Rule.{Fits};
    ghost use Rattle.demi_heap.specs.Seen.{HalfValue, id_of, Quiet};

    ghost Value = { HalfValue };

    ghost view = { λ a. record { heap = id_of a.seat.table_id a.seat.me.0; slot = a.slot; class = a.buf.class; bytes = a.buf.bytes; clock = a.seat.me.0.half_clock; held = a.seat.me.0.held } };

    ghost invariant = { λ a. (a.seat.me.1 ≡ (a.slot, None) ∷ []) × (a.seat.me.0.halves ≡ Sole) × (a.seat.me.0.slot ≡ a.slot) × Quiet a.seat.me.0 × Fits a.seat.me.0.shape a.slot a.buf × (a.slot < a.seat.table_id.words) };
}

impl AppBuf {
    /// Its number in its heap.
    pub fn slot(&self) -> u32
        ensures { result ≡ self.now.slot }
    {
        self.slot
    }

    /// Its size's class.
    pub fn class(&self) -> Class
        ensures { result ≡ self.now.class }
    {
        self.buf.class()
    }

    /// In bytes.
    pub fn len(&self) -> u32
        ensures bytes { result ≡ length self.now.bytes }
        ensures fits { result ≤ size_of self.now.class }
    {
        self.buf.len()
    }

    /// Its bytes.
    pub fn bytes(&self) -> &[u8]
        ensures { result.now ≡ self.now.bytes }
    {
        self.buf.bytes()
    }

    /// Its bytes, to write.
    pub fn bytes_mut(&mut self) -> &mut [u8]
        ensures* writes_back { sem 𝓛 (Lends the_row (Array u8 0) self.entry result (half_written self.old)) }
        ensures value { result.now ≡ self.old.bytes }
    {
        self.buf.bytes_mut()
    }

    /// Bytes stay up to `n`, and bytes that are added are 0.
    pub fn set_len(&mut self, n: u32)
        requires { n ≤ size_of self.old.class }
        ensures { self.new ≡ half_with self.old (take n self.old.bytes ++ replicate (n - length self.old.bytes) 0) }
    {
        self.buf.set_len(n);
    }

    /// Gives it up. Its slot stays owned for good.
    pub fn lose(self) {
        let AppBuf { seat, buf, slot: _ } = self;
        drop(seat);
        buf.lose();
    }
}
