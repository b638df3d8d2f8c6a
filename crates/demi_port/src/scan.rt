//! How a pass gets waker bits.
ghost use Rattle.std.specs.Prelude.{◌≡◌, ℕ, ◌+◌, ◌≤◌, [], ◌∷◌, ◌++◌, replicate, bit_and, bit_or, slice_index_or};
ghost use Rattle.demi_port_core.specs.Told.{looking, SameSeat};
ghost use Rattle.demi_port_core.specs.Words.{wakers_word};

use crate::pass::PortPass;
use crate::plays::Scanned;
use crate::port::Port;
use crate::tables::{SeatPair, Tables};
use demi_port_core::{Bits, Law, Mask, WAKERS};

impl<L: Law> Port<L> {
    /// The waker bits of the mask that were set at this call's step, which are cleared. All others stay.
    pub fn scan(&self, pass: &mut PortPass<L>, mask: &Mask) -> Bits
        requires port { pass.old.port ≡ self.now }
        ensures bits { (t : ℕ) × (n : ℕ) × (pass.old.clock ≤ t) × (result.words ≡ bit_and n (slice_index_or mask.now.words 0 0) ∷ replicate 15 0) × (pass.new ≡ record pass.old { clock = t + 1; looks = pass.old.looks ++ (t, (wakers_word, n)) ∷ []; owes = bit_or pass.old.owes (bit_and n (slice_index_or mask.now.words 0 0)) }) }
    {
        Bits::first_block(self.tables.scan(&mut pass.pair, mask.words[0]))
    }
}

impl<L: Law> Tables<L> {
    // The waker bits of the mask that were set, now cleared.
    pub(crate) fn scan(&self, pass: &mut SeatPair<L>, mask: u64) -> u64
        requires port { pass.old.seat.table_id ≡ self.now.table.shared.table_id }
        ensures port { (pass.new.seat.table_id ≡ pass.old.seat.table_id) × (pass.new.record ≡ pass.old.record) × (pass.new.seat.me.1 ≡ pass.old.seat.me.1) }
        ensures still { SameSeat pass.old.seat.me.0 pass.new.seat.me.0 }
        ensures bits { (t : ℕ) × (n : ℕ) × (result ≡ bit_and n mask) × (pass.old.seat.me.0.clock ≤ t) × (pass.new.seat.me.0 ≡ record (looking t wakers_word n pass.old.seat.me.0) { owes = bit_or pass.old.seat.me.0.owes (bit_and n mask) }) }
    {
        self.table
            .shared
            .fetch_and::<Scanned>(&mut pass.seat, WAKERS, !mask)
            & mask
    }
}
