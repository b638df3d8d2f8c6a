//! How the device takes the doorbells.
ghost use Rattle.std.specs.Prelude.{◌≡◌, ℕ, ◌+◌, ◌<◌, ◌≤◌, [], ◌∷◌, ◌++◌, replicate, bit_or};
ghost use Rattle.std.specs.Int.{bit_at};
ghost use Rattle.demi_port_core.specs.Bits.{has_bit};
ghost use Rattle.demi_port_core.specs.Told.{looking, taking};
ghost use Rattle.demi_port_core.specs.declared.view.Role.TheVariants.{Device};
ghost use Rattle.demi_port_core.specs.declared.view.Stage.TheVariants.{Idle};
ghost use Rattle.demi_port_core.specs.Words.{bells_word};

use crate::device_seat::DeviceSeat;
use crate::plays::Took;
use crate::port::Port;
use crate::tables::{SeatPair, Tables};
use demi_port_core::{BELLS, Bits, Law};

impl<L: Law> Port<L> {
    /// The indexes whose doorbell bit was set at this call's step, each a token's. The bits are cleared, and the device owes a fetch of each.
    pub fn take(&self, seat: &mut DeviceSeat<L>) -> Bits
        requires port { seat.old.port ≡ self.now }
        ensures bells { (t : ℕ) × (n : ℕ) × (seat.old.clock ≤ t) × (result.words ≡ n ∷ replicate 15 0) × (seat.new ≡ record seat.old { clock = t + 1; looks = seat.old.looks ++ (t, (bells_word, n)) ∷ []; rang = bit_or seat.old.rang n }) }
        ensures tokens { (i : ℕ) → has_bit result.words i ≡ 1 → i < self.now.tokens.slots }
    {
        Bits::first_block(self.tables.take(&mut seat.pair))
    }
}

impl<L: Law> Tables<L> {
    // Whether some doorbell is rung now. It is no step of a seat, and tells nothing.
    pub(crate) fn has_rung(&self) -> bool {
        self.table.shared.peek(BELLS) != 0
    }

    // The doorbells that were rung, which are the device's now.
    pub(crate) fn take(&self, device: &mut SeatPair<L>) -> u64
        requires port { device.old.seat.table_id ≡ self.now.table.shared.table_id }
        requires idle { (device.old.seat.me.0.role ≡ Device) × (device.old.seat.me.0.stage ≡ Idle) }
        ensures port { (device.new.seat.table_id ≡ device.old.seat.table_id) × (device.new.record ≡ device.old.record) × (device.new.seat.me.1 ≡ device.old.seat.me.1) }
        ensures bells { (t : ℕ) × (device.old.seat.me.0.clock ≤ t) × (device.new.seat.me.0 ≡ taking result (looking t bells_word result device.old.seat.me.0)) }
        ensures tokens { (i : ℕ) → bit_at result i ≡ 1 → i < self.now.count }
    {
        self.table.shared.swap::<Took>(&mut device.seat, BELLS, 0)
    }
}
