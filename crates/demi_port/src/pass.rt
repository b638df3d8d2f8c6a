//! A pass of a port.
ghost use Rattle.std.specs.Prelude.{◌≡◌};
ghost use Rattle.demi_port.specs.Seen.{FitsPass, pass_value};

use crate::key::Key;
use crate::tables::SeatPair;
use demi_bell::Patience;
use demi_port_core::Law;
use std::marker::Model;

/// What a thread submits and redeems with. It is given back at `close`.
pub struct PortPass<L: Law> {
    pub(crate) pair: SeatPair<L>,
    pub(crate) key: Key<L::Base>,
    // The index of the token that the pass had last.
    pub(crate) near: u32,
    // How long it has waited.
    pub(crate) patience: Patience,
}

impl<L: Law> Model for PortPass<L> {
    ghost use Rattle.demi_port.specs.Seen.{PassValue, FitsPass, pass_value};

    ghost Value = { PassValue L.Said L.Told L.Base };

    ghost view = { λ p. pass_value p.pair.seat.table_id p.key p.pair.seat.me.0 p.pair.record.me.0 };

    ghost invariant = { λ p. FitsPass p.key p.pair.record.table_id p.pair.seat.table_id.slots p.pair.seat.me p.pair.record.me };
}

impl<L: Law> PortPass<L> {
    pub(crate) fn into_pair(self) -> SeatPair<L>
        ensures fits { FitsPass self.port.key result.record.table_id result.seat.table_id.slots result.seat.me result.record.me }
        ensures value { pass_value result.seat.table_id self.port.key result.seat.me.0 result.record.me.0 ≡ self }
    {
        let Self {
            pair,
            key: _,
            near: _,
            patience: _,
        } = self;
        pair
    }
}

impl<L: Law> Drop for PortPass<L> {
    fn drop(self) {
        let Self {
            pair,
            key: _,
            near: _,
            patience: _,
        } = self;
        let SeatPair { seat: _, record: _ } = pair;
    }
}
