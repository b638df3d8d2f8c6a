//! What is left of a port.
ghost use Rattle.std.specs.Prelude.{◌≡◌, ℕ, ◌<◌, ◌≤◌, length};
ghost use mathlib.Core.Option.{some};
ghost use lib.ListN.{get_elem?};
ghost use Rattle.demi_port_core.specs.History.{AnyOf, Each, ground_of, of_pass, times, total};
ghost use Rattle.demi_port_core.specs.Entries.{IsFetched, IsRedeemed};
ghost use Rattle.demi_port_core.specs.Trails.{Behind};
ghost use Rattle.demi_port.specs.Seen.{known_at, known_by, says};

use crate::device_seat::DeviceSeat;
use crate::key::Key;
use crate::pass::PortPass;
use crate::port::Port;
use crate::tables::SeatPair;
use demi_port_core::Law;
use std::marker::Model;

/// A closed port: its whole history, and what the outcomes told.
pub struct PortEnd<L: Law> {
    tickets: u64,
    pair: SeatPair<L>,
    key: Key<L::Base>,
}

impl<L: Law> Model for PortEnd<L> {
    ghost use Rattle.std.specs.Prelude.{◌≡◌, length};
    ghost use Rattle.demi_port.specs.Seen.{EndValue};

    ghost Value = { EndValue L.Said L.Told L.Base };

    ghost view = { λ e. record { base = e.key.base; history = e.pair.seat.me.0.history; heard = e.pair.record.me.0.heard; trail = e.pair.record.me.0.told; floor = e.pair.record.me.0.floor } };

    ghost invariant = { λ e. e.tickets ≡ length e.pair.seat.me.0.history };
}

impl<L: Law> PortEnd<L> {
    /// How many places were drawn.
    pub fn tickets(&self) -> u64
        ensures { result ≡ length self.now.history }
    {
        self.tickets
    }
}

impl<L: Law> Drop for PortEnd<L> {
    fn drop(self) {
        let Self {
            tickets: _,
            pair,
            key: _,
        } = self;
        let SeatPair { seat: _, record: _ } = pair;
    }
}

impl<L: Law> Port<L> {
    /// All passes come back, and as many operations were redeemed as submitted.
    /// The end has the one history: the entries with a pass's number are that pass's operations at their places, and there are no others. What each pass was handed begins it.
    /// Each place was fetched, once and with its own token, so the last ground, which the device has heard, is all that the history says.
    pub fn close(self, seat: DeviceSeat<L>, passes: Vec<PortPass<L>>) -> PortEnd<L>
        requires port { (seat.port ≡ self) × Each (λ p. p.port ≡ self) passes.items }
        requires all { (n : ℕ) → n < seat.passes → AnyOf (λ p. p.number ≡ n) passes.items }
        requires even { total (λ p. length p.submitted) passes.items ≡ total (λ p. length p.redeemed) passes.items }
        ensures base { result.base ≡ self.key.base }
        ensures passes { Each (λ p. p.submitted ≡ of_pass p.number 0 result.history) passes.items }
        ensures entries { (p : ℕ) (e : _) → get_elem? result.history p ≡ some e → e.0 < seat.passes }
        ensures redeemed { Each (λ p. Each (IsRedeemed result.history) p.redeemed) passes.items }
        ensures once { (t : ℕ) → total (λ p. times t p.redeemed) passes.items ≤ 1 }
        ensures trail { result.trail ≡ seat.trail }
        ensures fetched { Each (IsFetched result.history) seat.fetched }
        ensures counted { length seat.fetched ≡ length result.history }
        ensures grounded { ground_of seat.fetched ≡ says result.history }
        ensures heard { result.heard ≡ says result.history }
        ensures behind { Each (λ p. Behind (known_at result) (known_by p)) passes.items }
    {
        let (pair, key) = seat.into_parts();
        let Port {
            tables,
            device: _,
            callers: _,
            yields: _,
        } = self;
        let (tickets, pair) = tables.close(pair, passes);
        PortEnd { tickets, pair, key }
    }
}
