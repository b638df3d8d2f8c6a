//! A port with the room in which its passes come back.
ghost use Rattle.std.specs.Prelude.{◌≡◌, ℕ, ◌+◌, ◌<◌, ◌≤◌, [], ◌∷◌, ◌++◌, IfOk, length};
ghost use Rattle.demi_port.specs.Seen.{IsNewPass, IsNewSeat, NewFrom};
ghost use Rattle.demi_port_core.specs.History.{AnyOf, Each, total};
ghost use Rattle.demi_pdpix.specs.Lanes.{HasLeft, IsEndOf, LaneValue};

use demi_bell::Bells;
use demi_core::NoMemory;
use demi_port::{DeviceSeat, Port, PortEnd, PortPass};
use demi_port_core::{Basis, Law};
use std::alloc::Global;
use std::marker::Model;
use std::sync::Arc;

// A port with those of its passes that no caller has. There is room for all of them.
pub(crate) struct Lane<L: Law> {
    pub(crate) port: Port<L>,
    home: Vec<PortPass<L>>,
    callers: u32,
}

impl<L: Law> Model for Lane<L> {
    ghost use Rattle.std.specs.Prelude.{◌≤◌, ◌≡◌, length, vec_capacity, vec_len};
    ghost use Rattle.demi_pdpix.specs.Lanes.{LaneValue};

    ghost Value = { LaneValue L.Said L.Told L.Base };

    ghost view = { λ l. record { port = l.port; home = l.home.items; callers = l.callers } };

    ghost invariant = { λ l. (l.callers ≤ vec_capacity l.home) × (vec_len l.home ≡ length l.home.items) };
}

impl<L: Law> Lane<L> {
    // A new port that rings these bells, all of whose passes are at home. Its device yields so many times before it sleeps.
    pub(crate) fn make<N: Basis<L::Base>>(
        alloc: Global,
        bells: &Arc<Bells, Global>,
        yields: u32,
        tokens: u32,
        callers: u32,
    ) -> Result<(Lane<L>, DeviceSeat<L>), NoMemory>
        requires { (1 ≤ tokens) × (tokens ≤ 64) × (1 ≤ callers) × (callers ≤ 64) }
        ensures port { IfOk result (λ r. (r.0.port.key.base ≡ N.base) × (r.0.port.tokens.slots ≡ tokens) × (r.0.callers ≡ callers)) }
        ensures home { IfOk result (λ r. (length r.0.home ≡ callers) × NewFrom r.0.port 0 r.0.home) }
        ensures seat { IfOk result (λ r. IsNewSeat r.0.port callers r.1) }
    {
        let heard = Arc::try_clone(bells)?;
        let (mut port, home, seat) = Port::<L>::make::<N>(alloc, tokens, callers)?;
        port.hear(heard, yields);
        Ok((
            Lane {
                port,
                home,
                callers,
            },
            seat,
        ))
    }

    // The last pass goes to a caller.
    pub(crate) fn deal(&mut self) -> PortPass<L>
        requires { 1 ≤ length self.old.home }
        ensures { self.old ≡ record self.new { home = self.new.home ++ result ∷ [] } }
    {
        match self.home.pop() {
            Some(pass) => pass,
            None => unreachable!(),
        }
    }

    // A pass comes back.
    pub(crate) fn take_back(&mut self, pass: PortPass<L>)
        requires { length self.old.home < self.old.callers }
        ensures { self.new ≡ record self.old { home = self.old.home ++ pass ∷ [] } }
    {
        self.home.push_reserved(pass);
    }

    // Ends a port that nobody has used.
    pub(crate) fn end_new(self, seat: DeviceSeat<L>)
        requires { IsNewSeat self.port self.callers seat × HasLeft self.callers self }
    {
        let Lane {
            port,
            home,
            callers: _,
        } = self;
        let _end = port.close(seat, home);
    }

    // Ends a port all of whose passes are at home.
    pub(crate) fn close(self, seat: DeviceSeat<L>) -> PortEnd<L>
        requires port { (seat.port ≡ self.port) × Each (λ p. p.port ≡ self.port) self.home }
        requires all { (n : ℕ) → n < seat.passes → AnyOf (λ p. p.number ≡ n) self.home }
        requires even { total (λ p. length p.submitted) self.home ≡ total (λ p. length p.redeemed) self.home }
        ensures { IsEndOf self.port seat self.home result }
    {
        let Lane {
            port,
            home,
            callers: _,
        } = self;
        port.close(seat, home)
    }
}
