//! A turn of a device.
ghost use Rattle.std.specs.Prelude.{◌≡◌, ◌≢◌, ◌+◌, ◌<◌, ◌≤◌, ◌++◌, List, [], ◌∷◌, IsTrue, false, true, length};
ghost use mathlib.Core.Logic.{◌↔◌};
ghost use Rattle.demi_port_core.specs.History.{ground_of};
ghost use Rattle.demi_port_core.specs.Trails.{StartsWith};
ghost use Rattle.demi_device.specs.Holding.{Serves, TookIn};
ghost use Rattle.demi_device.specs.Turning.{Agrees, GoesOn, Grows, IsAtHand, IfEnded, IfIdle, IfServed, IsOver, LookedLast, NoBell, WasQuiet, served_by};
ghost use Rattle.demi_device.specs.Serving.{EachMayPend, HasStop, NonePends, places};

use crate::device::Device;
use crate::engine::Engine;
use crate::turn::Turn;
use demi_port::Port;
use std::sync::Wait;

impl<E: Engine> Device<E> {
    // Takes the doorbells and fetches each operation that rang, and tells whether there was one.
    fn take_in(&mut self, port: &Port<E::L>) -> bool
        requires port { self.old.seat.port ≡ port.now }
        ensures engine { self.new.engine ≡ self.old.engine }
        ensures took { TookIn self.old.seat self.new.seat }
        ensures quiet { result ≡ false → WasQuiet self.old.seat self.new.seat × (self.new.seat.fetched ≡ self.old.seat.fetched) }
        ensures some { result ≡ true → (length self.old.seat.fetched < length self.new.seat.fetched) × (length self.new.seat.fetched ≤ length self.new.seat.finished + port.now.tokens.slots) }
    {
        self.inbox.take_in(port)
    }

    /// How many operations were fetched and not served: after a turn, those that wait for one of a lower place.
    pub fn waiting(&self) -> u32
        ensures { length (E.served self.now.engine) + result ≡ length self.now.seat.fetched }
    {
        self.inbox.waiting()
    }

    // Serves the operation of the next place if it is there, and finishes what the engine added.
    fn serve_next(&mut self, port: &Port<E::L>) -> bool
        requires port { self.old.seat.port ≡ port.now }
        ensures goes { E.goes self.old.engine self.new.engine }
        ensures engine { (E.base self.new.engine ≡ E.base self.old.engine) × (E.room self.new.engine ≡ E.room self.old.engine) }
        ensures seat { self.new.seat ≡ record self.old.seat { finished = self.new.seat.finished; trail = self.new.seat.trail; owes = self.new.seat.owes } }
        ensures grows { Grows (E.finished self.old.engine) (E.finished self.new.engine) self.old.seat self.new.seat }
        ensures some { result ≡ true → (length (E.served self.old.engine) < length self.old.seat.fetched) × ((d : E.L.Said) × (E.served self.new.engine ≡ E.served self.old.engine ++ d ∷ [])) }
        ensures none { result ≡ false → (self.new ≡ self.old) × (IsAtHand (length (E.served self.new.engine)) self.new.seat → ⊥) }
        ensures serves { Serves E.L.told E.L.admits E.L.may_pend E.L.stops (E.base self.new.engine) (E.room self.new.engine) (length (E.served self.new.engine)) (E.served self.new.engine) (E.finished self.new.engine) self.new.seat }
    {
        let Some((place, op)) = self.inbox.next() else {
            return false;
        };
        self.engine.serve(place, op, &mut self.done);
        self.inbox.finish_all(port, &mut self.done);
        true
    }

    // Serves operations as long as the next one is there, and tells how many there were.
    fn serve_held(&mut self, port: &Port<E::L>) -> u32
        requires port { self.old.seat.port ≡ port.now }
        ensures goes { E.goes self.old.engine self.new.engine }
        ensures engine { (E.base self.new.engine ≡ E.base self.old.engine) × (E.room self.new.engine ≡ E.room self.old.engine) }
        ensures seat { self.new.seat ≡ record self.old.seat { finished = self.new.seat.finished; trail = self.new.seat.trail; owes = self.new.seat.owes } }
        ensures grows { Grows (E.finished self.old.engine) (E.finished self.new.engine) self.old.seat self.new.seat }
        ensures served { GoesOn result (E.served self.old.engine) (E.served self.new.engine) }
        ensures all_served { (ground_of self.new.seat.fetched ≡ E.served self.new.engine) × (IsAtHand (length (E.served self.new.engine)) self.new.seat → ⊥) }
        ensures none { result ≡ 0 → self.new ≡ self.old }
        ensures serves { Serves E.L.told E.L.admits E.L.may_pend E.L.stops (E.base self.new.engine) (E.room self.new.engine) (length (E.served self.new.engine)) (E.served self.new.engine) (E.finished self.new.engine) self.new.seat }
    {
        let before = self.waiting();
        while self.serve_next(port) {}
        before - self.waiting()
    }

    // Whether a stop was served and each operation that was fetched was served.
    fn is_over(&self) -> bool
        ensures { IsTrue result ↔ IsOver E.L.stops (E.served self.now.engine) self.now.seat }
    {
        match self.engine.stopped() {
            Some(_) => self.inbox.is_empty(),
            None => false,
        }
    }

    /// Takes the doorbells, fetches what rang, keeps what came early, serves each operation whose place is next, and finishes what
    /// the engine added. After it the engine was served all that was fetched without a gap: the next operation is not there.
    /// It waits for nothing and takes no memory.
    pub fn turn(&mut self, port: &Port<E::L>) -> Turn
        requires port { self.old.seat.port ≡ port.now }
        ensures goes { E.goes self.old.engine self.new.engine }
        ensures engine { (E.base self.new.engine ≡ E.base self.old.engine) × (E.room self.new.engine ≡ E.room self.old.engine) }
        ensures port { (self.new.seat.port ≡ self.old.seat.port) × (self.new.seat.passes ≡ self.old.seat.passes) }
        ensures served { GoesOn (served_by result) (E.served self.old.engine) (E.served self.new.engine) }
        ensures some { IfServed result (λ n. 1 ≤ n) }
        ensures looked { LookedLast self.old.seat self.new.seat }
        ensures taken { NoBell port.now.tokens.slots self.new.seat.rang }
        ensures all_served { (ground_of self.new.seat.fetched ≡ E.served self.new.engine) × (IsAtHand (length (E.served self.new.engine)) self.new.seat → ⊥) }
        ensures grows { Grows (E.finished self.old.engine) (E.finished self.new.engine) self.old.seat self.new.seat }
        ensures agrees { Agrees E.L.told (E.L.admits (E.base self.new.engine)) (E.served self.new.engine) (E.finished self.new.engine) self.new.seat }
        ensures pends { EachMayPend (E.L.may_pend (E.served self.new.engine)) (length (E.served self.new.engine)) (places (E.finished self.new.engine)) }
        ensures ends { HasStop E.L.stops (E.served self.new.engine) → NonePends (length (E.served self.new.engine)) (places (E.finished self.new.engine)) }
        ensures idle { IfIdle result (WasQuiet self.old.seat self.new.seat × (IsOver E.L.stops (E.served self.new.engine) self.new.seat → ⊥)) }
        ensures ended { IfEnded result (WasQuiet self.old.seat self.new.seat × IsOver E.L.stops (E.served self.new.engine) self.new.seat) }
    {
        loop {
            let rang = self.take_in(port);
            let served = self.serve_held(port);
            if served > 0 {
                return Turn::Served(served);
            }
            if !rang {
                return if self.is_over() {
                    Turn::Ended
                } else {
                    Turn::Idle
                };
            }
        }
    }

    /// Lets other threads run, where a loop of turns and tends finds nothing to do. Nothing changes by it. It may wait.
    pub fn rest<R: Wait>(&mut self, rt: &R, port: &Port<E::L>)
        requires port { self.old.seat.port ≡ port.now }
        ensures { self.new ≡ self.old }
    {
        self.inbox.rest(rt, port);
    }

    /// Turns until the service is over, and lets other threads run whenever nothing is there. It may wait.
    pub fn run<R: Wait>(&mut self, rt: &R, port: &Port<E::L>)
        requires port { self.old.seat.port ≡ port.now }
        ensures goes { E.goes self.old.engine self.new.engine }
        ensures engine { (E.base self.new.engine ≡ E.base self.old.engine) × (E.room self.new.engine ≡ E.room self.old.engine) }
        ensures port { (self.new.seat.port ≡ self.old.seat.port) × (self.new.seat.passes ≡ self.old.seat.passes) }
        ensures served { StartsWith (E.served self.new.engine) (E.served self.old.engine) }
        ensures quiet { WasQuiet self.old.seat self.new.seat }
        ensures over { IsOver E.L.stops (E.served self.new.engine) self.new.seat }
        ensures all_served { (ground_of self.new.seat.fetched ≡ E.served self.new.engine) × (IsAtHand (length (E.served self.new.engine)) self.new.seat → ⊥) }
        ensures ends { NonePends (length (E.served self.new.engine)) (places (E.finished self.new.engine)) }
        ensures grows { Grows (E.finished self.old.engine) (E.finished self.new.engine) self.old.seat self.new.seat }
        ensures agrees { Agrees E.L.told (E.L.admits (E.base self.new.engine)) (E.served self.new.engine) (E.finished self.new.engine) self.new.seat }
    {
        for _ in rt.forever() {
            match self.turn(port) {
                Turn::Ended => return,
                Turn::Idle => self.rest(rt, port),
                Turn::Served(_) => {}
            }
        }
        unreachable!()
    }
}
