//! An engine at a port.
ghost use Rattle.std.specs.Prelude.{◌≡◌, ◌≤◌, [], IfErr, IfOk, is_ok, length};
ghost use Rattle.demi_device.specs.Turning.{Agrees, IsFresh};
ghost use Rattle.demi_device.specs.Serving.{HasStop, NonePends, places};

use crate::done::Done;
use crate::engine::Engine;
use crate::inbox::Inbox;
use demi_core::NoMemory;
use demi_port::DeviceSeat;
use std::alloc::Global;
use std::marker::Model;
use std::sync::Wait;

/// An engine with the seat of its port's device. A contract sees both.
pub struct Device<E: Engine> {
    pub(crate) engine: E,
    pub(crate) inbox: Inbox<E::L>,
    pub(crate) done: Done<E::L>,
}

impl<E: Engine> Model for Device<E> {
    ghost use Rattle.std.specs.Prelude.{◌≡◌, []};
    ghost use Rattle.demi_device.specs.Holding.{Serves};
    ghost use Rattle.demi_device.specs.Turning.{WholeDevice};

    ghost Value = { WholeDevice E E.L.Said E.L.Told E.L.Base };

    ghost view = { λ d. record { engine = d.engine; seat = d.inbox.seat } };

    ghost invariant = { λ d. (d.done.added ≡ []) × (d.done.room ≡ d.inbox.seat.port.tokens.slots) × Serves E.L.told E.L.admits E.L.may_pend E.L.stops (E.base d.engine) (E.room d.engine) d.inbox.given (E.served d.engine) (E.finished d.engine) d.inbox.seat };
}

impl<E: Engine> Device<E> {
    /// An engine at a port with `c` tokens. Both come back where memory was refused, and for no other cause.
    pub fn make(
        alloc: Global,
        engine: E,
        seat: DeviceSeat<E::L>,
        c: u32,
    ) -> Result<Device<E>, (E, DeviceSeat<E::L>)>
        requires tokens { c ≡ seat.port.tokens.slots }
        requires base { E.base engine ≡ seat.port.key.base }
        requires room { c ≤ E.room engine }
        requires fresh { IsFresh seat }
        requires unserved { (E.served engine ≡ []) × (E.finished engine ≡ []) }
        ensures made { IfOk result (λ d. (d.engine ≡ engine) × (d.seat ≡ seat)) }
        ensures back { IfErr result (λ r. (r.0 ≡ engine) × (r.1 ≡ seat)) }
    {
        let Ok(done) = Done::make(alloc, c) else {
            return Err((engine, seat));
        };
        match Inbox::make(alloc, seat, c) {
            Ok(inbox) => Ok(Device {
                engine,
                inbox,
                done,
            }),
            Err(seat) => {
                done.free();
                Err((engine, seat))
            }
        }
    }

    /// Lets the engine give what it has to give to others. Of operations and outcomes nothing changes. It may wait.
    pub fn tend<R: Wait>(&mut self, rt: &R) -> Result<(), NoMemory>
        ensures tends { E.tends self.old.engine (is_ok result) self.new.engine }
        ensures goes { E.goes self.old.engine self.new.engine }
        ensures base { E.base self.new.engine ≡ E.base self.old.engine }
        ensures room { E.room self.new.engine ≡ E.room self.old.engine }
        ensures served { E.served self.new.engine ≡ E.served self.old.engine }
        ensures finished { E.finished self.new.engine ≡ E.finished self.old.engine }
        ensures seat { self.new.seat ≡ self.old.seat }
    {
        self.engine.tend(rt)
    }

    /// The engine and the seat, where each operation that was fetched was served: after a turn that ended, and before the first.
    pub fn parts(self) -> (E, DeviceSeat<E::L>)
        requires { length self.seat.fetched ≡ length (E.served self.engine) }
        ensures engine { result.0 ≡ self.engine }
        ensures seat { result.1 ≡ self.seat }
        ensures agrees { Agrees E.L.told (E.L.admits (E.base result.0)) (E.served result.0) (E.finished result.0) result.1 }
        ensures ends { HasStop E.L.stops (E.served result.0) → NonePends (length (E.served result.0)) (places (E.finished result.0)) }
    {
        let Device {
            engine,
            inbox,
            done,
        } = self;
        done.free();
        (engine, inbox.into_seat())
    }
}
