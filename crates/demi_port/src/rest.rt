//! How a thread waits before it looks again.
ghost use Rattle.std.specs.Prelude.{◌≡◌};

use crate::device_seat::DeviceSeat;
use crate::pass::PortPass;
use crate::port::Port;
use demi_bell::{Bells, SPINS};
use demi_port_core::Law;
use std::alloc::Global;
use std::hint::spin_loop;
use std::sync::{Arc, Wait};
use std::thread::yield_now;

/// How often a device lets other threads run before it sleeps, unless `hear` says otherwise: less often than a caller does
/// (`demi_bell::YIELDS`). Where threads are more than processors, most of those that yield are devices, and each turn that they get
/// for nothing is another's. With less than some 20 a device falls asleep between two operations of one caller.
pub const DEVICE_YIELDS: u32 = 40;

impl<L: Law> Port<L> {
    /// From now on a finish rings these bells, which several ports may share: so a caller of many ports sleeps at one bell. The
    /// sleepers are named by the numbers of their passes. The device lets other threads run so many times before it sleeps: where
    /// threads are fewer than processors, many yields save the wake of an operation that comes soon.
    pub fn hear(&mut self, bells: Arc<Bells, Global>, yields: u32)
        ensures { self.new ≡ self.old }
    {
        self.callers = bells;
        self.yields = yields;
    }

    /// The bells that a finish rings. A caller of many ports has a patience of its own at them; one of this port alone has `park`.
    pub fn bells(&self) -> &Bells {
        &self.callers
    }

    /// After a look that found nothing, before the pass looks again: the first times it goes on at once, then it lets other
    /// threads run, and then it sleeps until something is finished. A look belongs between any two calls, for else a wake may be
    /// missed. It may also return for no reason, and nothing changes by it.
    pub fn park<R: Wait>(&self, rt: &R, pass: &mut PortPass<L>)
        requires port { pass.old.port ≡ self.now }
        ensures { pass.new ≡ pass.old }
    {
        pass.patience.idle(rt, &self.callers);
    }

    /// Waits for a doorbell: the device looks some times, then lets other threads run in between, and then sleeps until a submit.
    /// It may also return for no reason. Nothing changes by it.
    pub fn rest<R: Wait>(&self, rt: &R, _seat: &mut DeviceSeat<L>)
        requires port { _seat.old.port ≡ self.now }
        ensures { _seat.new ≡ _seat.old }
    {
        for _ in 0..SPINS {
            if self.tables.has_rung() {
                return;
            }
            spin_loop();
        }
        for _ in 0..self.yields {
            if self.tables.has_rung() {
                return;
            }
            yield_now();
        }
        self.device.listen();
        if self.tables.has_rung() {
            self.device.leave();
        } else {
            self.device.sleep(rt);
        }
    }
}
