//! How threads wait where nothing is there.
ghost use Rattle.std.specs.Prelude.{◌≡◌};

use crate::doubler::Doubler;
use demi_bell::{Bells, Patience};
use demi_device::Device;
use demi_port::{Port, PortPass};
use demi_port_core::Doubles;
use std::sync::Wait;
use std::thread::yield_now;

/// What a thread does after a look that found nothing.
#[derive(Clone, Copy)]
pub enum Idling {
    /// As ports do it: it looks some times, yields, and then sleeps.
    Sleeps,
    /// It lets other threads run, whatever happens.
    Yields,
}

impl Idling {
    /// For a caller.
    pub fn park<R: Wait>(self, rt: &R, port: &Port<Doubles>, pass: &mut PortPass<Doubles>)
        requires port { pass.old.port ≡ port.now }
        ensures { pass.new ≡ pass.old }
    {
        match self {
            Idling::Sleeps => port.park(rt, pass),
            Idling::Yields => yield_now(),
        }
    }

    /// For a caller of many ports, who has a patience of its own at their bells.
    pub fn idle<R: Wait>(self, rt: &R, bells: &Bells, patience: &mut Patience) {
        match self {
            Idling::Sleeps => patience.idle(rt, bells),
            Idling::Yields => yield_now(),
        }
    }

    /// For a device.
    pub fn rest<R: Wait>(self, rt: &R, port: &Port<Doubles>, device: &mut Device<Doubler>)
        requires port { device.old.seat.port ≡ port.now }
        ensures { device.new ≡ device.old }
    {
        match self {
            Idling::Sleeps => device.rest(rt, port),
            Idling::Yields => yield_now(),
        }
    }
}
