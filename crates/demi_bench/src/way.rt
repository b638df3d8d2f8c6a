//! A port that one caller asks.
ghost use Rattle.std.specs.Prelude.{◌≡◌, ◌≤◌, [], IfSome, length, vec_capacity};
ghost use Rattle.demi_bench.specs.Asking.{IsFirst};
ghost use Rattle.demi_bench.specs.Linking.{IsStationOf};
ghost use Rattle.demi_sched.specs.Scanning.{IsWithin};

use crate::doubler::{Doubler, TOKENS};
use crate::port_loop::close_unused;
use demi_bell::Bells;
use demi_device::Device;
use demi_port::{DEVICE_YIELDS, DeviceSeat, Port, PortPass};
use demi_port_core::{Bits, Doubles, Mask};
use std::alloc::Global;
use std::marker::{Brand, Model};
use std::sync::Arc;

/// A port that one caller asks and one device serves. The vector is the one in which its pass was given.
pub(crate) struct Way {
    pub(crate) port: Port<Doubles>,
    pub(crate) pass: PortPass<Doubles>,
    pub(crate) device: Device<Doubler>,
    home: Vec<PortPass<Doubles>>,
}

impl Model for Way {
    ghost use Rattle.std.specs.Prelude.{◌≡◌, ℕ, ◌≤◌, [], length, vec_capacity};
    ghost use Rattle.demi_port.specs.Seen.{PassValue};
    ghost use Rattle.demi_bench.specs.Asking.{IsFirst};

    ghost Value = { PassValue ℕ (Unit {0}) (Unit {0}) };

    ghost view = { λ w. w.pass };

    ghost invariant = { λ w. IsFirst w.port w.pass × (w.device.seat.port ≡ w.port) × (w.device.seat.passes ≡ 1) × (length w.device.seat.fetched ≡ length w.device.engine.history.value) × (w.home.items ≡ []) × (1 ≤ vec_capacity w.home) };
}

/// The device of a port, and the vector in which the port's pass was given.
pub(crate) struct Station {
    pub(crate) device: Device<Doubler>,
    pub(crate) home: Vec<PortPass<Doubles>>,
}

// Closes a port at which nothing is under way.
fn close_one(
    port: Port<Doubles>,
    seat: DeviceSeat<Doubles>,
    pass: PortPass<Doubles>,
    mut home: Vec<PortPass<Doubles>>,
)
    requires seat { (seat.port ≡ port) × (seat.passes ≡ 1) }
    requires pass { IsFirst port pass }
    requires home { (home.items ≡ []) × (1 ≤ vec_capacity home) }
{
    home.push_reserved(pass);
    let _ended = port.close(seat, home);
}

impl Way {
    /// A new port. `None` is want of memory.
    pub(crate) fn open(alloc: Global) -> Option<Way>
        ensures { IfSome result (λ w. w.redeemed ≡ []) }
    {
        let Ok((port, mut passes, seat)) = Port::<Doubles>::make::<Brand>(alloc, TOKENS, 1) else {
            return None;
        };
        let device = match Device::make(alloc, Doubler::new(), seat, TOKENS) {
            Ok(device) => device,
            Err((_engine, seat)) => {
                close_unused(port, seat, passes);
                return None;
            }
        };
        let Some(pass) = passes.pop() else {
            unreachable!()
        };
        Some(Way {
            port,
            pass,
            device,
            home: passes,
        })
    }

    /// A new port that rings these bells. `None` is want of memory.
    pub(crate) fn open_at(alloc: Global, bells: &Arc<Bells, Global>) -> Option<Way>
        ensures { IfSome result (λ w. w.redeemed ≡ []) }
    {
        let Ok(heard) = Arc::try_clone(bells) else {
            return None;
        };
        let mut way = Way::open(alloc)?;
        way.port.hear(heard, DEVICE_YIELDS);
        Some(way)
    }

    /// What the caller and the device share, what the caller has, and what the device has.
    pub(crate) fn apart(self) -> (Port<Doubles>, PortPass<Doubles>, Station)
        ensures same { result.1 ≡ self }
        ensures parts { IsFirst result.0 result.1 × IsStationOf result.0 result.2 }
    {
        let Way {
            port,
            pass,
            device,
            home,
        } = self;
        (port, pass, Station { device, home })
    }

    /// The port whose parts these are.
    pub(crate) fn whole(port: Port<Doubles>, pass: PortPass<Doubles>, station: Station) -> Way
        requires { IsFirst port pass × IsStationOf port station }
    {
        let Station { device, home } = station;
        Way {
            port,
            pass,
            device,
            home,
        }
    }

    /// Takes the waker bits of the mask.
    pub(crate) fn scan(&mut self, mask: &Mask) -> Bits
        ensures { IsWithin result.words mask.now.words }
    {
        self.port.scan(&mut self.pass, mask)
    }

    /// Closes the port.
    pub(crate) fn close(self) {
        let Way {
            port,
            pass,
            device,
            home,
        } = self;
        let (_engine, seat) = device.parts();
        close_one(port, seat, pass, home);
    }
}
