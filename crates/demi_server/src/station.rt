//! A device at its port.
ghost use Rattle.std.specs.Prelude.{◌≡◌, ◌≤◌, [], IfErr, IfOk, length};
ghost use Rattle.demi_device.specs.Serving.{HasStop, NonePends, places};
ghost use Rattle.demi_device.specs.Turning.{Agrees, IsFresh};
ghost use Rattle.demi_server.specs.Stations.{HasRun};

use demi_device::{Device, Engine};
use demi_port::{DeviceSeat, Port};
use std::alloc::Global;
use std::marker::Model;
use std::sync::Wait;

/// A device with its port, at which it serves until it was stopped. A contract sees the device.
pub struct Station<'p, E: Engine> {
    device: Device<E>,
    port: &'p Port<E::L>,
}

impl<'p, E: Engine> Model for Station<'p, E> {
    ghost use Rattle.std.specs.Prelude.{◌≡◌};
    ghost use Rattle.demi_device.specs.Turning.{WholeDevice};

    ghost Value = { WholeDevice E E.L.Said E.L.Told E.L.Base };

    ghost view = { λ s. s.device };

    ghost invariant = { λ s. s.device.seat.port ≡ s.port.now };
}

impl<'p, E: Engine> Station<'p, E> {
    /// A device of the engine and the seat, at its port with `c` tokens. Both come back where memory was refused, and for no other cause.
    pub fn make(
        alloc: Global,
        engine: E,
        seat: DeviceSeat<E::L>,
        port: &'p Port<E::L>,
        c: u32,
    ) -> Result<Station<'p, E>, (E, DeviceSeat<E::L>)>
        requires port { (seat.port ≡ port.now) × (c ≡ port.now.tokens.slots) }
        requires base { E.base engine ≡ port.now.key.base }
        requires room { c ≤ E.room engine }
        requires fresh { IsFresh seat }
        requires unserved { (E.served engine ≡ []) × (E.finished engine ≡ []) }
        ensures made { IfOk result (λ d. (d.engine ≡ engine) × (d.seat ≡ seat)) }
        ensures back { IfErr result (λ r. (r.0 ≡ engine) × (r.1 ≡ seat)) }
    {
        match Device::make(alloc, engine, seat, c) {
            Ok(device) => Ok(Station { device, port }),
            Err(back) => Err(back),
        }
    }

    /// The engine and the seat, where each operation that was fetched was served: after its work, and before.
    pub fn parts(self) -> (E, DeviceSeat<E::L>)
        requires { length self.seat.fetched ≡ length (E.served self.engine) }
        ensures engine { result.0 ≡ self.entry.engine }
        ensures seat { result.1 ≡ self.entry.seat }
        ensures agrees { Agrees E.L.told (E.L.admits (E.base result.0)) (E.served result.0) (E.finished result.0) result.1 }
        ensures ends { HasStop E.L.stops (E.served result.0) → NonePends (length (E.served result.0)) (places (E.finished result.0)) }
    {
        let Station { device, port: _ } = self;
        device.parts()
    }

    /// Serves at its port until the service is over, and lets other threads run whenever nothing is there. It may wait.
    pub fn serve<R: Wait>(&mut self, rt: &R)
        ensures { HasRun E.goes E.base E.room E.served E.finished E.L.told E.L.admits E.L.stops self.old self.new }
    {
        let port = self.port;
        self.device.run(rt, port);
    }
}
