//! The end of a port with one pass.
ghost use Rattle.std.specs.Prelude.{◌≡◌, ◌<◌, [], vec_capacity};
ghost use Rattle.demi_copy.specs.Calm.{IsCalm};

use demi_port::{DeviceSeat, Port, PortPass};
use demi_port_core::Law;

// Closes the port. The pass goes back to the list that it came in.
pub(crate) fn close<L: Law>(
    port: Port<L>,
    seat: DeviceSeat<L>,
    home: Vec<PortPass<L>>,
    pass: PortPass<L>,
)
    requires seat { (seat.port ≡ port) × (seat.passes ≡ 1) }
    requires calm { IsCalm port pass }
    requires room { (home.items ≡ []) × (0 < vec_capacity home) }
{
    let mut passes = home;
    passes.push_reserved(pass);
    let _end = port.close(seat, passes);
}
