//! The call by which a caller learns what another has seen.
ghost use Rattle.std.specs.Prelude.{◌≡◌};
ghost use Rattle.demi_pdpix.specs.Notes.{all_learnt, all_noted};
ghost use Rattle.demi_pdpix.specs.Seen.{IsOf};

use crate::at::{learn_each, learn_port};
use crate::caller::Caller;
use crate::demi::Demi;
use demi_port_core::Law;

impl<X: Law> Demi<X> {
    /// Afterwards the caller has seen on each port what the other has seen there: what it then submits stands behind it.
    pub fn learn(&self, caller: &mut Caller<X>, from: &mut Caller<X>)
        requires caller { IsOf self.now caller.old }
        requires from { IsOf self.now from.old }
        ensures of { IsOf self.now caller.new × IsOf self.now from.new }
        ensures caller { caller.new ≡ all_learnt caller.old from.old }
        ensures from { from.new ≡ all_noted from.old }
    {
        let ports = &self.ports;
        learn_port(&ports.memory.port, &mut caller.memory, &mut from.memory);
        learn_port(&ports.service.port, &mut caller.service, &mut from.service);
        learn_each(&ports.journal, &mut caller.journal, &mut from.journal);
        learn_each(&ports.rx, &mut caller.rx, &mut from.rx);
        learn_each(&ports.tx, &mut caller.tx, &mut from.tx);
    }
}
