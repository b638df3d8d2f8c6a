//! The call that takes waker bits.
ghost use Rattle.std.specs.Prelude.{◌≡◌, ◌≢◌};
ghost use Rattle.demi_pdpix.specs.Kinds.{kind_of};
ghost use Rattle.demi_pdpix.specs.Notes.{ScannedAt};
ghost use Rattle.demi_pdpix.specs.Seen.{IsOf};
ghost use Rattle.demi_pdpix.specs.declared.kind.PortKind.TheVariants.{Nowhere};

use crate::at::{scan_at, scan_port};
use crate::caller::Caller;
use crate::demi::Demi;
use crate::kind::PortKind;
use demi_port_core::{Bits, Law, Mask};

impl<X: Law> Demi<X> {
    /// The waker bits of the mask that were set at this call's step on the port, which are cleared. All others stay. The caller owes
    /// a look at each token whose bit it took.
    pub fn scan(&self, caller: &mut Caller<X>, port: u16, mask: &Mask) -> Bits
        requires of { IsOf self.now caller.old }
        requires port { kind_of self.now port ≢ Nowhere }
        ensures of { IsOf self.now caller.new }
        ensures bits { ScannedAt (kind_of self.now port) mask.now.words result.words caller.old caller.new }
    {
        match self.kind(port) {
            PortKind::Memory => scan_port(&self.ports.memory.port, &mut caller.memory, mask),
            PortKind::Service => scan_port(&self.ports.service.port, &mut caller.service, mask),
            PortKind::Journal => scan_at(&self.ports.journal, &mut caller.journal, 0, mask),
            PortKind::Receiving(k) => scan_at(&self.ports.rx, &mut caller.rx, k as usize, mask),
            PortKind::Sending(k) => scan_at(&self.ports.tx, &mut caller.tx, k as usize, mask),
            PortKind::Nowhere => unreachable!(),
        }
    }
}
