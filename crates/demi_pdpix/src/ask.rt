//! The call of the service.
ghost use Rattle.std.specs.Prelude.{◌≡◌, IfErr, IfOk};
ghost use Rattle.demi_pdpix.specs.Calls.{FindsNone, OnService, SubmittedAt};
ghost use Rattle.demi_pdpix.specs.Seen.{IsOf};
ghost use Rattle.demi_pdpix.specs.declared.kind.PortKind.TheVariants.{Service};

use crate::at::submit_to;
use crate::caller::Caller;
use crate::demi::Demi;
use crate::submitting::at_port;
use demi_port::TokensFull;
use demi_port_core::{Law, Place, QToken};

impl<X: Law> Demi<X> {
    /// Asks the service, and gives the place at which the operation stands in its history. The operation comes back where no token
    /// could be had.
    pub fn ask(&self, caller: &mut Caller<X>, op: X::Op) -> Result<(QToken, Place), TokensFull<X>>
        requires of { IsOf self.now caller.old }
        requires proper { X.proper self.now.service.key.base (X.said op) }
        ensures of { IsOf self.now caller.new }
        ensures ok { IfOk result (λ r. (r.0.port ≡ 1) × OnService caller.old caller.new × SubmittedAt r.1.0 caller.old.service caller.new.service r.0.token.0 (X.said op)) }
        ensures full { IfErr result (λ e. (e.0 ≡ op) × FindsNone Service caller.old caller.new) }
    {
        match submit_to(&self.ports.service.port, &mut caller.service, op) {
            Ok((token, place)) => Ok((at_port(1, token), place)),
            Err(op) => Err(TokensFull(op)),
        }
    }
}
