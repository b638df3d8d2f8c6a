//! The call that makes a queue.
ghost use Rattle.std.specs.Prelude.{◌≡◌, IfErr, IfOk};
ghost use Rattle.demi_memq.specs.declared.op.MemOp.TheVariants.{Queue};
ghost use Rattle.demi_pdpix.specs.Asks.{to_memory};
ghost use Rattle.demi_pdpix.specs.Calls.{FindsNone, Submits};
ghost use Rattle.demi_pdpix.specs.Seen.{IsOf};
ghost use Rattle.demi_pdpix.specs.declared.kind.PortKind.TheVariants.{Memory};

use crate::caller::Caller;
use crate::demi::Demi;
use crate::refusals::TokensFullNow;
use demi_memq::MemOp;
use demi_port_core::{Law, QToken};

impl<X: Law> Demi<X> {
    /// Asks for a new memory queue. Its number is in the outcome, `MemOut::Opened`, where there are not too many.
    pub fn queue(&self, caller: &mut Caller<X>) -> Result<QToken, TokensFullNow>
        requires { IsOf self.now caller.old }
        ensures of { IsOf self.now caller.new }
        ensures ok { IfOk result (λ t. (t.port ≡ 0) × Submits Memory (to_memory Queue) caller.old caller.new t.token.0) }
        ensures full { IfErr result (λ _. FindsNone Memory caller.old caller.new) }
    {
        match self.submit_memory(caller, MemOp::Queue) {
            Ok(token) => Ok(token),
            Err(op) => {
                let MemOp::Queue = op else { unreachable!() };
                Err(TokensFullNow)
            }
        }
    }
}
