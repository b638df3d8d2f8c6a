//! The call that closes a queue.
ghost use Rattle.std.specs.Prelude.{◌≡◌, ◌<◌, IfOk, None, length};
ghost use Rattle.demi_memq.specs.declared.op.MemOp.TheVariants.{Close as CloseMem};
ghost use Rattle.demi_streamq.specs.declared.tx_op.TxOp.TheVariants.{Close as CloseTx};
ghost use Rattle.demi_pdpix.specs.Asks.{IfBad, IfFull, close_asks, refusal_of, refused_as, to_memory, to_sender};
ghost use Rattle.demi_pdpix.specs.Calls.{FindsNone, Submits};
ghost use Rattle.demi_pdpix.specs.Kinds.{kind_of};
ghost use Rattle.demi_pdpix.specs.Seen.{IsOf};
ghost use Rattle.demi_pdpix.specs.declared.kind.PortKind.TheVariants.{Memory, Sending};

use crate::caller::Caller;
use crate::demi::Demi;
use crate::kind::PortKind;
use crate::qd::Qd;
use crate::refusals::PopRefused;
use demi_memq::MemOp;
use demi_port_core::{Law, QToken};
use demi_streamq::TxOp;

impl<X: Law> Demi<X> {
    fn close_memory(&self, caller: &mut Caller<X>, q: u32) -> Result<QToken, PopRefused>
        requires of { IsOf self.now caller.old }
        ensures of { IsOf self.now caller.new }
        ensures good { refusal_of result ≡ None }
        ensures ok { IfOk result (λ t. (t.port ≡ 0) × Submits Memory (to_memory (CloseMem q)) caller.old caller.new t.token.0) }
        ensures full { IfFull result (FindsNone Memory caller.old caller.new) }
    {
        match self.submit_memory(caller, MemOp::Close { q }) {
            Ok(token) => Ok(token),
            Err(op) => {
                let MemOp::Close { q: _ } = op else {
                    unreachable!()
                };
                Err(PopRefused::TokensFull)
            }
        }
    }

    fn close_tx(&self, caller: &mut Caller<X>, port: u16, k: u32) -> Result<QToken, PopRefused>
        requires of { IsOf self.now caller.old }
        requires there { k < length self.now.tx }
        ensures of { IsOf self.now caller.new }
        ensures good { refusal_of result ≡ None }
        ensures ok { IfOk result (λ t. (t.port ≡ port) × Submits (Sending k) (to_sender CloseTx) caller.old caller.new t.token.0) }
        ensures full { IfFull result (FindsNone (Sending k) caller.old caller.new) }
    {
        match self.submit_tx(caller, port, k, TxOp::Close) {
            Ok(token) => Ok(token),
            Err(op) => {
                let TxOp::Close = op else { unreachable!() };
                Err(PopRefused::TokensFull)
            }
        }
    }

    /// Closes a memory queue, or a link to which a port sends: it takes no more pushes. `BadQd` exactly where the descriptor names
    /// neither, and then nothing changed; `TokensFull` only where no token was found.
    pub fn close_queue(&self, caller: &mut Caller<X>, qd: Qd) -> Result<QToken, PopRefused>
        requires { IsOf self.now caller.old }
        ensures of { IsOf self.now caller.new }
        ensures exact { refusal_of result ≡ refused_as (close_asks (kind_of self.now qd.port) qd.queue) }
        ensures ok { IfOk result (λ t. (t.port ≡ qd.port) × Submits (kind_of self.now qd.port) (close_asks (kind_of self.now qd.port) qd.queue) caller.old caller.new t.token.0) }
        ensures bad { IfBad result (caller.new ≡ caller.old) }
        ensures full { IfFull result (FindsNone (kind_of self.now qd.port) caller.old caller.new) }
    {
        match self.kind(qd.port) {
            PortKind::Memory => self.close_memory(caller, qd.queue),
            PortKind::Sending(k) => {
                if qd.queue == 0 {
                    self.close_tx(caller, qd.port, k)
                } else {
                    Err(PopRefused::BadQd)
                }
            }
            PortKind::Service | PortKind::Journal | PortKind::Receiving(_) | PortKind::Nowhere =>
                Err(PopRefused::BadQd),
        }
    }
}
