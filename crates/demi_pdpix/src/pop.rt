//! The call that pops.
ghost use Rattle.std.specs.Prelude.{◌≡◌, ◌<◌, ◌≤◌, IfOk, None, length};
ghost use Rattle.demi_memq.specs.declared.op.MemOp.TheVariants.{Pop as PopMem};
ghost use Rattle.demi_logq.specs.declared.op.LogOp.TheVariants.{Pop as PopLog};
ghost use Rattle.demi_streamq.specs.declared.rx_op.RxOp.TheVariants.{Pop as PopRx};
ghost use Rattle.demi_pdpix.specs.Asks.{IfBad, IfFull, pop_asks, refusal_of, refused_as, to_log, to_memory, to_receiver};
ghost use Rattle.demi_pdpix.specs.Calls.{FindsNone, Submits};
ghost use Rattle.demi_pdpix.specs.Kinds.{kind_of};
ghost use Rattle.demi_pdpix.specs.Seen.{IsOf};
ghost use Rattle.demi_pdpix.specs.declared.kind.PortKind.TheVariants.{Memory, Journal, Receiving};

use crate::caller::Caller;
use crate::demi::Demi;
use crate::kind::PortKind;
use crate::qd::Qd;
use crate::refusals::PopRefused;
use demi_logq::LogOp;
use demi_memq::MemOp;
use demi_port_core::{Law, QToken};
use demi_streamq::RxOp;

// The most bytes that a receiving port gives at a time.
const MAX_POP_BYTES: u32 = 4096;

impl<X: Law> Demi<X> {
    fn pop_memory(&self, caller: &mut Caller<X>, q: u32) -> Result<QToken, PopRefused>
        requires of { IsOf self.now caller.old }
        ensures of { IsOf self.now caller.new }
        ensures good { refusal_of result ≡ None }
        ensures ok { IfOk result (λ t. (t.port ≡ 0) × Submits Memory (to_memory (PopMem q)) caller.old caller.new t.token.0) }
        ensures full { IfFull result (FindsNone Memory caller.old caller.new) }
    {
        match self.submit_memory(caller, MemOp::Pop { q }) {
            Ok(token) => Ok(token),
            Err(op) => {
                let MemOp::Pop { q: _ } = op else {
                    unreachable!()
                };
                Err(PopRefused::TokensFull)
            }
        }
    }

    fn pop_journal(&self, caller: &mut Caller<X>) -> Result<QToken, PopRefused>
        requires of { IsOf self.now caller.old }
        requires there { 0 < length self.now.journal }
        ensures of { IsOf self.now caller.new }
        ensures good { refusal_of result ≡ None }
        ensures ok { IfOk result (λ t. (t.port ≡ 2) × Submits Journal (to_log PopLog) caller.old caller.new t.token.0) }
        ensures full { IfFull result (FindsNone Journal caller.old caller.new) }
    {
        match self.submit_journal(caller, LogOp::Pop) {
            Ok(token) => Ok(token),
            Err(op) => {
                let LogOp::Pop = op else { unreachable!() };
                Err(PopRefused::TokensFull)
            }
        }
    }

    fn pop_rx(
        &self,
        caller: &mut Caller<X>,
        port: u16,
        k: u32,
        max: u32,
    ) -> Result<QToken, PopRefused>
        requires of { IsOf self.now caller.old }
        requires there { k < length self.now.rx }
        requires size { (1 ≤ max) × (max ≤ 4096) }
        ensures of { IsOf self.now caller.new }
        ensures good { refusal_of result ≡ None }
        ensures ok { IfOk result (λ t. (t.port ≡ port) × Submits (Receiving k) (to_receiver (PopRx max)) caller.old caller.new t.token.0) }
        ensures full { IfFull result (FindsNone (Receiving k) caller.old caller.new) }
    {
        match self.submit_rx(caller, port, k, RxOp::Pop { max }) {
            Ok(token) => Ok(token),
            Err(_) => Err(PopRefused::TokensFull),
        }
    }

    /// Pops from a memory queue, the log's queue or a link, of which it gives 1 to `max` bytes; the others ignore `max`.
    /// `BadQd` exactly where the descriptor names nothing that takes a pop; then `BadSize` exactly where the port receives and `max`
    /// is 0 or above 4,096; nothing changed by either. `TokensFull` only where no token was found.
    pub fn pop(&self, caller: &mut Caller<X>, qd: Qd, max: u32) -> Result<QToken, PopRefused>
        requires { IsOf self.now caller.old }
        ensures of { IsOf self.now caller.new }
        ensures exact { refusal_of result ≡ refused_as (pop_asks (kind_of self.now qd.port) qd.queue max) }
        ensures ok { IfOk result (λ t. (t.port ≡ qd.port) × Submits (kind_of self.now qd.port) (pop_asks (kind_of self.now qd.port) qd.queue max) caller.old caller.new t.token.0) }
        ensures bad { IfBad result (caller.new ≡ caller.old) }
        ensures full { IfFull result (FindsNone (kind_of self.now qd.port) caller.old caller.new) }
    {
        match self.kind(qd.port) {
            PortKind::Memory => self.pop_memory(caller, qd.queue),
            PortKind::Journal => {
                if qd.queue == 0 {
                    self.pop_journal(caller)
                } else {
                    Err(PopRefused::BadQd)
                }
            }
            PortKind::Receiving(k) => {
                if qd.queue != 0 {
                    Err(PopRefused::BadQd)
                } else if max == 0 || max > MAX_POP_BYTES {
                    Err(PopRefused::BadSize)
                } else {
                    self.pop_rx(caller, qd.port, k, max)
                }
            }
            PortKind::Service | PortKind::Sending(_) | PortKind::Nowhere => Err(PopRefused::BadQd),
        }
    }
}
