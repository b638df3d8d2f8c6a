//! The call that pushes an array.
ghost use Rattle.std.specs.Prelude.{◌≡◌, ◌<◌, IfOk, None, length};
ghost use Rattle.demi_memq.specs.Said.{array_said};
ghost use Rattle.demi_memq.specs.declared.op.MemOp.TheVariants.{Push as PushMem};
ghost use Rattle.demi_logq.specs.declared.op.LogOp.TheVariants.{Push as PushLog};
ghost use Rattle.demi_streamq.specs.declared.tx_op.TxOp.TheVariants.{Push as PushTx};
ghost use Rattle.demi_sga.specs.Arrays.{AreOf};
ghost use Rattle.demi_pdpix.specs.Asks.{IfNoQueue, IfNoToken, push_asks, push_refusal_of, refused_as, to_log, to_memory, to_sender};
ghost use Rattle.demi_pdpix.specs.Calls.{FindsNone, Submits, having_lent, having_rejoined};
ghost use Rattle.demi_pdpix.specs.Kinds.{kind_of};
ghost use Rattle.demi_pdpix.specs.Seen.{IsOf};
ghost use Rattle.demi_pdpix.specs.declared.kind.PortKind.TheVariants.{Memory, Journal, Sending};

use crate::caller::Caller;
use crate::demi::Demi;
use crate::kind::PortKind;
use crate::qd::Qd;
use crate::refusals::PushRefused;
use demi_logq::LogOp;
use demi_memq::MemOp;
use demi_port_core::{Law, QToken};
use demi_sga::{AppSga, LentSga, lend, rejoin};
use demi_streamq::TxOp;

// What a push that was taken gives.
type Pushed = (QToken, LentSga);

impl<X: Law> Demi<X> {
    fn push_memory(
        &self,
        caller: &mut Caller<X>,
        q: u32,
        sga: AppSga,
    ) -> Result<Pushed, PushRefused>
        requires of { IsOf self.now caller.old }
        requires array { AreOf self.now.heap sga }
        ensures of { IsOf self.now caller.new }
        ensures good { push_refusal_of result ≡ None }
        ensures ok { IfOk result (λ r. (r.0.port ≡ 0) × (r.1 ≡ record { segments = sga; back = 0 }) × Submits Memory (to_memory (PushMem q (array_said sga))) (having_lent caller.old (length sga)) caller.new r.0.token.0) }
        ensures full { IfNoToken result (λ a. (a ≡ sga) × FindsNone Memory (having_rejoined caller.old (length sga)) caller.new) }
    {
        let (half, dev) = lend(&self.heap, &mut caller.heap, sga);
        match self.submit_memory(caller, MemOp::Push { q, sga: dev }) {
            Ok(token) => Ok((token, half)),
            Err(op) => {
                let MemOp::Push { q: _, sga: dev } = op else {
                    unreachable!()
                };
                let back = rejoin(&self.heap, &mut caller.heap, half, dev);
                Err(PushRefused::TokensFull(back))
            }
        }
    }

    fn push_journal(&self, caller: &mut Caller<X>, sga: AppSga) -> Result<Pushed, PushRefused>
        requires of { IsOf self.now caller.old }
        requires there { 0 < length self.now.journal }
        requires array { AreOf self.now.heap sga }
        ensures of { IsOf self.now caller.new }
        ensures good { push_refusal_of result ≡ None }
        ensures ok { IfOk result (λ r. (r.0.port ≡ 2) × (r.1 ≡ record { segments = sga; back = 0 }) × Submits Journal (to_log (PushLog sga)) (having_lent caller.old (length sga)) caller.new r.0.token.0) }
        ensures full { IfNoToken result (λ a. (a ≡ sga) × FindsNone Journal (having_rejoined caller.old (length sga)) caller.new) }
    {
        let (half, dev) = lend(&self.heap, &mut caller.heap, sga);
        match self.submit_journal(caller, LogOp::Push { sga: dev }) {
            Ok(token) => Ok((token, half)),
            Err(op) => {
                let LogOp::Push { sga: dev } = op else {
                    unreachable!()
                };
                let back = rejoin(&self.heap, &mut caller.heap, half, dev);
                Err(PushRefused::TokensFull(back))
            }
        }
    }

    fn push_tx(
        &self,
        caller: &mut Caller<X>,
        port: u16,
        k: u32,
        sga: AppSga,
    ) -> Result<Pushed, PushRefused>
        requires of { IsOf self.now caller.old }
        requires there { k < length self.now.tx }
        requires array { AreOf self.now.heap sga }
        ensures of { IsOf self.now caller.new }
        ensures good { push_refusal_of result ≡ None }
        ensures ok { IfOk result (λ r. (r.0.port ≡ port) × (r.1 ≡ record { segments = sga; back = 0 }) × Submits (Sending k) (to_sender (PushTx sga)) (having_lent caller.old (length sga)) caller.new r.0.token.0) }
        ensures full { IfNoToken result (λ a. (a ≡ sga) × FindsNone (Sending k) (having_rejoined caller.old (length sga)) caller.new) }
    {
        let (half, dev) = lend(&self.heap, &mut caller.heap, sga);
        match self.submit_tx(caller, port, k, TxOp::Push { sga: dev }) {
            Ok(token) => Ok((token, half)),
            Err(op) => {
                let TxOp::Push { sga: dev } = op else {
                    unreachable!()
                };
                let back = rejoin(&self.heap, &mut caller.heap, half, dev);
                Err(PushRefused::TokensFull(back))
            }
        }
    }

    /// Lends the array and pushes it to a memory queue, the log's queue or a link. The lent half comes with the token; the device
    /// half ends before the outcome comes, but for an array that waits in a memory queue, which comes out of it with a pop.
    /// A refused array comes back with its bytes: `BadQd` exactly where the descriptor names nothing that takes a push, and then
    /// nothing changed; `TokensFull` only where no token was found, and then it was lent and taken back.
    pub fn push(&self, caller: &mut Caller<X>, qd: Qd, sga: AppSga) -> Result<Pushed, PushRefused>
        requires of { IsOf self.now caller.old }
        requires array { AreOf self.now.heap sga }
        ensures of { IsOf self.now caller.new }
        ensures exact { push_refusal_of result ≡ refused_as (push_asks (kind_of self.now qd.port) qd.queue sga) }
        ensures ok { IfOk result (λ r. (r.0.port ≡ qd.port) × (r.1 ≡ record { segments = sga; back = 0 }) × Submits (kind_of self.now qd.port) (push_asks (kind_of self.now qd.port) qd.queue sga) (having_lent caller.old (length sga)) caller.new r.0.token.0) }
        ensures bad { IfNoQueue result (λ a. (a ≡ sga) × (caller.new ≡ caller.old)) }
        ensures full { IfNoToken result (λ a. (a ≡ sga) × FindsNone (kind_of self.now qd.port) (having_rejoined caller.old (length sga)) caller.new) }
    {
        match self.kind(qd.port) {
            PortKind::Memory => self.push_memory(caller, qd.queue, sga),
            PortKind::Journal => {
                if qd.queue == 0 {
                    self.push_journal(caller, sga)
                } else {
                    Err(PushRefused::BadQd(sga))
                }
            }
            PortKind::Sending(k) => {
                if qd.queue == 0 {
                    self.push_tx(caller, qd.port, k, sga)
                } else {
                    Err(PushRefused::BadQd(sga))
                }
            }
            PortKind::Service | PortKind::Receiving(_) | PortKind::Nowhere => {
                Err(PushRefused::BadQd(sga))
            }
        }
    }
}
