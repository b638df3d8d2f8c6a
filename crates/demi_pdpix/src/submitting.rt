//! How operations come to the ports of each kind.
ghost use Rattle.std.specs.Prelude.{◌≡◌, ◌<◌, IfErr, IfOk, length};
ghost use Rattle.demi_memq.specs.Said.{op_said, IsProper as IsMemProper};
ghost use Rattle.demi_logq.specs.Answers.{LogBasis, IsProper as IsLogProper};
ghost use Rattle.demi_streamq.specs.Receiving.{IsFit};
ghost use Rattle.demi_streamq.specs.Sending.{IsProper as IsTxProper};
ghost use Rattle.demi_pdpix.specs.Asks.{to_log, to_memory, to_receiver, to_sender};
ghost use Rattle.demi_pdpix.specs.Calls.{FindsNone, Submits};
ghost use Rattle.demi_pdpix.specs.Seen.{IsOf};
ghost use Rattle.demi_pdpix.specs.declared.kind.PortKind.TheVariants.{Memory, Journal, Receiving, Sending};

use crate::at::{submit_at, submit_to};
use crate::caller::Caller;
use crate::demi::Demi;
use demi_logq::LogOp;
use demi_memq::MemOp;
use demi_port_core::{Law, QToken, Token};
use demi_streamq::{RxOp, TxOp};

// The token with the number of its port.
pub(crate) fn at_port(port: u16, token: Token) -> QToken
    ensures { (result.port ≡ port) × (result.token ≡ token) }
{
    QToken { port, token }
}

impl<X: Law> Demi<X> {
    // Submits to the memory queues.
    pub(crate) fn submit_memory(&self, caller: &mut Caller<X>, op: MemOp) -> Result<QToken, MemOp>
        requires of { IsOf self.now caller.old }
        requires proper { IsMemProper self.now.heap op }
        ensures of { IsOf self.now caller.new }
        ensures ok { IfOk result (λ t. (t.port ≡ 0) × Submits Memory (to_memory (op_said op)) caller.old caller.new t.token.0) }
        ensures full { IfErr result (λ o. (o ≡ op) × FindsNone Memory caller.old caller.new) }
    {
        match submit_to(&self.ports.memory.port, &mut caller.memory, op) {
            Ok((token, _)) => Ok(at_port(0, token)),
            Err(op) => Err(op),
        }
    }

    // Submits to the log's queue.
    pub(crate) fn submit_journal(&self, caller: &mut Caller<X>, op: LogOp) -> Result<QToken, LogOp>
        requires of { IsOf self.now caller.old }
        requires there { 0 < length self.now.journal }
        requires proper { (b : LogBasis) → b.heap ≡ self.now.heap → IsLogProper b op }
        ensures of { IsOf self.now caller.new }
        ensures ok { IfOk result (λ t. (t.port ≡ 2) × Submits Journal (to_log op) caller.old caller.new t.token.0) }
        ensures full { IfErr result (λ o. (o ≡ op) × FindsNone Journal caller.old caller.new) }
    {
        match submit_at(&self.ports.journal, &mut caller.journal, 0, op) {
            Ok(token) => Ok(at_port(2, token)),
            Err(op) => Err(op),
        }
    }

    // Submits to the port that receives from link k.
    pub(crate) fn submit_rx(
        &self,
        caller: &mut Caller<X>,
        port: u16,
        k: u32,
        op: RxOp,
    ) -> Result<QToken, RxOp>
        requires of { IsOf self.now caller.old }
        requires there { k < length self.now.rx }
        requires proper { IsFit op }
        ensures of { IsOf self.now caller.new }
        ensures ok { IfOk result (λ t. (t.port ≡ port) × Submits (Receiving k) (to_receiver op) caller.old caller.new t.token.0) }
        ensures full { IfErr result (λ o. (o ≡ op) × FindsNone (Receiving k) caller.old caller.new) }
    {
        match submit_at(&self.ports.rx, &mut caller.rx, k as usize, op) {
            Ok(token) => Ok(at_port(port, token)),
            Err(op) => Err(op),
        }
    }

    // Submits to the port that sends to link k.
    pub(crate) fn submit_tx(
        &self,
        caller: &mut Caller<X>,
        port: u16,
        k: u32,
        op: TxOp,
    ) -> Result<QToken, TxOp>
        requires of { IsOf self.now caller.old }
        requires there { k < length self.now.tx }
        requires proper { IsTxProper self.now.heap op }
        ensures of { IsOf self.now caller.new }
        ensures ok { IfOk result (λ t. (t.port ≡ port) × Submits (Sending k) (to_sender op) caller.old caller.new t.token.0) }
        ensures full { IfErr result (λ o. (o ≡ op) × FindsNone (Sending k) caller.old caller.new) }
    {
        match submit_at(&self.ports.tx, &mut caller.tx, k as usize, op) {
            Ok(token) => Ok(at_port(port, token)),
            Err(op) => Err(op),
        }
    }
}
