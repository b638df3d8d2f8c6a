//! The call that stops a port.
ghost use Rattle.std.specs.Prelude.{◌≡◌, ◌<◌, IfOk, None, length};
ghost use Rattle.demi_memq.specs.declared.op.MemOp.TheVariants.{Stop as StopMem};
ghost use Rattle.demi_logq.specs.declared.op.LogOp.TheVariants.{Stop as StopLog};
ghost use Rattle.demi_streamq.specs.declared.rx_op.RxOp.TheVariants.{Stop as StopRx};
ghost use Rattle.demi_streamq.specs.declared.tx_op.TxOp.TheVariants.{Stop as StopTx};
ghost use Rattle.demi_pdpix.specs.Asks.{IfBad, IfFull, refusal_of, refused_as, stop_asks, to_log, to_memory, to_receiver, to_sender};
ghost use Rattle.demi_pdpix.specs.Calls.{FindsNone, Submits};
ghost use Rattle.demi_pdpix.specs.Kinds.{kind_of};
ghost use Rattle.demi_pdpix.specs.Seen.{IsOf};
ghost use Rattle.demi_pdpix.specs.declared.kind.PortKind.TheVariants.{Memory, Journal, Receiving, Sending};

use crate::caller::Caller;
use crate::demi::Demi;
use crate::kind::PortKind;
use crate::refusals::PopRefused;
use demi_logq::LogOp;
use demi_memq::MemOp;
use demi_port_core::{Law, QToken};
use demi_streamq::{RxOp, TxOp};

impl<X: Law> Demi<X> {
    fn stop_memory(&self, caller: &mut Caller<X>) -> Result<QToken, PopRefused>
        requires of { IsOf self.now caller.old }
        ensures of { IsOf self.now caller.new }
        ensures good { refusal_of result ≡ None }
        ensures ok { IfOk result (λ t. (t.port ≡ 0) × Submits Memory (to_memory StopMem) caller.old caller.new t.token.0) }
        ensures full { IfFull result (FindsNone Memory caller.old caller.new) }
    {
        match self.submit_memory(caller, MemOp::Stop) {
            Ok(token) => Ok(token),
            Err(op) => {
                let MemOp::Stop = op else { unreachable!() };
                Err(PopRefused::TokensFull)
            }
        }
    }

    fn stop_journal(&self, caller: &mut Caller<X>) -> Result<QToken, PopRefused>
        requires of { IsOf self.now caller.old }
        requires there { 0 < length self.now.journal }
        ensures of { IsOf self.now caller.new }
        ensures good { refusal_of result ≡ None }
        ensures ok { IfOk result (λ t. (t.port ≡ 2) × Submits Journal (to_log StopLog) caller.old caller.new t.token.0) }
        ensures full { IfFull result (FindsNone Journal caller.old caller.new) }
    {
        match self.submit_journal(caller, LogOp::Stop) {
            Ok(token) => Ok(token),
            Err(op) => {
                let LogOp::Stop = op else { unreachable!() };
                Err(PopRefused::TokensFull)
            }
        }
    }

    fn stop_rx(&self, caller: &mut Caller<X>, port: u16, k: u32) -> Result<QToken, PopRefused>
        requires of { IsOf self.now caller.old }
        requires there { k < length self.now.rx }
        ensures of { IsOf self.now caller.new }
        ensures good { refusal_of result ≡ None }
        ensures ok { IfOk result (λ t. (t.port ≡ port) × Submits (Receiving k) (to_receiver StopRx) caller.old caller.new t.token.0) }
        ensures full { IfFull result (FindsNone (Receiving k) caller.old caller.new) }
    {
        match self.submit_rx(caller, port, k, RxOp::Stop) {
            Ok(token) => Ok(token),
            Err(_) => Err(PopRefused::TokensFull),
        }
    }

    fn stop_tx(&self, caller: &mut Caller<X>, port: u16, k: u32) -> Result<QToken, PopRefused>
        requires of { IsOf self.now caller.old }
        requires there { k < length self.now.tx }
        ensures of { IsOf self.now caller.new }
        ensures good { refusal_of result ≡ None }
        ensures ok { IfOk result (λ t. (t.port ≡ port) × Submits (Sending k) (to_sender StopTx) caller.old caller.new t.token.0) }
        ensures full { IfFull result (FindsNone (Sending k) caller.old caller.new) }
    {
        match self.submit_tx(caller, port, k, TxOp::Stop) {
            Ok(token) => Ok(token),
            Err(op) => {
                let TxOp::Stop = op else { unreachable!() };
                Err(PopRefused::TokensFull)
            }
        }
    }

    /// Stops a port: each operation after the stop is refused, and the port's device ends. `BadQd` exactly where there is no such
    /// port, or it is the service, whose own stop goes by `ask`; then nothing changed. `TokensFull` only where no token was found.
    pub fn stop(&self, caller: &mut Caller<X>, port: u16) -> Result<QToken, PopRefused>
        requires { IsOf self.now caller.old }
        ensures of { IsOf self.now caller.new }
        ensures exact { refusal_of result ≡ refused_as (stop_asks (kind_of self.now port)) }
        ensures ok { IfOk result (λ t. (t.port ≡ port) × Submits (kind_of self.now port) (stop_asks (kind_of self.now port)) caller.old caller.new t.token.0) }
        ensures bad { IfBad result (caller.new ≡ caller.old) }
        ensures full { IfFull result (FindsNone (kind_of self.now port) caller.old caller.new) }
    {
        match self.kind(port) {
            PortKind::Memory => self.stop_memory(caller),
            PortKind::Journal => self.stop_journal(caller),
            PortKind::Receiving(k) => self.stop_rx(caller, port, k),
            PortKind::Sending(k) => self.stop_tx(caller, port, k),
            PortKind::Service | PortKind::Nowhere => Err(PopRefused::BadQd),
        }
    }
}
