//! The call that redeems.
ghost use Rattle.std.specs.Prelude.{◌≡◌, ◌<◌, length};
ghost use Rattle.demi_pdpix.specs.Answers.{log_answer, mem_answer, rx_answer, service_answer, tx_answer};
ghost use Rattle.demi_pdpix.specs.Seen.{IsOf};
ghost use Rattle.demi_pdpix.specs.Tries.{Tried, TriedAt};
ghost use Rattle.demi_pdpix.specs.declared.kind.PortKind.TheVariants.{Memory, Service, Journal, Receiving, Sending};

use crate::at::{try_at, try_port};
use crate::caller::Caller;
use crate::demi::Demi;
use crate::kind::PortKind;
use crate::outcomes::{Answer, QResult};
use demi_logq::LogLaw;
use demi_memq::MemLaw;
use demi_port::Redeem;
use demi_port_core::{Law, QToken, Token};
use demi_streamq::{RxLaw, TxLaw};

fn of_memory<X: Law>(came: Redeem<MemLaw>) -> Answer<X>
    ensures { result ≡ mem_answer came }
{
    match came {
        Redeem::Ready(place, out) => Answer::Ready(place, QResult::Mem(out)),
        Redeem::NotYet => Answer::NotYet,
        Redeem::Spent => Answer::Spent,
        Redeem::Unknown => Answer::Unknown,
    }
}

fn of_service<X: Law>(came: Redeem<X>) -> Answer<X>
    ensures { result ≡ service_answer came }
{
    match came {
        Redeem::Ready(place, out) => Answer::Ready(place, QResult::Service(out)),
        Redeem::NotYet => Answer::NotYet,
        Redeem::Spent => Answer::Spent,
        Redeem::Unknown => Answer::Unknown,
    }
}

fn of_journal<X: Law>(came: Redeem<LogLaw>) -> Answer<X>
    ensures { result ≡ log_answer came }
{
    match came {
        Redeem::Ready(place, out) => Answer::Ready(place, QResult::Log(out)),
        Redeem::NotYet => Answer::NotYet,
        Redeem::Spent => Answer::Spent,
        Redeem::Unknown => Answer::Unknown,
    }
}

fn of_rx<X: Law>(came: Redeem<RxLaw>) -> Answer<X>
    ensures { result ≡ rx_answer came }
{
    match came {
        Redeem::Ready(place, out) => Answer::Ready(place, QResult::Rx(out)),
        Redeem::NotYet => Answer::NotYet,
        Redeem::Spent => Answer::Spent,
        Redeem::Unknown => Answer::Unknown,
    }
}

fn of_tx<X: Law>(came: Redeem<TxLaw>) -> Answer<X>
    ensures { result ≡ tx_answer came }
{
    match came {
        Redeem::Ready(place, out) => Answer::Ready(place, QResult::Tx(out)),
        Redeem::NotYet => Answer::NotYet,
        Redeem::Spent => Answer::Spent,
        Redeem::Unknown => Answer::Unknown,
    }
}

impl<X: Law> Demi<X> {
    fn try_memory(&self, caller: &mut Caller<X>, token: Token) -> Answer<X>
        requires { IsOf self.now caller.old }
        ensures of { IsOf self.now caller.new }
        ensures tried { TriedAt Memory X.admits self.now.heap token.0 caller.old caller.new result }
    {
        of_memory(try_port(&self.ports.memory.port, &mut caller.memory, token))
    }

    fn try_service(&self, caller: &mut Caller<X>, token: Token) -> Answer<X>
        requires { IsOf self.now caller.old }
        ensures of { IsOf self.now caller.new }
        ensures tried { TriedAt Service X.admits self.now.heap token.0 caller.old caller.new result }
    {
        of_service(try_port(&self.ports.service.port, &mut caller.service, token))
    }

    fn try_journal(&self, caller: &mut Caller<X>, token: Token) -> Answer<X>
        requires of { IsOf self.now caller.old }
        requires there { 0 < length self.now.journal }
        ensures of { IsOf self.now caller.new }
        ensures tried { TriedAt Journal X.admits self.now.heap token.0 caller.old caller.new result }
    {
        of_journal(try_at(&self.ports.journal, &mut caller.journal, 0, token))
    }

    fn try_rx(&self, caller: &mut Caller<X>, k: u32, token: Token) -> Answer<X>
        requires of { IsOf self.now caller.old }
        requires there { k < length self.now.rx }
        ensures of { IsOf self.now caller.new }
        ensures tried { TriedAt (Receiving k) X.admits self.now.heap token.0 caller.old caller.new result }
    {
        of_rx(try_at(&self.ports.rx, &mut caller.rx, k as usize, token))
    }

    fn try_tx(&self, caller: &mut Caller<X>, k: u32, token: Token) -> Answer<X>
        requires of { IsOf self.now caller.old }
        requires there { k < length self.now.tx }
        ensures of { IsOf self.now caller.new }
        ensures tried { TriedAt (Sending k) X.admits self.now.heap token.0 caller.old caller.new result }
    {
        of_tx(try_at(&self.ports.tx, &mut caller.tx, k as usize, token))
    }

    /// Redeems the token if its operation is finished, and gives the operation's place and outcome, by the kind of its port. Each
    /// other answer says what this call found. Only the pass of that port changes.
    pub fn try_wait(&self, caller: &mut Caller<X>, token: QToken) -> Answer<X>
        requires { IsOf self.now caller.old }
        ensures of { IsOf self.now caller.new }
        ensures tried { Tried X.admits self.now token caller.old caller.new result }
    {
        match self.kind(token.port) {
            PortKind::Memory => self.try_memory(caller, token.token),
            PortKind::Service => self.try_service(caller, token.token),
            PortKind::Journal => self.try_journal(caller, token.token),
            PortKind::Receiving(k) => self.try_rx(caller, k, token.token),
            PortKind::Sending(k) => self.try_tx(caller, k, token.token),
            PortKind::Nowhere => Answer::Unknown,
        }
    }
}
