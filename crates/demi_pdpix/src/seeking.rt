//! The calls of the log's queue alone.
ghost use Rattle.std.specs.Prelude.{◌≡◌, IfOk};
ghost use Rattle.demi_logq.specs.declared.op.LogOp.TheVariants.{Seek, Truncate};
ghost use Rattle.demi_pdpix.specs.Asks.{IfBad, IfFull, log_asks, refusal_of, refused_as};
ghost use Rattle.demi_pdpix.specs.Calls.{FindsNone, Submits};
ghost use Rattle.demi_pdpix.specs.Kinds.{kind_of};
ghost use Rattle.demi_pdpix.specs.Seen.{IsOf};

use crate::caller::Caller;
use crate::demi::Demi;
use crate::kind::PortKind;
use crate::refusals::PopRefused;
use demi_logq::LogOp;
use demi_port_core::{Law, QToken};

impl<X: Law> Demi<X> {
    /// Moves the log's cursor to the entry of this number, or behind the last one. `BadQd` exactly where the plan has no log, and
    /// then nothing changed; `TokensFull` only where no token was found.
    pub fn seek(&self, caller: &mut Caller<X>, index: u64) -> Result<QToken, PopRefused>
        requires { IsOf self.now caller.old }
        ensures of { IsOf self.now caller.new }
        ensures exact { refusal_of result ≡ refused_as (log_asks (kind_of self.now 2) (Seek index)) }
        ensures ok { IfOk result (λ t. (t.port ≡ 2) × Submits (kind_of self.now 2) (log_asks (kind_of self.now 2) (Seek index)) caller.old caller.new t.token.0) }
        ensures bad { IfBad result (caller.new ≡ caller.old) }
        ensures full { IfFull result (FindsNone (kind_of self.now 2) caller.old caller.new) }
    {
        match self.kind(2) {
            PortKind::Journal => match self.submit_journal(caller, LogOp::Seek { index }) {
                Ok(token) => Ok(token),
                Err(op) => {
                    let LogOp::Seek { index: _ } = op else {
                        unreachable!()
                    };
                    Err(PopRefused::TokensFull)
                }
            },
            PortKind::Memory
            | PortKind::Service
            | PortKind::Receiving(_)
            | PortKind::Sending(_)
            | PortKind::Nowhere => Err(PopRefused::BadQd),
        }
    }

    /// Keeps the first entries of the log alone. `BadQd` exactly where the plan has no log, and then nothing changed; `TokensFull`
    /// only where no token was found.
    pub fn truncate(&self, caller: &mut Caller<X>, keep: u64) -> Result<QToken, PopRefused>
        requires { IsOf self.now caller.old }
        ensures of { IsOf self.now caller.new }
        ensures exact { refusal_of result ≡ refused_as (log_asks (kind_of self.now 2) (Truncate keep)) }
        ensures ok { IfOk result (λ t. (t.port ≡ 2) × Submits (kind_of self.now 2) (log_asks (kind_of self.now 2) (Truncate keep)) caller.old caller.new t.token.0) }
        ensures bad { IfBad result (caller.new ≡ caller.old) }
        ensures full { IfFull result (FindsNone (kind_of self.now 2) caller.old caller.new) }
    {
        match self.kind(2) {
            PortKind::Journal => match self.submit_journal(caller, LogOp::Truncate { keep }) {
                Ok(token) => Ok(token),
                Err(op) => {
                    let LogOp::Truncate { keep: _ } = op else {
                        unreachable!()
                    };
                    Err(PopRefused::TokensFull)
                }
            },
            PortKind::Memory
            | PortKind::Service
            | PortKind::Receiving(_)
            | PortKind::Sending(_)
            | PortKind::Nowhere => Err(PopRefused::BadQd),
        }
    }
}
