//! The call that waits for a token.
ghost use Rattle.std.specs.Prelude.{◌≡◌};
ghost use Rattle.demi_pdpix.specs.Seen.{IsOf};
ghost use Rattle.demi_pdpix.specs.Tries.{Waited};

use crate::caller::Caller;
use crate::demi::Demi;
use crate::outcomes::Answer;
use demi_port_core::{Law, QToken};
use std::sync::Wait;

impl<X: Law> Demi<X> {
    /// Waits a little after a try or a scan of this caller that found nothing: it spins, lets other threads run, gets ready to sleep,
    /// or sleeps until something is finished at any port of this `Demi`. The caller then looks again before it parks again; so
    /// nothing that is finished is slept over. Nothing changes by it, and when it returns is not promised.
    pub fn park<R: Wait>(&self, rt: &R, caller: &mut Caller<X>)
        ensures { caller.new ≡ caller.old }
    {
        caller.patience.idle(rt, &self.bells);
    }

    /// After a look that found something: the caller parks from the beginning again. Nothing else changes by it.
    pub fn busy(&self, caller: &mut Caller<X>)
        ensures { caller.new ≡ caller.old }
    {
        caller.patience.busy(&self.bells);
    }

    /// Tries until the token's operation is not still to come. Between two tries it looks again at once, then lets other threads
    /// run, and then sleeps until something is finished at any port. It may wait, and never answers `NotYet`.
    pub fn wait<R: Wait>(&self, rt: &R, caller: &mut Caller<X>, token: QToken) -> Answer<X>
        requires { IsOf self.now caller.old }
        ensures of { IsOf self.now caller.new }
        ensures waited { Waited X.admits self.now token caller.old caller.new result }
    {
        for _ in rt.forever() {
            match self.try_wait(caller, token) {
                Answer::NotYet => self.park(rt, caller),
                other => {
                    self.busy(caller);
                    return other;
                }
            }
        }
        unreachable!()
    }
}
