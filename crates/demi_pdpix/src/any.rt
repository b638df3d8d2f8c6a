//! The calls that try several tokens.
ghost use Rattle.std.specs.Prelude.{◌≡◌};
ghost use Rattle.demi_pdpix.specs.Several.{TriedAny, WaitedAny, any_of};
ghost use Rattle.demi_pdpix.specs.Seen.{IsOf};

use crate::caller::Caller;
use crate::demi::Demi;
use crate::outcomes::{Answer, Any};
use demi_port_core::{Law, QToken};
use std::sync::Wait;

// The answer of the token with this index.
fn at_index<X: Law>(i: usize, answer: Answer<X>) -> Any<X>
    ensures { result ≡ any_of i answer }
{
    match answer {
        Answer::Ready(place, came) => Any::Ready(i, place, came),
        Answer::NotYet => Any::NotYet,
        Answer::Spent => Any::Spent(i),
        Answer::Unknown => Any::Unknown(i),
    }
}

impl<X: Law> Demi<X> {
    /// Tries the tokens from the first on, and stops at the first whose operation is not still to come. `NoTokens` exactly for an
    /// empty list, and `NotYet` only where each was found busy in its round at a step of its own.
    pub fn try_wait_any(&self, caller: &mut Caller<X>, tokens: &[QToken]) -> Any<X>
        requires { IsOf self.now caller.old }
        ensures of { IsOf self.now caller.new }
        ensures tried { TriedAny X.admits self.now tokens.now caller.old caller.new result }
    {
        if tokens.len() == 0 {
            return Any::NoTokens;
        }
        for i in 0..tokens.len() {
            match self.try_wait(caller, tokens[i]) {
                Answer::NotYet => {}
                answer => return at_index(i, answer),
            }
        }
        Any::NotYet
    }

    /// As `try_wait_any`, over and over until an operation is not still to come. Between two rounds it waits as `wait` does. It may
    /// wait, and never answers `NotYet`.
    pub fn wait_any<R: Wait>(&self, rt: &R, caller: &mut Caller<X>, tokens: &[QToken]) -> Any<X>
        requires { IsOf self.now caller.old }
        ensures of { IsOf self.now caller.new }
        ensures waited { WaitedAny X.admits self.now tokens.now caller.old caller.new result }
    {
        for _ in rt.forever() {
            match self.try_wait_any(caller, tokens) {
                Any::NotYet => self.park(rt, caller),
                answer => {
                    self.busy(caller);
                    return answer;
                }
            }
        }
        unreachable!()
    }
}
