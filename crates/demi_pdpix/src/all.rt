//! The call that waits for all of several tokens.
ghost use Rattle.std.specs.Prelude.{◌≡◌, IfErr, IfOk};
ghost use Rattle.demi_pdpix.specs.Seen.{IsOf};
ghost use Rattle.demi_pdpix.specs.Together.{WaitedAll};

use crate::caller::Caller;
use crate::demi::Demi;
use crate::outcomes::{Answer, QResult};
use demi_core::NoMemory;
use demi_port_core::{Law, Place, QToken};
use std::alloc::Global;
use std::sync::Wait;

/// What ended a wait for all before its time.
#[derive(Clone, Copy, Debug, PartialEq, Eq, Drop)]
pub enum Halted {
    /// The list was empty.
    NoTokens,
    /// The token of this index was redeemed before.
    Spent(usize),
    /// Of the token of this index there is no such port, or its port has given no such token.
    Unknown(usize),
}

/// What a wait for all gave: the places and outcomes of the tokens in order, up to the one that ended it.
pub struct AllEnd<X: Law> {
    pub results: Vec<(Place, QResult<X>)>,
    pub halted: Option<Halted>,
}

impl<X: Law> Demi<X> {
    /// Waits for each token in order, as `wait` does, and ends at the first that is spent or unknown, with the results so far. It
    /// takes its memory first: where that is refused, nothing is redeemed. It may wait.
    pub fn wait_all<R: Wait>(
        &self,
        rt: &R,
        alloc: Global,
        caller: &mut Caller<X>,
        tokens: &[QToken],
    ) -> Result<AllEnd<X>, NoMemory>
        requires { IsOf self.now caller.old }
        ensures of { IsOf self.now caller.new }
        ensures waited { IfOk result (λ a. WaitedAll X.admits self.now tokens.now caller.old caller.new a.results.items a.halted) }
        ensures none { IfErr result (λ _. caller.new ≡ caller.old) }
    {
        let mut results = Vec::with_capacity(alloc, tokens.len())?;
        if tokens.len() == 0 {
            let halted = Some(Halted::NoTokens);
            return Ok(AllEnd { results, halted });
        }
        for i in 0..tokens.len() {
            match self.wait(rt, caller, tokens[i]) {
                Answer::Ready(place, came) => results.push_reserved((place, came)),
                Answer::NotYet => unreachable!(),
                Answer::Spent => {
                    let halted = Some(Halted::Spent(i));
                    return Ok(AllEnd { results, halted });
                }
                Answer::Unknown => {
                    let halted = Some(Halted::Unknown(i));
                    return Ok(AllEnd { results, halted });
                }
            }
        }
        Ok(AllEnd {
            results,
            halted: None,
        })
    }
}
