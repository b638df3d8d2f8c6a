//! What callers submit and redeem.
ghost use Rattle.std.specs.Prelude.{◌≡◌, ◌<◌, ◌≤◌, ℕ, List, [], ◌∷◌, None, length};
ghost use Rattle.demi_port_core.specs.declared.place.QToken.{QToken as QTokens};
ghost use Rattle.demi_pdpix.specs.Owing.{Owes, without_at};
ghost use Rattle.demi_pdpix.specs.Seen.{IsOf};
ghost use Rattle.demi_pdpix.specs.Tries.{HoldsOf};

use super::doubler::UntilZero;
use crate::{AllEnd, Answer, Any, Caller, Demi, Halted, QResult, Qd};
use demi_port_core::{Place, QToken};
use std::alloc::Global;
use std::process::Abort;
use std::sync::Wait;

/// The outcomes of some operations, with their places.
pub(super) type Came = Vec<(Place, QResult<UntilZero>)>;

/// Asks the service for twice a number.
pub(super) fn asked(
    rt: &impl Abort,
    demi: &Demi<UntilZero>,
    caller: &mut Caller<UntilZero>,
    n: u32,
) -> QToken
    requires { IsOf demi.now caller.old }
    ensures of { IsOf demi.now caller.new }
    ensures owes { (who : ℕ) (rest : List QTokens) → Owes demi.now who rest caller.old → Owes demi.now who (result ∷ rest) caller.new }
{
    let Ok((token, _)) = demi.ask(caller, n) else {
        panic!(rt; "no token is free");
    };
    token
}

/// Asks for a queue.
pub(super) fn opened(
    rt: &impl Abort,
    demi: &Demi<UntilZero>,
    caller: &mut Caller<UntilZero>,
) -> QToken
    requires { IsOf demi.now caller.old }
    ensures of { IsOf demi.now caller.new }
    ensures owes { (who : ℕ) (rest : List QTokens) → Owes demi.now who rest caller.old → Owes demi.now who (result ∷ rest) caller.new }
{
    let Ok(token) = demi.queue(caller) else {
        panic!(rt; "no token is free");
    };
    token
}

/// Pops from a queue.
pub(super) fn popped(
    rt: &impl Abort,
    demi: &Demi<UntilZero>,
    caller: &mut Caller<UntilZero>,
    qd: Qd,
) -> QToken
    requires { IsOf demi.now caller.old }
    ensures of { IsOf demi.now caller.new }
    ensures owes { (who : ℕ) (rest : List QTokens) → Owes demi.now who rest caller.old → Owes demi.now who (result ∷ rest) caller.new }
{
    let Ok(token) = demi.pop(caller, qd, 4096) else {
        panic!(rt; "nothing is popped");
    };
    token
}

/// Stops a port.
pub(super) fn stopped(
    rt: &impl Abort,
    demi: &Demi<UntilZero>,
    caller: &mut Caller<UntilZero>,
    port: u16,
) -> QToken
    requires { IsOf demi.now caller.old }
    ensures of { IsOf demi.now caller.new }
    ensures owes { (who : ℕ) (rest : List QTokens) → Owes demi.now who rest caller.old → Owes demi.now who (result ∷ rest) caller.new }
{
    let Ok(token) = demi.stop(caller, port) else {
        panic!(rt; "nothing is stopped");
    };
    token
}

/// Waits for one.
pub(super) fn came<R: Wait + Abort>(
    rt: &R,
    demi: &Demi<UntilZero>,
    caller: &mut Caller<UntilZero>,
    token: QToken,
) -> QResult<UntilZero>
    requires { IsOf demi.now caller.old }
    ensures of { IsOf demi.now caller.new }
    ensures owes { (who : ℕ) (rest : List QTokens) → Owes demi.now who (token ∷ rest) caller.old → Owes demi.now who rest caller.new }
    ensures holds { HoldsOf demi.now.heap result }
{
    match demi.wait(rt, caller, token) {
        Answer::Ready(_, came) => came,
        _ => panic!(rt; "it was not there to be redeemed"),
    }
}

/// Waits for one of several.
pub(super) fn one_came<R: Wait + Abort>(
    rt: &R,
    demi: &Demi<UntilZero>,
    caller: &mut Caller<UntilZero>,
    tokens: &[QToken],
) -> (usize, QResult<UntilZero>)
    requires { IsOf demi.now caller.old }
    ensures of { IsOf demi.now caller.new }
    ensures owes { (who : ℕ) → Owes demi.now who tokens.now caller.old → Owes demi.now who (without_at result.0 tokens.now) caller.new }
{
    match demi.wait_any(rt, caller, tokens) {
        Any::Ready(i, _, came) => (i, came),
        _ => panic!(rt; "none was there to be redeemed"),
    }
}

// Nothing ended a wait for all before its time.
fn not_halted(rt: &impl Abort, halted: Option<Halted>)
    ensures { halted ≡ None }
{
    match halted {
        None => {}
        Some(_) => panic!(rt; "one was not there to be redeemed"),
    }
}

/// Waits for all of several.
pub(super) fn all_came<R: Wait + Abort>(
    rt: &R,
    alloc: Global,
    demi: &Demi<UntilZero>,
    caller: &mut Caller<UntilZero>,
    tokens: &[QToken],
) -> Came
    requires { IsOf demi.now caller.old }
    ensures of { IsOf demi.now caller.new }
    ensures owes { (who : ℕ) → Owes demi.now who tokens.now caller.old → Owes demi.now who [] caller.new }
{
    let Ok(AllEnd { results, halted }) = demi.wait_all(rt, alloc, caller, tokens) else {
        panic!(rt; "no memory");
    };
    not_halted(rt, halted);
    results
}
