// How the first worker's caller asks for the queue of the links' numbers, and the others learn of it.
ghost use Rattle.std.specs.Prelude.{ℕ, ◌≡◌, ◌≤◌, None, Some, length};
ghost use Rattle.demi_pdpix.specs.Notes.{all_learnt};
ghost use Rattle.demi_pdpix.specs.Seen.{AreNewCallers, IsOf};
ghost use Rattle.demi_port_core.specs.declared.place.QToken.{QToken};
ghost use Rattle.demi_sharing.specs.Setting.{AreSetOut, IsSetOut};

use demi_pdpix::{Caller, Demi};
use demi_port_core::QToken;
use demi_store::StoreLaw;
use std::sync::Wait;

/// Asks for a queue, with park between the tries until it is taken, by a caller that did nothing before. It is not promised
/// that it is ever taken.
pub fn ask_for_queue<R: Wait>(
    rt: &R,
    demi: &Demi<StoreLaw>,
    caller: &mut Caller<StoreLaw>,
) -> QToken
    requires { IsOf demi.now caller.old }
    ensures of { IsOf demi.now caller.new }
    ensures asked { (n : ℕ) → IsSetOut demi.now n None caller.old → IsSetOut demi.now n (Some result) caller.new }
{
    for _ in rt.forever() {
        match demi.queue(caller) {
            Ok(token) => return token,
            Err(_) => demi.park(rt, caller),
        }
    }
    unreachable!()
}

/// Another worker's caller learns from the first's what that has seen: what it then submits stands behind the asking for the
/// queue. Both are set out as before.
pub fn learn_of_queue(
    demi: &Demi<StoreLaw>,
    caller: &mut Caller<StoreLaw>,
    first: &mut Caller<StoreLaw>,
)
    requires caller { IsOf demi.now caller.old }
    requires first { IsOf demi.now first.old }
    ensures of { IsOf demi.now caller.new × IsOf demi.now first.new }
    ensures learns { caller.new ≡ all_learnt caller.old first.old }
    ensures caller { (n : ℕ) → IsSetOut demi.now n None caller.old → IsSetOut demi.now n None caller.new }
    ensures first { (n : ℕ) (t : QToken) → IsSetOut demi.now n (Some t) first.old → IsSetOut demi.now n (Some t) first.new }
{
    demi.learn(caller, first);
}

// The others learn of the first's asking.
fn all_learn(
    demi: &Demi<StoreLaw>,
    first: &mut Caller<StoreLaw>,
    others: &mut [Caller<StoreLaw>],
    token: QToken,
)
    requires first { IsSetOut demi.now 0 (Some token) first.old }
    requires others { AreSetOut demi.now 1 None others.old }
    ensures first { IsSetOut demi.now 0 (Some token) first.new }
    ensures others { AreSetOut demi.now 1 None others.new }
    ensures as_many { length others.new ≡ length others.old }
{
    for i in 0..others.len() {
        learn_of_queue(demi, &mut others[i], first);
    }
}

/// Asks for the queue of the links' numbers by the first of these new callers, of whom there is one at least, and lets each
/// other learn of that: so what another then submits stands behind the asking. The first is set out with the token that is
/// given, and the others are set out without one, as `take_up` wants them. It parks between the tries until the asking is
/// taken; it is not promised that it ever is.
pub fn open_queue<R: Wait>(
    rt: &R,
    demi: &Demi<StoreLaw>,
    callers: &mut [Caller<StoreLaw>],
) -> QToken
    requires callers { AreNewCallers demi.now 0 callers.old }
    requires there { 1 ≤ length callers.old }
    ensures set_out { AreSetOut demi.now 0 (Some result) callers.new }
    ensures as_many { length callers.new ≡ length callers.old }
{
    let (front, others) = callers.split_at_mut(1);
    let first = &mut front[0];
    let token = ask_for_queue(rt, demi, first);
    all_learn(demi, first, others, token);
    token
}
