// How a caller waits for what an operation of the memory queues came to.
ghost use Rattle.std.specs.Prelude.{◌≡◌};
ghost use Rattle.demi_memq.specs.Said.{IsFrom};
ghost use Rattle.demi_pdpix.specs.Seen.{IsOf};
ghost use Rattle.demi_pdpix.specs.declared.outcomes.QResult.TheVariants.{Mem};
ghost use Rattle.demi_sharing.specs.Acting.{Came};

use demi_context::hold;
use demi_memq::MemOut;
use demi_pdpix::{Answer, Caller, Demi, QResult};
use demi_port_core::QToken;
use demi_store::StoreLaw;
use std::sync::Wait;

// The outcome is one of the memory queues; with another it parks without end.
fn only_memory<R: Wait>(
    rt: &R,
    demi: &Demi<StoreLaw>,
    caller: &mut Caller<StoreLaw>,
    came: QResult<StoreLaw>,
) -> MemOut
    ensures is { came ≡ Mem result }
    ensures same { caller.new ≡ caller.old }
{
    match came {
        QResult::Mem(out) => out,
        other => {
            let _never = hold(rt, demi, caller, other);
            unreachable!()
        }
    }
}

// Waits for what the operation of this token came to. Where the token is none of the caller's, or was redeemed before, it
// parks without end.
pub(crate) fn redeem<R: Wait>(
    rt: &R,
    demi: &Demi<StoreLaw>,
    caller: &mut Caller<StoreLaw>,
    token: QToken,
) -> MemOut
    requires of { IsOf demi.now caller.old }
    requires port { token.port ≡ 0 }
    ensures of { IsOf demi.now caller.new }
    ensures came { Came token.token.0 result caller.old caller.new }
    ensures array { IsFrom demi.now.heap result }
{
    match demi.wait(rt, caller, token) {
        Answer::Ready(_, came) => only_memory(rt, demi, caller, came),
        Answer::NotYet | Answer::Spent | Answer::Unknown => {
            let _never = hold(rt, demi, caller, ());
            unreachable!()
        }
    }
}
