//! What a worker does where a link of it was lost.
ghost use Rattle.std.specs.Prelude.{◌≡◌, false};
ghost use Rattle.demi_port_core.specs.History.{Each};
ghost use Rattle.demi_link.specs.Ends.{IsKnown};
ghost use Rattle.demi_worker.specs.declared.ended.Ended.{Ended as End};

use demi_context::hold;
use demi_link::Cause;
use demi_pdpix::{Caller, Demi};
use demi_store::StoreLaw;
use demi_worker::Ended;
use std::sync::Wait;

// Whether a link was lost that ended for this.
fn is_lost(cause: Cause) -> bool
    ensures { result ≡ false → IsKnown cause }
{
    match cause {
        Cause::Lost => true,
        Cause::Clean
        | Cause::Bye
        | Cause::Refused(_)
        | Cause::ReadFault
        | Cause::WriteFault
        | Cause::LogFault
        | Cause::NoMemory => false,
    }
}

// Whether one of these links was lost.
fn any_lost(ended: &[Ended]) -> bool
    ensures { result ≡ false → Each (λ (e : End). IsKnown e.cause) ended.now }
{
    for end in ended {
        if is_lost(end.cause) {
            return true;
        }
    }
    false
}

// Waits without end where one of these links was lost.
pub(crate) fn hold_if_lost<R: Wait>(
    rt: &R,
    demi: &Demi<StoreLaw>,
    caller: &mut Caller<StoreLaw>,
    ended: &[Ended],
)
    ensures caller { caller.new ≡ caller.old }
    ensures known { Each (λ (e : End). IsKnown e.cause) ended.now }
{
    if any_lost(ended) {
        let _never = hold(rt, demi, caller, ());
    }
}
