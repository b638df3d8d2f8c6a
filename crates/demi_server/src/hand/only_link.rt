//! How a worker serves its only link.
ghost use Rattle.std.specs.Prelude.{◌≡◌, ◌<◌, [], ◌∷◌, false, length};
ghost use Rattle.demi_link.specs.Ends.{IsKnown};
ghost use Rattle.demi_worker.specs.declared.ended.Ended.{Ended as End};
ghost use Rattle.demi_server.specs.Hands.{ServedLink};
ghost use Rattle.demi_server.specs.Staging.{IsUnused, MayTakeIn, TookIn};

use arrayvec::ArrayVec;
use demi_context::Context;
use demi_link::Cause;
use demi_pdpix::{Caller, Demi};
use demi_store::StoreLaw;
use demi_worker::{Ended, Worker};
use std::alloc::Global;
use std::sync::Wait;

// The only link of the whole.
const LINK: u16 = 0;

// Whether a link was lost that ended for this.
fn is_lost(cause: Cause) -> bool
    ensures { result ≡ false → IsKnown cause }
{
    match cause {
        Cause::Lost => true,
        Cause::Clean
        | Cause::Bye
        | Cause::Refused(_)
        | Cause::ReadFault
        | Cause::WriteFault
        | Cause::LogFault
        | Cause::NoMemory => false,
    }
}

// Waits without end where the first link of the list was lost.
fn hold_if_lost<R: Wait>(
    rt: &R,
    demi: &Demi<StoreLaw>,
    caller: &mut Caller<StoreLaw>,
    ended: &[Ended],
)
    requires { 0 < length ended.now }
    ensures caller { caller.new ≡ caller.old }
    ensures known { (end : End) → ended.now ≡ end ∷ [] → IsKnown end.cause }
{
    let first = &ended[0];
    if is_lost(first.cause) {
        for _ in rt.forever() {
            demi.park(rt, caller);
        }
        unreachable!()
    }
}

// Takes the link in.
fn take_in_only<'h, R: Wait>(rt: &R, alloc: Global, worker: &mut Worker<Context<'h>>)
    requires { MayTakeIn 0 worker.old }
    ensures { TookIn 0 worker.old worker.new }
{
    worker.take_in(rt, alloc, LINK);
}

// Serves the only link of the whole until it has ended, and takes the worker apart. Where the link was lost it waits without end.
pub(crate) fn serve_only_link<'h, R: Wait>(
    rt: &R,
    alloc: Global,
    demi: &'h Demi<StoreLaw>,
    mut worker: Worker<Context<'h>>,
) -> (Caller<StoreLaw>, ArrayVec<Ended, 64>)
    requires { IsUnused demi.now worker.number worker }
    ensures { ServedLink demi.now worker.entry.number result.0 result.1.items }
{
    take_in_only(rt, alloc, &mut worker);
    worker.serve(rt);
    let (context, ended) = worker.parts();
    let mut caller = context.parts();
    hold_if_lost(rt, demi, &mut caller, ended.as_slice());
    (caller, ended)
}
