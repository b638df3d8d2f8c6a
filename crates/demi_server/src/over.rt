//! How the one link of a session is served at the ports.
ghost use Rattle.std.specs.Prelude.{◌≡◌, [], ◌∷◌, IfErr, IfOk, length};
ghost use Rattle.demi_pdpix.specs.Alone.{IsAlone};
ghost use Rattle.demi_pdpix.specs.Seen.{AreNewCallers};
ghost use Rattle.demi_context.specs.ContextPorts.{Caller as CallerOf};
ghost use Rattle.demi_server.specs.Gathering.{AreBack, AreFor, AreSameParts};
ghost use Rattle.demi_server.specs.Ran.{RanOver};

use crate::devices::Devices;
use crate::hand::Hand;
use crate::parts::Parts;
use crate::running::run_devices;
use arrayvec::ArrayVec;
use demi_core::{Disk, Sink, Source};
use demi_pdpix::{Caller, Demi};
use demi_store::StoreLaw;
use demi_worker::Ended;
use std::alloc::Global;
use std::sync::Wait;
use std::thread::Threads;

/// Where memory was refused before any device ran: the caller, and all parts as they were.
pub(crate) struct NotRun<I, O, D: Disk> {
    pub(crate) callers: Vec<Caller<StoreLaw>>,
    pub(crate) parts: Parts<I, O, D>,
}

/// Once all devices were stopped: the caller, what became of its link, and the parts.
pub(crate) struct HasRun<I, O, D: Disk> {
    pub(crate) callers: Vec<Caller<StoreLaw>>,
    pub(crate) ended: ArrayVec<Ended, 64>,
    pub(crate) parts: Parts<I, O, D>,
}

/// Serves the one link of the whole until it has ended, beside all devices, each of which has a thread of its own. `NotRun` only where
/// memory was refused.
pub(crate) fn over_ports<
    R: Threads + Wait + Sync,
    I: Source + Send,
    O: Sink + Send,
    D: Disk + Send,
>(
    rt: &R,
    alloc: Global,
    demi: &Demi<StoreLaw>,
    callers: Vec<Caller<StoreLaw>>,
    parts: Parts<I, O, D>,
) -> Result<HasRun<I, O, D>, NotRun<I, O, D>>
    requires parts { AreFor demi.now parts }
    requires callers { (demi.now.callers ≡ 1) × (length callers.items ≡ 1) × AreNewCallers demi.now 0 callers.items }
    requires one { length parts.links.items ≡ 1 }
    ensures ran { IfOk result (λ r. (caller : CallerOf) × (r.callers.items ≡ caller ∷ []) × RanOver I.taken I.left I.faults I.reads O.written O.faults D.bytes D.held D.faults D.appends D.looks demi.now parts r.parts caller r.ended.items) }
    ensures alone { IfOk result (λ r. IsAlone demi.now r.callers.items) }
    ensures back { IfOk result (λ r. AreBack demi.now r.parts × (r.parts.seats.journal ≡ parts.seats.journal)) }
    ensures not_run { IfErr result (λ r. AreSameParts parts r.parts × IsAlone demi.now r.callers.items × AreBack demi.now r.parts) }
{
    let mut callers = callers;
    let devices = match Devices::make(alloc, demi, parts) {
        Ok(devices) => devices,
        Err(parts) => return Err(NotRun { callers, parts }),
    };
    let Ok(mut crew) = Vec::with_capacity(alloc, 1) else {
        return Err(NotRun {
            callers,
            parts: devices.parts(),
        });
    };
    let Some(caller) = callers.pop() else {
        // There is one.
        unreachable!()
    };
    match Hand::make(alloc, demi, caller, 0) {
        Ok(hand) => crew.push_reserved(hand),
        Err(caller) => {
            callers.push_reserved(caller);
            crew.destroy_empty();
            return Err(NotRun {
                callers,
                parts: devices.parts(),
            });
        }
    }
    let devices = run_devices(rt, devices, &mut crew);
    let Some(hand) = crew.pop() else {
        // It was pushed.
        unreachable!()
    };
    crew.destroy_empty();
    let (caller, ended) = hand.parts();
    callers.push_reserved(caller);
    Ok(HasRun {
        callers,
        ended,
        parts: devices.parts(),
    })
}
