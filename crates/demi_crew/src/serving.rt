//! How a worker serves the links that it took up.
ghost use Rattle.std.specs.Prelude.{◌≡◌, ◌≤◌, length};
ghost use Rattle.demi_sched.specs.Going.{Differ};
ghost use Rattle.demi_context.specs.ContextPorts.{SameMemory};
ghost use Rattle.demi_crew.specs.Serving.{HasLinks, IsEmpty, IsUnused, ServedLinks};

use crate::lost::hold_if_lost;
use crate::taking::take_in_all;
use arrayvec::ArrayVec;
use demi_context::Context;
use demi_link::Link;
use demi_pdpix::{Caller, Demi};
use demi_sched::Scheduler;
use demi_store::StoreLaw;
use demi_worker::{Ended, Worker};
use std::alloc::Global;
use std::sync::Wait;

/// Serves the links of these numbers by the worker of this number until each has ended, and takes the worker apart: what became of each
/// link stands in the order in which they were found to have ended. The whole has so many `links`, of which the worker may have been given
/// none. A link whose decoder gets no memory ends at once for want of it. Where a link was lost, which the ports' contracts alone do not
/// exclude, it waits without end. At the port of the memory queues nothing is done.
pub fn serve_links<'h, R: Wait>(
    rt: &R,
    alloc: Global,
    demi: &'h Demi<StoreLaw>,
    scheduler: Scheduler<Context<'h>, Link>,
    caller: Caller<StoreLaw>,
    number: u8,
    links: u16,
    numbers: &[u16],
) -> (Caller<StoreLaw>, ArrayVec<Ended, 64>)
    requires links { HasLinks links demi.now }
    requires unused { IsUnused demi.now number caller }
    requires scheduler { IsEmpty links scheduler.room scheduler }
    requires numbers { Differ numbers.now × (length numbers.now ≤ scheduler.room) }
    ensures served { ServedLinks demi.now number numbers.now result.0 result.1.items }
    ensures memory { SameMemory caller result.0 }
{
    let context = Context::make(demi, caller, number, links);
    let mut worker = Worker::make(context, scheduler, number);
    take_in_all(rt, alloc, &mut worker, numbers);
    worker.serve(rt);
    let (context, ended) = worker.parts();
    let mut caller = context.parts();
    hold_if_lost(rt, demi, &mut caller, ended.as_slice());
    (caller, ended)
}
