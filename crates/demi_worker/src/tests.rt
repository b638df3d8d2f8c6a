ghost use Rattle.std.specs.Prelude.{◌≡◌, ◌≢◌, ◌≤◌, [], ◌∷◌};
ghost use Rattle.demi_port_core.specs.History.{Each};
ghost use Rattle.demi_worker.specs.Ending.{IsNew};
ghost use Rattle.demi_worker.specs.Standing.{HasEnd, HasKept, HasPaid, HasStopped, SameLinks, ended_links};

use crate::{Ended, Serves, Worker};
use arrayvec::ArrayVec;
use demi_link::Link;
use demi_sched::Scheduler;
use std::alloc::Global;
use std::sync::Wait;

// How the layer above uses a worker, here for two links. It is proved for any context, and not run here.
fn serve_two<C: Serves, R: Wait>(
    rt: &R,
    alloc: Global,
    context: C,
    scheduler: Scheduler<C, Link>,
    number: u8,
    links: (u16, u16),
) -> (C, ArrayVec<Ended, 64>)
    requires ports { C.ports context ≡ scheduler.ports }
    requires none { (scheduler.held ≡ []) × (scheduler.added ≡ 0) }
    requires room { (2 ≤ scheduler.room) × (scheduler.room ≤ 64) }
    requires other { links.0 ≢ links.1 }
    requires first { IsNew number (C.sight context links.0) links.0 }
    requires second { IsNew number (C.sight context links.1) links.1 }
    ensures links { SameLinks (ended_links result.1.items) (links.1 ∷ links.0 ∷ []) }
    ensures served { Each (HasEnd (C.ports result.0)) result.1.items }
    ensures stopped { Each (HasStopped (C.sight result.0)) result.1.items }
    ensures kept { Each (HasKept (C.sight result.0)) result.1.items }
    ensures owes { Each (HasPaid (C.sight result.0)) result.1.items }
{
    let mut worker = Worker::make(context, scheduler, number);
    worker.take_in(rt, alloc, links.0);
    worker.take_in(rt, alloc, links.1);
    worker.serve(rt);
    worker.parts()
}
