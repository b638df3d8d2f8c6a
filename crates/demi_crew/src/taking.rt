//! How a worker takes in the links of some numbers.
ghost use Rattle.demi_crew.specs.Taking.{HasTaken, IsReady, MayTakeIn, TookIn};

use demi_context::Context;
use demi_worker::Worker;
use std::alloc::Global;
use std::sync::Wait;

// Takes a link in.
fn take_in_one<'h, R: Wait>(rt: &R, alloc: Global, worker: &mut Worker<Context<'h>>, link: u16)
    requires { MayTakeIn link worker.old }
    ensures { TookIn link worker.old worker.new }
{
    worker.take_in(rt, alloc, link);
}

// Takes in the links of these numbers, one after the other.
pub(crate) fn take_in_all<'h, R: Wait>(
    rt: &R,
    alloc: Global,
    worker: &mut Worker<Context<'h>>,
    numbers: &[u16],
)
    requires { IsReady worker.old.context.demi worker.old.number worker.old.context.caller numbers.now worker.old }
    ensures { HasTaken worker.old.context.demi worker.old.number worker.old.context.caller numbers.now worker.new }
{
    for link in numbers {
        take_in_one(rt, alloc, worker, *link);
    }
}
