//! What works for one worker of a session.
ghost use Rattle.std.specs.Prelude.{◌≡◌, IfErr, IfOk, length};
ghost use Rattle.demi_pdpix.specs.Seen.{IsNewCaller, IsOf};
ghost use Rattle.demi_server.specs.Hands.{Done, HasFinished, HasServed, MayFinish, MayWork, Ready, may_finish_after};
ghost use Rattle.demi_server.specs.Staging.{StopsShared};

mod only_link;
mod stage;

use arrayvec::ArrayVec;
use demi_context::{Context, stop_shared};
use demi_core::NoMemory;
use demi_pdpix::{Caller, Demi};
use demi_sched::Scheduler;
use demi_store::StoreLaw;
use demi_work::{Crew, Job};
use demi_worker::{Ended, Worker};
use only_link::serve_only_link;
use stage::Stage;
use std::alloc::Global;
use std::marker::Model;
use std::mem;
use std::sync::Wait;

// How many ports a whole with one link has.
const PORTS: u32 = 5;

/// What works for one worker of a session with one link: it serves the link until that has ended, and at the last it stops what all
/// workers share. It must be taken apart.
pub(crate) struct Hand<'h> {
    alloc: Global,
    demi: &'h Demi<StoreLaw>,
    number: u8,
    stage: Stage<'h>,
}

impl<'h> Model for Hand<'h> {
    ghost use Rattle.demi_server.specs.Hands.{HandValue};
    ghost use Rattle.demi_server.specs.Staging.{IsReady, stage_of};

    ghost Value = { HandValue };

    ghost view = { λ h. record { demi = h.demi.now; number = h.number; stage = stage_of h.stage } };

    ghost invariant = { λ h. IsReady h.demi.now h.number h.stage };
}

impl<'h> Hand<'h> {
    /// What works for the worker of this number, of a whole with one link. The caller comes back where memory was refused, and for no
    /// other cause.
    pub(crate) fn make(
        alloc: Global,
        demi: &'h Demi<StoreLaw>,
        caller: Caller<StoreLaw>,
        number: u8,
    ) -> Result<Hand<'h>, Caller<StoreLaw>>
        requires one { (length demi.now.rx ≡ 1) × (length demi.now.tx ≡ 1) }
        requires new { IsNewCaller demi.now number caller }
        ensures made { IfOk result (λ h. h ≡ record { demi = demi.now; number = number; stage = Ready caller }) }
        ensures back { IfErr result (λ c. c ≡ caller) }
    {
        match Scheduler::make(alloc, 1, PORTS) {
            Err(NoMemory) => Err(caller),
            Ok(scheduler) => {
                let context = Context::make(demi, caller, number, 1);
                let worker = Worker::make(context, scheduler, number);
                Ok(Hand {
                    alloc,
                    demi,
                    number,
                    stage: Stage::Ready(worker),
                })
            }
        }
    }

    /// The caller, and what became of its links, once its work is done.
    pub(crate) fn parts(self) -> (Caller<StoreLaw>, ArrayVec<Ended, 64>)
        requires { MayFinish self }
        ensures { self.entry.stage ≡ Done result.0 result.1.items }
    {
        let Hand {
            alloc: _,
            demi: _,
            number: _,
            stage,
        } = self;
        let Stage::Done(caller, ended) = stage else {
            unreachable!()
        };
        (caller, ended)
    }
}

// Stops what all workers share, and hands the caller back.
fn stop_for_all<R: Wait>(
    rt: &R,
    demi: &Demi<StoreLaw>,
    mut caller: Caller<StoreLaw>,
) -> Caller<StoreLaw>
    requires { IsOf demi.now caller }
    ensures { StopsShared demi.now caller result }
{
    stop_shared(rt, demi, &mut caller);
    caller
}

impl<'h> Job for Hand<'h> {
    ghost ready = { MayWork };

    ghost done = { HasServed };

    /// Serves the link until it has ended. Where the link was lost it waits without end.
    fn work<R: Wait>(&mut self, rt: &R) {
        let stage = mem::replace(&mut self.stage, Stage::Between);
        let Stage::Ready(worker) = stage else {
            unreachable!()
        };
        let (caller, ended) = serve_only_link(rt, self.alloc, self.demi, worker);
        let between = mem::replace(&mut self.stage, Stage::Done(caller, ended));
        let Stage::Between = between else {
            unreachable!()
        };
    }
}

impl<'h> Crew for Hand<'h> {
    ghost may_finish = { MayFinish };

    ghost finished = { HasFinished };

    /// Stops the memory queues and the store, and redeems both stops.
    fn finish<R: Wait>(&mut self, rt: &R) {
        let stage = mem::replace(&mut self.stage, Stage::Between);
        let Stage::Done(caller, ended) = stage else {
            unreachable!()
        };
        let caller = stop_for_all(rt, self.demi, caller);
        let between = mem::replace(&mut self.stage, Stage::Done(caller, ended));
        let Stage::Between = between else {
            unreachable!()
        };
    }

    ghost goes_on = { may_finish_after };
}
