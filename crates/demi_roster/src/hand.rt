//! What works for one worker of a session.
ghost use Rattle.std.specs.Prelude.{◌≡◌};
ghost use Rattle.demi_pdpix.specs.Seen.{IsOf};
ghost use Rattle.demi_roster.specs.Hands.{Done, HasFinished, HasServed, MayFinish, MayWork, Ready, may_finish_after};
ghost use Rattle.demi_roster.specs.Staging.{IsAtBench, StopsShared};

mod share;
mod stage;

use crate::bench::Bench;
use arrayvec::ArrayVec;
use demi_context::stop_shared;
use demi_pdpix::{Caller, Demi};
use demi_port_core::QToken;
use demi_store::StoreLaw;
use demi_work::{Crew, Job};
use demi_worker::Ended;
use share::serve_share;
use stage::Stage;
use std::alloc::Global;
use std::marker::Model;
use std::mem;
use std::sync::Wait;

/// What works for one worker of a session: it takes up a share of the links and serves these until each has ended, and as the first at the
/// last it stops what all workers share. It must be taken apart.
pub struct Hand<'h> {
    alloc: Global,
    demi: &'h Demi<StoreLaw>,
    number: u8,
    links: u16,
    stage: Stage<'h>,
}

impl<'h> Model for Hand<'h> {
    ghost use Rattle.demi_roster.specs.Hands.{HandValue};
    ghost use Rattle.demi_roster.specs.Staging.{IsReady, stage_of};

    ghost Value = { HandValue };

    ghost view = { λ h. record { demi = h.demi.now; number = h.number; stage = stage_of h.stage } };

    ghost invariant = { λ h. IsReady h.demi.now h.number h.links h.stage };
}

impl<'h> Hand<'h> {
    // What works for the worker of this number, of a whole with so many links, at this bench.
    pub(crate) fn make(
        alloc: Global,
        demi: &'h Demi<StoreLaw>,
        number: u8,
        links: u16,
        caller: Caller<StoreLaw>,
        opening: Option<QToken>,
        bench: Bench<'h>,
    ) -> Hand<'h>
        requires { IsAtBench demi.now number links caller opening bench }
        ensures { result ≡ record { demi = demi.now; number = number; stage = Ready caller opening } }
    {
        Hand {
            alloc,
            demi,
            number,
            links,
            stage: Stage::Ready(caller, opening, bench),
        }
    }

    /// The caller, and what became of its links, once its work is done.
    pub fn parts(self) -> (Caller<StoreLaw>, ArrayVec<Ended, 64>)
        requires { MayFinish self }
        ensures { self.entry.stage ≡ Done result.0 result.1.items }
    {
        let Hand {
            alloc: _,
            demi: _,
            number: _,
            links: _,
            stage,
        } = self;
        let Stage::Done(caller, ended) = stage else {
            unreachable!()
        };
        (caller, ended)
    }
}

// Stops what all workers share, and hands the caller back.
fn stop_for_all<R: Wait>(
    rt: &R,
    demi: &Demi<StoreLaw>,
    mut caller: Caller<StoreLaw>,
) -> Caller<StoreLaw>
    requires { IsOf demi.now caller }
    ensures { StopsShared demi.now caller result }
{
    stop_shared(rt, demi, &mut caller);
    caller
}

impl<'h> Job for Hand<'h> {
    ghost ready = { MayWork };

    ghost done = { HasServed };

    /// Takes up a share of the links, and serves these until each has ended. Where a link was lost it waits without end.
    fn work<R: Wait>(&mut self, rt: &R) {
        let stage = mem::replace(&mut self.stage, Stage::Between);
        let Stage::Ready(caller, opening, bench) = stage else {
            unreachable!()
        };
        let (caller, ended) = serve_share(
            rt,
            self.alloc,
            self.demi,
            self.number,
            self.links,
            caller,
            opening,
            bench,
        );
        let between = mem::replace(&mut self.stage, Stage::Done(caller, ended));
        let Stage::Between = between else {
            unreachable!()
        };
    }
}

impl<'h> Crew for Hand<'h> {
    ghost may_finish = { MayFinish };

    ghost finished = { HasFinished };

    /// Stops the memory queues and the store, and redeems both stops.
    fn finish<R: Wait>(&mut self, rt: &R) {
        let stage = mem::replace(&mut self.stage, Stage::Between);
        let Stage::Done(caller, ended) = stage else {
            unreachable!()
        };
        let caller = stop_for_all(rt, self.demi, caller);
        let between = mem::replace(&mut self.stage, Stage::Done(caller, ended));
        let Stage::Between = between else {
            unreachable!()
        };
    }

    ghost goes_on = { may_finish_after };
}
