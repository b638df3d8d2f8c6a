//! A worker.
ghost use Rattle.std.specs.Prelude.{◌≡◌, ◌≤◌, []};
ghost use Rattle.demi_worker.specs.Standing.{Stands};

use crate::ended::Ended;
use crate::serves::Serves;
use arrayvec::ArrayVec;
use demi_link::Link;
use demi_sched::Scheduler;

/// What serves links until each has ended, and lists what became of them. It must be taken apart.
pub struct Worker<C: Serves> {
    /// What it serves them with.
    pub context: C,
    /// The links that have not ended.
    pub scheduler: Scheduler<C, Link>,
    /// Its number, which each of its replies says.
    pub number: u8,
    /// What became of the others, in the order in which they were found to have ended.
    pub ended: ArrayVec<Ended, 64>,
}

impl<C: Serves> Worker<C> {
    /// A worker that has no links yet, over a scheduler that was never added to.
    pub fn make(context: C, scheduler: Scheduler<C, Link>, number: u8) -> Worker<C>
        requires ports { C.ports context ≡ scheduler.ports }
        requires none { (scheduler.held ≡ []) × (scheduler.added ≡ 0) }
        requires small { scheduler.room ≤ 64 }
        ensures context { result.context ≡ context }
        ensures scheduler { result.scheduler ≡ scheduler }
        ensures number { result.number ≡ number }
        ensures ended { result.ended.items ≡ [] }
        ensures stands { Stands (C.ports result.context) (C.sight result.context) result.scheduler result.ended.items }
    {
        Worker {
            context,
            scheduler,
            number,
            ended: ArrayVec::new(),
        }
    }

    /// Its context, and what became of its links. Its scheduler, which holds nothing, is closed.
    pub fn parts(self) -> (C, ArrayVec<Ended, 64>)
        requires { self.scheduler.held ≡ [] }
        ensures context { result.0 ≡ self.context }
        ensures ended { result.1 ≡ self.ended }
    {
        let Worker {
            context,
            scheduler,
            number: _,
            ended,
        } = self;
        scheduler.close();
        (context, ended)
    }
}
