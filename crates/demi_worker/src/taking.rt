//! How a worker takes links in.
ghost use Rattle.std.specs.Prelude.{◌≡◌, ◌≢◌, ◌↔◌, ◌⊎◌, ℕ, ◌+◌, ◌<◌, ◌++◌, [], ◌∷◌, length};
ghost use Rattle.demi_port_core.specs.History.{Among, Each};
ghost use Rattle.demi_sched.specs.declared.state.State.TheVariants.{Due as due};
ghost use Rattle.demi_link.specs.Talks.{new_talk};
ghost use Rattle.demi_link.specs.declared.phase.Cause.TheVariants.{NoMemory as no_memory};
ghost use Rattle.demi_worker.specs.Ending.{IsNew, Lists};
ghost use Rattle.demi_worker.specs.Standing.{LeavesOthers, Stands, held_links, taken_in};
ghost use Rattle.demi_worker.specs.Stopping.{IsStopped};

use crate::had::nothing_said;
use crate::serves::Serves;
use crate::worker::Worker;
use demi_link::{Cause, Link, LinkEnd};
use std::alloc::Global;
use std::sync::Wait;

impl<C: Serves> Worker<C> {
    /// Takes a link in for which it did nothing yet. Its decoder takes memory here. Where that is refused, the link ends for want
    /// of memory at once: its ports are stopped, and it is listed as one that did nothing.
    pub fn take_in<R: Wait>(&mut self, rt: &R, alloc: Global, link: u16)
        requires stands { Stands (C.ports self.old.context) (C.sight self.old.context) self.old.scheduler self.old.ended.items }
        requires other { Among link (taken_in self.old.scheduler.held self.old.ended.items) → ⊥ }
        requires room { length self.old.scheduler.held + length self.old.ended.items < self.old.scheduler.room }
        requires new { IsNew self.old.number (C.sight self.old.context link) link }
        ensures stands { Stands (C.ports self.new.context) (C.sight self.new.context) self.new.scheduler self.new.ended.items }
        ensures links { (n : ℕ) → Among n (taken_in self.new.scheduler.held self.new.ended.items) ↔ ((n ≡ link) ⊎ Among n (taken_in self.old.scheduler.held self.old.ended.items)) }
        ensures held { (held_links self.new.scheduler.held ≡ held_links self.old.scheduler.held ++ link ∷ []) ⊎ Lists self.old.ended.items self.new.ended.items link no_memory (new_talk self.old.number) (C.sight self.old.context link) }
        ensures count { length self.new.scheduler.held + length self.new.ended.items ≡ length self.old.scheduler.held + length self.old.ended.items + 1 }
        ensures room { self.new.scheduler.room ≡ self.old.scheduler.room }
        ensures number { self.new.number ≡ self.old.number }
        ensures goes { C.goes link self.old.context self.new.context }
        ensures others { LeavesOthers (link ∷ []) (C.sight self.old.context) (C.sight self.new.context) }
    {
        match Link::make(alloc, link, self.number) {
            Ok(made) => self.hold(made),
            Err(_) => self.refuse(rt, link),
        }
    }

    // Holds one more link.
    fn hold(&mut self, link: Link)
        requires other { Each (λ n. n ≢ link.desk.link) (held_links self.old.scheduler.held) }
        requires room { length self.old.scheduler.held < self.old.scheduler.room }
        requires added { self.old.scheduler.added < 4294967295 }
        ensures held { self.new.scheduler ≡ record self.old.scheduler {
          added = self.old.scheduler.added + 1;
          held = self.old.scheduler.held ++ record { number = self.old.scheduler.added; coroutine = link; state = due } ∷ [];
        } }
        ensures context { self.new.context ≡ self.old.context }
        ensures ended { self.new.ended ≡ self.old.ended }
        ensures number { self.new.number ≡ self.old.number }
    {
        match self.scheduler.add(link) {
            Ok(_) => {}
            Err(_) => unreachable!(),
        }
    }

    // Lists a link that never began.
    fn refuse<R: Wait>(&mut self, rt: &R, link: u16)
        requires { length self.old.ended.items < 64 }
        ensures listed { Lists self.old.ended.items self.new.ended.items link no_memory (new_talk self.old.number) (C.sight self.old.context link) }
        ensures stopped { IsStopped (C.sight self.old.context link) (C.sight self.new.context link) }
        ensures goes { C.goes link self.old.context self.new.context }
        ensures scheduler { self.new.scheduler ≡ self.old.scheduler }
        ensures number { self.new.number ≡ self.old.number }
    {
        let end = LinkEnd {
            link,
            cause: Cause::NoMemory,
            talk: nothing_said(self.number),
        };
        self.list(rt, end);
    }
}
