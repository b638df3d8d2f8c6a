//! How a worker serves its links.
ghost use Rattle.std.specs.Prelude.{◌≡◌, ◌≢◌, ℕ, [], false};
ghost use Rattle.demi_port_core.specs.History.{Each};
ghost use Rattle.demi_port_core.specs.Trails.{StartsWith};
ghost use Rattle.demi_sched.specs.Going.{GoesWithin};
ghost use Rattle.demi_sched.specs.Scanning.{CountsUp};
ghost use Rattle.demi_sched.specs.Waiting.{has_ended};
ghost use Rattle.demi_sched.specs.declared.held.Held.{Held};
ghost use Rattle.demi_link.specs.Linked.{LinkValue};
ghost use Rattle.demi_worker.specs.Ending.{IsNew};
ghost use Rattle.demi_worker.specs.Standing.{HasKept, HasPaid, LeavesOthers, SameLinks, Stands, ended_links, held_links, taken_in};
ghost use Rattle.demi_worker.specs.Turns.{WentOn};

use crate::serves::Serves;
use crate::worker::Worker;
use demi_sched::Round;
use std::sync::Wait;
use std::thread::yield_now;

impl<C: Serves> Worker<C> {
    /// Serves its links until each has ended. Each is then listed once, behind those that were listed before, and its ports are
    /// stopped. It may wait.
    pub fn serve<R: Wait>(&mut self, rt: &R)
        requires { Stands (C.ports self.old.context) (C.sight self.old.context) self.old.scheduler self.old.ended.items }
        ensures stands { Stands (C.ports self.new.context) (C.sight self.new.context) self.new.scheduler self.new.ended.items }
        ensures none { self.new.scheduler.held ≡ [] }
        ensures links { SameLinks (ended_links self.new.ended.items) (taken_in self.old.scheduler.held self.old.ended.items) }
        ensures front { StartsWith self.new.ended.items self.old.ended.items }
        ensures kept { Each (HasKept (C.sight self.new.context)) self.new.ended.items }
        ensures owes { Each (HasPaid (C.sight self.new.context)) self.new.ended.items }
        ensures same { self.new.scheduler ≡ record self.old.scheduler { held = self.new.scheduler.held } }
        ensures number { self.new.number ≡ self.old.number }
        ensures goes { GoesWithin C.goes (held_links self.old.scheduler.held) self.old.context self.new.context }
        ensures others { LeavesOthers (held_links self.old.scheduler.held) (C.sight self.old.context) (C.sight self.new.context) }
        ensures fresh { (link : ℕ) → Each (λ n. n ≢ link) (held_links self.old.scheduler.held) → IsNew self.old.number (C.sight self.old.context link) link → IsNew self.old.number (C.sight self.new.context link) link }
    {
        for _ in rt.forever() {
            self.collect_all(rt);
            if self.scheduler.live() == 0 {
                return;
            }
            self.round(rt);
        }
    }

    // One round, and a little wait where it polled nobody.
    fn round<R: Wait>(&mut self, rt: &R)
        requires { Stands (C.ports self.old.context) (C.sight self.old.context) self.old.scheduler self.old.ended.items }
        ensures stands { Stands (C.ports self.new.context) (C.sight self.new.context) self.new.scheduler self.new.ended.items }
        ensures went { WentOn C.goes self.old.context self.new.context self.old.scheduler self.new.scheduler self.old.ended.items self.new.ended.items }
        ensures number { self.new.number ≡ self.old.number }
        ensures begun { CountsUp (C.begun self.old.context) (C.begun self.new.context) }
    {
        let round = self.scheduler.round(&mut self.context);
        self.rest(rt, &round);
    }

    // Waits a little after a round that polled nobody. Where each that was polled is to be polled again, it was refused a
    // buffer or a token, which other threads will give back.
    fn rest<R: Wait>(&mut self, rt: &R, round: &Round)
        ensures goes { (n : ℕ) → C.goes n self.old.context self.new.context }
        ensures begun { C.begun self.new.context ≡ C.begun self.old.context }
        ensures scheduler { self.new.scheduler ≡ self.old.scheduler }
        ensures ended { self.new.ended ≡ self.old.ended }
        ensures number { self.new.number ≡ self.old.number }
    {
        if round.polled.is_empty() {
            self.context.park(rt, round);
            return;
        }
        self.context.busy();
        if self.scheduler.due() as usize == round.polled.len() {
            yield_now();
        }
    }

    // Lists each link that has ended, and stops its ports.
    fn collect_all<R: Wait>(&mut self, rt: &R)
        requires { Stands (C.ports self.old.context) (C.sight self.old.context) self.old.scheduler self.old.ended.items }
        ensures stands { Stands (C.ports self.new.context) (C.sight self.new.context) self.new.scheduler self.new.ended.items }
        ensures none { Each (λ (h : Held LinkValue). has_ended h.state ≡ false) self.new.scheduler.held }
        ensures went { WentOn C.goes self.old.context self.new.context self.old.scheduler self.new.scheduler self.old.ended.items self.new.ended.items }
        ensures number { self.new.number ≡ self.old.number }
    {
        for _ in rt.forever() {
            if !self.collect(rt) {
                return;
            }
        }
    }

    // Lists one link that has ended, and stops its ports. Whether there was one.
    fn collect<R: Wait>(&mut self, rt: &R) -> bool
        requires { Stands (C.ports self.old.context) (C.sight self.old.context) self.old.scheduler self.old.ended.items }
        ensures stands { Stands (C.ports self.new.context) (C.sight self.new.context) self.new.scheduler self.new.ended.items }
        ensures none { result ≡ false → Each (λ (h : Held LinkValue). has_ended h.state ≡ false) self.new.scheduler.held }
        ensures went { WentOn C.goes self.old.context self.new.context self.old.scheduler self.new.scheduler self.old.ended.items self.new.ended.items }
        ensures number { self.new.number ≡ self.old.number }
    {
        let Some((_number, link)) = self.scheduler.collect() else {
            return false;
        };
        let end = link.finish();
        self.list(rt, end);
        true
    }
}
