//! The coroutine of a link.
ghost use Rattle.std.specs.Prelude.{◌≡◌, ◌≤◌, [], None, IfOk, true};
ghost use Rattle.demi_link.specs.Talks.{new_talk};
ghost use Rattle.demi_link.specs.declared.phase.Phase.TheVariants.{Reading as reading, Over as over_for};
ghost use Rattle.demi_sched.specs.declared.next.Next.TheVariants.{Ended as over, Yield as yielded};

use crate::calls::Calls;
use crate::desk::{Desk, nothing_said};
use crate::phase::{Cause, Phase};
use crate::stand::Stand;
use crate::talk::Talk;
use demi_core::NoMemory;
use demi_device::Mark;
use demi_frame::Decoder;
use demi_sched::{Coroutine, Next};
use std::alloc::Global;
use std::marker::Model;
use std::mem;

/// A link between polls.
pub struct Link {
    desk: Desk,
    polls: u64,
    phase: Phase,
    last: Mark<Next>,
}

impl Model for Link {
    ghost use Rattle.demi_link.specs.Causes.{Answers};
    ghost use Rattle.demi_link.specs.Desks.{desk_of};
    ghost use Rattle.demi_link.specs.Linked.{LinkValue};

    ghost Value = { LinkValue };

    ghost view = { λ k. record { desk = desk_of k.desk; polls = k.polls; phase = k.phase; last = k.last.value } };

    ghost invariant = { λ k. Answers k.phase k.last.value };
}

/// The number of a link that is over, why it is, and what it did.
#[derive(Drop)]
pub struct LinkEnd {
    pub link: u16,
    pub cause: Cause,
    pub talk: Mark<Talk>,
}

fn told(next: &Next) -> Mark<Next>
    ensures { result.value ≡ next.now }
{
    Mark::from(next, &())
}

impl Link {
    /// A link of this worker, of which nothing was read. Its decoder takes memory here, and nothing takes any later.
    pub fn make(alloc: Global, link: u16, worker: u8) -> Result<Link, NoMemory>
        ensures { IfOk result (λ k. k ≡ record { desk = record { link = link; worker = worker; index = 0; decoder = record { rest = []; last = None; stop = None; hungry = true }; talk = new_talk worker }; polls = 0; phase = reading; last = yielded }) }
    {
        let decoder = Decoder::make(alloc)?;
        let last = told(&Next::Yield);
        let desk = Desk {
            link,
            worker,
            index: 0,
            decoder,
            talk: nothing_said(worker),
        };
        Ok(Link {
            desk,
            polls: 0,
            phase: Phase::Reading,
            last,
        })
    }

    /// What became of a link that has ended.
    pub fn finish(self) -> LinkEnd
        requires { self.last ≡ over }
        ensures link { result.link ≡ self.desk.link }
        ensures cause { self.phase ≡ over_for result.cause }
        ensures talk { result.talk.value ≡ self.desk.talk }
    {
        let Link {
            desk,
            polls: _,
            phase,
            last: _,
        } = self;
        let Phase::Over(cause) = phase else {
            unreachable!()
        };
        let Desk {
            link,
            worker: _,
            index: _,
            decoder: _,
            talk,
        } = desk;
        LinkEnd { link, cause, talk }
    }
}

impl<C: Calls> Coroutine<C> for Link {
    ghost use Rattle.std.specs.Prelude.{◌⊎◌};
    ghost use Rattle.demi_link.specs.Beside.{fits_beside};
    ghost use Rattle.demi_link.specs.Causes.{Answers, Caused};
    ghost use Rattle.demi_link.specs.Fitting.{Fits, HasEnded};
    ghost use Rattle.demi_sched.specs.Scanning.{CountsUp};
    ghost use Rattle.demi_sched.specs.Waiting.{AreNamed};

    ghost name = { λ k. k.desk.link };

    ghost polls = { λ k. k.polls };

    ghost last = { λ k. k.last };

    ghost fits = { λ k c. Fits (C.ports c) (C.sight c k.desk.link) k.desk k.phase };

    /// Goes on as far as it can. It waits for just one token, that of a submission of this poll or one that this poll found
    /// still to come; is to be polled again only where a claim or a submission of this poll was refused; and is over only for
    /// what its last call came to, or where it has had as many requests as can be numbered.
    fn poll(&mut self, cx: &mut C) -> Next
        requires { Fits (C.ports cx.old) (C.sight cx.old self.old.desk.link) self.old.desk self.old.phase }
        ensures seen { C.seen cx.new ≡ C.seen cx.old }
        ensures begun { C.begun cx.new ≡ C.begun cx.old }
        ensures name { self.new.desk.link ≡ self.old.desk.link }
        ensures polls { CountsUp self.old.polls self.new.polls }
        ensures last { self.new.last ≡ result }
        ensures fits { Fits (C.ports cx.new) (C.sight cx.new self.new.desk.link) self.new.desk self.new.phase }
        ensures goes { C.goes self.old.desk.link cx.old cx.new }
        ensures tokens { AreNamed (C.ports cx.new) result }
        ensures answers { Answers self.new.phase result }
        ensures cause { (HasEnded self.old.phase × (self.new.phase ≡ self.old.phase)) ⊎ Caused (C.events cx.old) (C.events cx.new) self.new.desk.index self.new.phase }
    {
        self.polls = self.polls.saturating_add(1);
        let phase = mem::replace(&mut self.phase, Phase::Between);
        let Stand { phase, next } = self.desk.go(phase, cx);
        let between = mem::replace(&mut self.phase, phase);
        let Phase::Between = between else {
            unreachable!()
        };
        self.last = told(&next);
        next
    }

    ghost fits_on = { λ k n a b f g other. fits_beside (C.sight a k.desk.link) (C.sight b k.desk.link) k.desk (C.goes_beside n a b g k.desk.link other) (C.ports a) (C.ports b) k.phase (C.goes_ports n a b g) f };
}

#[cfg(test)]
mod tests {
    use super::*;

    #[test]
    fn a_new_link_reads_first(rt: HostRuntime) {
        let Ok(link) = Link::make(rt.alloc(), 3, 1) else {
            panic!(rt; "no memory");
        };
        let Link {
            desk,
            polls,
            phase,
            last: _,
        } = link;
        assert_eq!(rt; desk.link, 3);
        assert_eq!(rt; desk.worker, 1);
        assert_eq!(rt; polls, 0);
        let Phase::Reading = phase else {
            unreachable!()
        };
    }
}
