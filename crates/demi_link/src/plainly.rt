//! The steps of a link that answers an end frame or a refused end, for which the store is not asked.
ghost use Rattle.std.specs.Prelude.{◌≡◌, ◌<◌, ◌≤◌, ◌+◌, ◌++◌, ◌∷◌, [], ℕ, List, ◌⊎◌, IfOk, IfErr, length};
ghost use Rattle.demi_link.specs.Causes.{Answers, Caused};
ghost use Rattle.demi_link.specs.Desks.{desk_of};
ghost use Rattle.demi_link.specs.Events.{Adds, Event, RxCame, StoreCame, store_came};
ghost use Rattle.demi_link.specs.Fitting.{Fits, IsHungry, Noted, Took, Told};
ghost use Rattle.demi_link.specs.declared.phase.Phase.TheVariants.{Reading as reading, Popping as popping, Asking as asking, Holding as holding, Waiting as waiting, Replying as replying, Sending as sending, Pushing as pushing};
ghost use Rattle.demi_link.specs.Fitting.{HasClaimed, IsSmall};
ghost use Rattle.demi_link.specs.declared.phase.Kind.TheVariants.{Bye as bye_kind, Refused as refused_kind};

use crate::buffers::{joined, written};
use crate::calls::Calls;
use crate::desk::Desk;
use crate::notes::one_plain;
use crate::phase::{Cause, Kind, Phase};
use crate::stand::{Stand, ends, yields};
use demi_buf::Class;
use demi_frame::{BYE, REFUSED, reply_head};
use demi_heap::AppBuf;
use demi_sga::AppSga;

impl Desk {
    // Claims a buffer for a bye. Where none can be had, no number is drawn.
    pub(crate) fn bye<C: Calls>(&mut self, cx: &mut C) -> Stand
        requires { Fits (C.ports cx.old) (C.sight cx.old self.old.link) (desk_of self.old) (asking bye_kind) }
        ensures fits { Fits (C.ports cx.new) (C.sight cx.new self.old.link) (desk_of self.new) result.phase }
        ensures link { self.new.link ≡ self.old.link }
        ensures answers { Answers result.phase result.next }
        ensures cause { Caused (C.events cx.old) (C.events cx.new) self.new.index result.phase }
        ensures seen { C.seen cx.new ≡ C.seen cx.old }
        ensures begun { C.begun cx.new ≡ C.begun cx.old }
        ensures goes { C.goes self.old.link cx.old cx.new }
    {
        match cx.claim(self.link, Class::Small) {
            Ok(head) => self.say_bye(head, cx),
            Err(_) => yields(Phase::Asking(Kind::Bye)),
        }
    }

    // Draws the number of a bye, and sends it.
    fn say_bye<C: Calls>(&mut self, head: AppBuf, cx: &mut C) -> Stand
        requires { HasClaimed (C.ports cx.old) (C.sight cx.old self.old.link) (desk_of self.old) (asking bye_kind) 1 × IsSmall (C.sight cx.old self.old.link).heap head }
        ensures fits { Fits (C.ports cx.new) (C.sight cx.new self.old.link) (desk_of self.new) result.phase }
        ensures link { self.new.link ≡ self.old.link }
        ensures answers { Answers result.phase result.next }
        ensures cause { Caused (C.events cx.old) (C.events cx.new) self.new.index result.phase }
        ensures seen { C.seen cx.new ≡ C.seen cx.old }
        ensures begun { C.begun cx.new ≡ C.begun cx.old }
        ensures goes { C.goes self.old.link cx.old cx.new }
    {
        match cx.draw(self.link, &self.talk) {
            Some(sequence) => {
                self.talk = one_plain(&self.talk, sequence);
                self.index += 1;
                let head = written(head, &reply_head(BYE, self.worker, sequence, 0, 0));
                self.push(AppSga::of(head), Some(Cause::Bye), cx)
            }
            None => {
                head.lose();
                ends(Cause::Lost)
            }
        }
    }

    // Claims two buffers for the reply to a refused end. Where one of them can't be had, none is kept, and no number is drawn.
    pub(crate) fn refuse<C: Calls>(&mut self, code: u8, cx: &mut C) -> Stand
        requires { Fits (C.ports cx.old) (C.sight cx.old self.old.link) (desk_of self.old) (asking (refused_kind code)) }
        ensures fits { Fits (C.ports cx.new) (C.sight cx.new self.old.link) (desk_of self.new) result.phase }
        ensures link { self.new.link ≡ self.old.link }
        ensures answers { Answers result.phase result.next }
        ensures cause { Caused (C.events cx.old) (C.events cx.new) self.new.index result.phase }
        ensures seen { C.seen cx.new ≡ C.seen cx.old }
        ensures begun { C.begun cx.new ≡ C.begun cx.old }
        ensures goes { C.goes self.old.link cx.old cx.new }
    {
        match cx.claim(self.link, Class::Small) {
            Ok(head) => self.refuse_with(code, head, cx),
            Err(_) => yields(Phase::Asking(Kind::Refused(code))),
        }
    }

    // Claims the second buffer.
    fn refuse_with<C: Calls>(&mut self, code: u8, head: AppBuf, cx: &mut C) -> Stand
        requires { HasClaimed (C.ports cx.old) (C.sight cx.old self.old.link) (desk_of self.old) (asking (refused_kind code)) 1 × IsSmall (C.sight cx.old self.old.link).heap head }
        ensures fits { Fits (C.ports cx.new) (C.sight cx.new self.old.link) (desk_of self.new) result.phase }
        ensures link { self.new.link ≡ self.old.link }
        ensures answers { Answers result.phase result.next }
        ensures cause { Caused (C.events cx.old) (C.events cx.new) self.new.index result.phase }
        ensures seen { C.seen cx.new ≡ C.seen cx.old }
        ensures begun { C.begun cx.new ≡ C.begun cx.old }
        ensures goes { C.goes self.old.link cx.old cx.new }
    {
        match cx.claim(self.link, Class::Small) {
            Ok(tail) => self.say_refused(code, head, tail, cx),
            Err(_) => {
                cx.sgafree(self.link, AppSga::of(head));
                yields(Phase::Asking(Kind::Refused(code)))
            }
        }
    }

    // Draws the number of the reply to a refused end, and sends it.
    fn say_refused<C: Calls>(&mut self, code: u8, head: AppBuf, tail: AppBuf, cx: &mut C) -> Stand
        requires { HasClaimed (C.ports cx.old) (C.sight cx.old self.old.link) (desk_of self.old) (asking (refused_kind code)) 2 × IsSmall (C.sight cx.old self.old.link).heap head × IsSmall (C.sight cx.old self.old.link).heap tail }
        ensures fits { Fits (C.ports cx.new) (C.sight cx.new self.old.link) (desk_of self.new) result.phase }
        ensures link { self.new.link ≡ self.old.link }
        ensures answers { Answers result.phase result.next }
        ensures cause { Caused (C.events cx.old) (C.events cx.new) self.new.index result.phase }
        ensures seen { C.seen cx.new ≡ C.seen cx.old }
        ensures begun { C.begun cx.new ≡ C.begun cx.old }
        ensures goes { C.goes self.old.link cx.old cx.new }
    {
        match cx.draw(self.link, &self.talk) {
            Some(sequence) => {
                self.talk = one_plain(&self.talk, sequence);
                self.index += 1;
                let head = written(head, &reply_head(REFUSED, self.worker, sequence, 0, 1));
                let tail = written(tail, &[code]);
                let sga = joined(head, Some(AppSga::of(tail)));
                self.push(sga, Some(Cause::Refused(code)), cx)
            }
            None => {
                head.lose();
                tail.lose();
                ends(Cause::Lost)
            }
        }
    }
}
