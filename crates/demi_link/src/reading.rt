//! The steps of a link that reads.
ghost use Rattle.std.specs.Prelude.{◌≡◌, ◌<◌, ◌≤◌, ◌+◌, ◌++◌, ◌∷◌, [], ℕ, List, ◌⊎◌, IfOk, IfErr, length};
ghost use Rattle.demi_link.specs.Causes.{Answers, Caused};
ghost use Rattle.demi_link.specs.Desks.{desk_of};
ghost use Rattle.demi_link.specs.Events.{Adds, Event, RxCame, StoreCame, store_came};
ghost use Rattle.demi_link.specs.Fitting.{Fits, IsHungry, Noted, Took, Told};
ghost use Rattle.demi_link.specs.declared.phase.Phase.TheVariants.{Reading as reading, Popping as popping, Asking as asking, Holding as holding, Waiting as waiting, Replying as replying, Sending as sending, Pushing as pushing};
ghost use Rattle.demi_streamq.specs.declared.rx_out.RxOut.TheVariants.{Piece as piece, End as at_end};

use crate::calls::{Calls, NoToken};
use crate::desk::Desk;
use crate::notes::{one_ended, one_handed, one_placed, one_refused, one_taken};
use crate::phase::{Cause, Kind, Phase};
use crate::stand::{Stand, ends, waits, yields};
use demi_frame::Step;
use demi_heap::AppBuf;
use demi_port::Redeem;
use demi_port_core::{Place, QToken};
use demi_sga::AppSga;
use demi_streamq::RxOut;

impl Desk {
    // Asks the decoder, and goes on with the request that it hands out. A link that has had as many requests as can be
    // numbered is lost.
    pub(crate) fn read<C: Calls>(&mut self, cx: &mut C) -> Stand
        requires { Fits (C.ports cx.old) (C.sight cx.old self.old.link) (desk_of self.old) reading }
        ensures fits { Fits (C.ports cx.new) (C.sight cx.new self.old.link) (desk_of self.new) result.phase }
        ensures link { self.new.link ≡ self.old.link }
        ensures answers { Answers result.phase result.next }
        ensures cause { Caused (C.events cx.old) (C.events cx.new) self.new.index result.phase }
        ensures seen { C.seen cx.new ≡ C.seen cx.old }
        ensures begun { C.begun cx.new ≡ C.begun cx.old }
        ensures goes { C.goes self.old.link cx.old cx.new }
    {
        if self.index >= u32::MAX {
            return ends(Cause::Lost);
        }
        match self.decoder.next() {
            Step::More => self.pop(cx),
            Step::Put => {
                self.talk = one_handed(&self.talk, &self.decoder);
                self.prepare(Kind::Put, cx)
            }
            Step::Get => {
                self.talk = one_handed(&self.talk, &self.decoder);
                self.prepare(Kind::Get, cx)
            }
            Step::End => {
                self.talk = one_ended(&self.talk);
                self.prepare(Kind::Bye, cx)
            }
            Step::Refused(code) => {
                self.talk = one_refused(&self.talk, code);
                self.prepare(Kind::Refused(code), cx)
            }
        }
    }

    // Pops from the receiving queue. Where that is refused, it asks the decoder again in the next round.
    fn pop<C: Calls>(&mut self, cx: &mut C) -> Stand
        requires { IsHungry (C.ports cx.old) (C.sight cx.old self.old.link) (desk_of self.old) }
        ensures fits { Fits (C.ports cx.new) (C.sight cx.new self.old.link) (desk_of self.new) result.phase }
        ensures link { self.new.link ≡ self.old.link }
        ensures answers { Answers result.phase result.next }
        ensures cause { Caused (C.events cx.old) (C.events cx.new) self.new.index result.phase }
        ensures seen { C.seen cx.new ≡ C.seen cx.old }
        ensures begun { C.begun cx.new ≡ C.begun cx.old }
        ensures goes { C.goes self.old.link cx.old cx.new }
    {
        match cx.pop(self.link) {
            Ok(token) => waits(Phase::Popping(token), token),
            Err(NoToken) => yields(Phase::Reading),
        }
    }

    // Takes what the pop came to, if it is there.
    pub(crate) fn fed<C: Calls>(&mut self, token: QToken, cx: &mut C) -> Stand
        requires { Fits (C.ports cx.old) (C.sight cx.old self.old.link) (desk_of self.old) (popping token) }
        ensures fits { Fits (C.ports cx.new) (C.sight cx.new self.old.link) (desk_of self.new) result.phase }
        ensures link { self.new.link ≡ self.old.link }
        ensures answers { Answers result.phase result.next }
        ensures cause { Caused (C.events cx.old) (C.events cx.new) self.new.index result.phase }
        ensures seen { C.seen cx.new ≡ C.seen cx.old }
        ensures begun { C.begun cx.new ≡ C.begun cx.old }
        ensures goes { C.goes self.old.link cx.old cx.new }
    {
        match cx.try_rx(self.link, token) {
            Redeem::Ready(place, outcome) => self.took(place, outcome, cx),
            Redeem::NotYet => waits(Phase::Popping(token), token),
            Redeem::Spent => ends(Cause::Lost),
            Redeem::Unknown => ends(Cause::Lost),
        }
    }

    // Goes on with what a pop came to.
    fn took<C: Calls>(&mut self, place: Place, outcome: RxOut, cx: &mut C) -> Stand
        requires { Took (C.ports cx.old) (C.sight cx.old self.old.link) (desk_of self.old) place.0 outcome }
        ensures fits { Fits (C.ports cx.new) (C.sight cx.new self.old.link) (desk_of self.new) result.phase }
        ensures link { self.new.link ≡ self.old.link }
        ensures answers { Answers result.phase result.next }
        ensures cause { (before : List Event) → Adds before (C.events cx.old) (RxCame outcome) → Caused before (C.events cx.new) self.new.index result.phase }
        ensures seen { C.seen cx.new ≡ C.seen cx.old }
        ensures begun { C.begun cx.new ≡ C.begun cx.old }
        ensures goes { C.goes self.old.link cx.old cx.new }
    {
        let placed = one_placed(&self.talk, place);
        self.talk = one_taken(&placed, &outcome);
        match outcome {
            RxOut::Piece(buf) => self.feed(buf, cx),
            RxOut::End => self.close_input(cx),
            RxOut::NoSlot => self.pop(cx),
            RxOut::Fault(_) => ends(Cause::ReadFault),
            RxOut::Broken(_) => ends(Cause::ReadFault),
            RxOut::Stopped(_) => ends(Cause::Lost),
            RxOut::Halted => ends(Cause::Lost),
        }
    }

    // Feeds a piece to the decoder, which takes all of it, frees it and reads on.
    fn feed<C: Calls>(&mut self, buf: AppBuf, cx: &mut C) -> Stand
        requires { Noted (C.ports cx.old) (C.sight cx.old self.old.link) (desk_of self.old) (piece buf) }
        ensures fits { Fits (C.ports cx.new) (C.sight cx.new self.old.link) (desk_of self.new) result.phase }
        ensures link { self.new.link ≡ self.old.link }
        ensures answers { Answers result.phase result.next }
        ensures cause { Caused (C.events cx.old) (C.events cx.new) self.new.index result.phase }
        ensures seen { C.seen cx.new ≡ C.seen cx.old }
        ensures begun { C.begun cx.new ≡ C.begun cx.old }
        ensures goes { C.goes self.old.link cx.old cx.new }
    {
        self.decoder.feed(buf.bytes());
        cx.sgafree(self.link, AppSga::of(buf));
        self.read(cx)
    }

    // The input has ended: it is over, or one more request is refused.
    fn close_input<C: Calls>(&mut self, cx: &mut C) -> Stand
        requires { Noted (C.ports cx.old) (C.sight cx.old self.old.link) (desk_of self.old) at_end }
        ensures fits { Fits (C.ports cx.new) (C.sight cx.new self.old.link) (desk_of self.new) result.phase }
        ensures link { self.new.link ≡ self.old.link }
        ensures answers { Answers result.phase result.next }
        ensures cause { (before : List Event) → Adds before (C.events cx.old) (RxCame at_end) → Caused before (C.events cx.new) self.new.index result.phase }
        ensures seen { C.seen cx.new ≡ C.seen cx.old }
        ensures begun { C.begun cx.new ≡ C.begun cx.old }
        ensures goes { C.goes self.old.link cx.old cx.new }
    {
        match self.decoder.finish() {
            None => ends(Cause::Clean),
            Some(code) => {
                self.talk = one_refused(&self.talk, code);
                self.prepare(Kind::Refused(code), cx)
            }
        }
    }
}
