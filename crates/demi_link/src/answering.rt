//! The steps of a link that was answered by the store.
ghost use Rattle.std.specs.Prelude.{◌≡◌, ◌<◌, ◌≤◌, ◌+◌, ◌++◌, ◌∷◌, [], ℕ, List, ◌⊎◌, IfOk, IfErr, length};
ghost use Rattle.demi_link.specs.Causes.{Answers, Caused};
ghost use Rattle.demi_link.specs.Desks.{desk_of};
ghost use Rattle.demi_link.specs.Events.{Adds, Event, RxCame, StoreCame, store_came};
ghost use Rattle.demi_link.specs.Fitting.{Fits, IsHungry, Noted, Took, Told};
ghost use Rattle.demi_link.specs.declared.phase.Phase.TheVariants.{Reading as reading, Popping as popping, Asking as asking, Holding as holding, Waiting as waiting, Replying as replying, Sending as sending, Pushing as pushing};
ghost use Rattle.demi_sga.specs.Arrays.{AreOf};
ghost use Rattle.demi_link.specs.Fitting.{IsSent, body_of, with_reply};
ghost use Rattle.demi_link.specs.Giving.{IsPaired, Says, segments_of, where_bytes};

use crate::buffers::{joined, written};
use crate::calls::Calls;
use crate::desk::Desk;
use crate::giving::{body_len, let_go, lose_half, taken_back, with_bytes};
use crate::notes::one_drafted;
use crate::phase::{Cause, Draft, Phase};
use crate::stand::{Stand, ends, waits, yields};
use demi_buf::Class;
use demi_frame::{FOUND, FULL, MISSING, STORED, reply_head};
use demi_port::Redeem;
use demi_port_core::QToken;
use demi_sga::{AppSga, LentSga};
use demi_store::{StoreAnswer, StoreOut};

// The kind and the version of a reply to what the store answered.
fn kind_of(answer: StoreAnswer) -> (u8, u64)
    requires { IsSent answer None }
    ensures says { Says answer result.0 result.1 }
    ensures version { result.1 ≤ 18446744073709551615 }
{
    match answer {
        StoreAnswer::Stored(version) => (STORED, version),
        StoreAnswer::Found(version) => (FOUND, version),
        StoreAnswer::Missing(version) => (MISSING, version),
        StoreAnswer::Full(version) => (FULL, version),
        _ => unreachable!(),
    }
}

// A number of 64 bits.
fn is_word(_n: u64)
    ensures { _n ≤ 18446744073709551615 }
{}

impl Desk {
    // Takes what the store answered, if it is there.
    pub(crate) fn answered<C: Calls>(
        &mut self,
        token: QToken,
        sequence: u64,
        half: Option<LentSga>,
        cx: &mut C,
    ) -> Stand
        requires { Fits (C.ports cx.old) (C.sight cx.old self.old.link) (desk_of self.old) (waiting token sequence half) }
        ensures fits { Fits (C.ports cx.new) (C.sight cx.new self.old.link) (desk_of self.new) result.phase }
        ensures link { self.new.link ≡ self.old.link }
        ensures answers { Answers result.phase result.next }
        ensures cause { Caused (C.events cx.old) (C.events cx.new) self.new.index result.phase }
        ensures seen { C.seen cx.new ≡ C.seen cx.old }
        ensures begun { C.begun cx.new ≡ C.begun cx.old }
        ensures goes { C.goes self.old.link cx.old cx.new }
    {
        match cx.try_store(self.link, token) {
            Redeem::Ready(_place, outcome) => self.told(sequence, half, outcome, cx),
            Redeem::NotYet => waits(Phase::Waiting(token, sequence, half), token),
            Redeem::Spent => {
                lose_half(half);
                ends(Cause::Lost)
            }
            Redeem::Unknown => {
                lose_half(half);
                ends(Cause::Lost)
            }
        }
    }

    // Takes the value or the room back, and replies or is over.
    fn told<C: Calls>(
        &mut self,
        sequence: u64,
        half: Option<LentSga>,
        outcome: StoreOut,
        cx: &mut C,
    ) -> Stand
        requires { Told (C.ports cx.old) (C.sight cx.old self.old.link) (desk_of self.old) sequence half outcome }
        ensures fits { Fits (C.ports cx.new) (C.sight cx.new self.old.link) (desk_of self.new) result.phase }
        ensures link { self.new.link ≡ self.old.link }
        ensures answers { Answers result.phase result.next }
        ensures cause { (before : List Event) → Adds before (C.events cx.old) (store_came outcome) → Caused before (C.events cx.new) self.new.index result.phase }
        ensures seen { C.seen cx.new ≡ C.seen cx.old }
        ensures begun { C.begun cx.new ≡ C.begun cx.old }
        ensures goes { C.goes self.old.link cx.old cx.new }
    {
        let StoreOut { answer, back } = outcome;
        let body = taken_back(self.link, half, back, cx);
        match answer {
            StoreAnswer::Stored(_) => self.draft(answer, sequence, body, cx),
            StoreAnswer::Found(_) => {
                let body = with_bytes(self.link, body, cx);
                self.draft(answer, sequence, body, cx)
            }
            StoreAnswer::Missing(_) => {
                let_go(self.link, body, cx);
                self.draft(answer, sequence, None, cx)
            }
            StoreAnswer::Full(_) => {
                let_go(self.link, body, cx);
                self.draft(answer, sequence, None, cx)
            }
            StoreAnswer::Fault => {
                let_go(self.link, body, cx);
                ends(Cause::LogFault)
            }
            StoreAnswer::Broken(_) => {
                let_go(self.link, body, cx);
                ends(Cause::LogFault)
            }
            StoreAnswer::NoMemory => {
                let_go(self.link, body, cx);
                ends(Cause::NoMemory)
            }
            StoreAnswer::Stopped(_) => {
                let_go(self.link, body, cx);
                ends(Cause::Lost)
            }
            StoreAnswer::Halted => {
                let_go(self.link, body, cx);
                ends(Cause::Lost)
            }
        }
    }

    // The reply at hand is what this says.
    fn draft<C: Calls>(
        &mut self,
        answer: StoreAnswer,
        sequence: u64,
        body: Option<AppSga>,
        cx: &mut C,
    ) -> Stand
        requires { Fits (C.ports cx.old) (C.sight cx.old self.old.link) (with_reply (desk_of self.old) (record { answer = answer; sequence = sequence; body = body })) (replying (record { answer = answer; sequence = sequence; body = body })) }
        ensures fits { Fits (C.ports cx.new) (C.sight cx.new self.old.link) (desk_of self.new) result.phase }
        ensures link { self.new.link ≡ self.old.link }
        ensures answers { Answers result.phase result.next }
        ensures cause { Caused (C.events cx.old) (C.events cx.new) self.new.index result.phase }
        ensures seen { C.seen cx.new ≡ C.seen cx.old }
        ensures begun { C.begun cx.new ≡ C.begun cx.old }
        ensures goes { C.goes self.old.link cx.old cx.new }
    {
        let draft = Draft {
            answer,
            sequence,
            body,
        };
        self.talk = one_drafted(&self.talk, &draft);
        self.reply(draft, cx)
    }

    // Claims a buffer for the head of the reply at hand, and sends it. Where none can be had, the reply stays at hand.
    pub(crate) fn reply<C: Calls>(&mut self, draft: Draft, cx: &mut C) -> Stand
        requires { Fits (C.ports cx.old) (C.sight cx.old self.old.link) (desk_of self.old) (replying draft) }
        ensures fits { Fits (C.ports cx.new) (C.sight cx.new self.old.link) (desk_of self.new) result.phase }
        ensures link { self.new.link ≡ self.old.link }
        ensures answers { Answers result.phase result.next }
        ensures cause { Caused (C.events cx.old) (C.events cx.new) self.new.index result.phase }
        ensures seen { C.seen cx.new ≡ C.seen cx.old }
        ensures begun { C.begun cx.new ≡ C.begun cx.old }
        ensures goes { C.goes self.old.link cx.old cx.new }
    {
        let Ok(head) = cx.claim(self.link, Class::Small) else {
            return yields(Phase::Replying(draft));
        };
        let Draft {
            answer,
            sequence,
            body,
        } = draft;
        let length = body_len(&body);
        let (kind, version) = kind_of(answer);
        is_word(sequence);
        let head = written(
            head,
            &reply_head(kind, self.worker, sequence, version, length),
        );
        self.push(joined(head, body), None, cx)
    }
}
