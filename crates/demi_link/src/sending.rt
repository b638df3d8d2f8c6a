//! The steps of a link that sends a reply.
ghost use Rattle.std.specs.Prelude.{◌≡◌, ◌<◌, ◌≤◌, ◌+◌, ◌++◌, ◌∷◌, [], ℕ, List, ◌⊎◌, IfOk, IfErr, length};
ghost use Rattle.demi_link.specs.Causes.{Answers, Caused};
ghost use Rattle.demi_link.specs.Desks.{desk_of};
ghost use Rattle.demi_link.specs.Events.{Adds, Event, RxCame, StoreCame, store_came};
ghost use Rattle.demi_link.specs.Fitting.{Fits, IsHungry, Noted, Took, Told};
ghost use Rattle.demi_link.specs.declared.phase.Phase.TheVariants.{Reading as reading, Popping as popping, Asking as asking, Holding as holding, Waiting as waiting, Replying as replying, Sending as sending, Pushing as pushing};
ghost use Rattle.demi_link.specs.Fitting.{Wrote};
ghost use Rattle.demi_link.specs.Events.{TxCame};
ghost use Rattle.demi_streamq.specs.declared.tx_out.TxOut.TheVariants.{Pushed as pushed};

use crate::calls::Calls;
use crate::desk::Desk;
use crate::notes::{one_replied, one_written};
use crate::phase::{Cause, Phase};
use crate::stand::{Stand, ends, waits, yields};
use demi_port::Redeem;
use demi_port_core::{Place, QToken};
use demi_sga::AppSga;
use demi_streamq::TxOut;

impl Desk {
    // Pushes the reply at hand, and frees the lent halves at once. Where that is refused, it stays at hand.
    pub(crate) fn push<C: Calls>(&mut self, sga: AppSga, behind: Option<Cause>, cx: &mut C) -> Stand
        requires { Fits (C.ports cx.old) (C.sight cx.old self.old.link) (desk_of self.old) (sending sga behind) }
        ensures fits { Fits (C.ports cx.new) (C.sight cx.new self.old.link) (desk_of self.new) result.phase }
        ensures link { self.new.link ≡ self.old.link }
        ensures answers { Answers result.phase result.next }
        ensures cause { Caused (C.events cx.old) (C.events cx.new) self.new.index result.phase }
        ensures seen { C.seen cx.new ≡ C.seen cx.old }
        ensures begun { C.begun cx.new ≡ C.begun cx.old }
        ensures goes { C.goes self.old.link cx.old cx.new }
    {
        match cx.push(self.link, sga) {
            Ok((token, half)) => {
                cx.sgafree_lent(self.link, half);
                self.talk = one_replied(&self.talk);
                waits(Phase::Pushing(token, behind), token)
            }
            Err(sga) => yields(Phase::Sending(sga, behind)),
        }
    }

    // Goes on once the reply was written, or is over.
    pub(crate) fn sent<C: Calls>(
        &mut self,
        token: QToken,
        behind: Option<Cause>,
        cx: &mut C,
    ) -> Stand
        requires { Fits (C.ports cx.old) (C.sight cx.old self.old.link) (desk_of self.old) (pushing token behind) }
        ensures fits { Fits (C.ports cx.new) (C.sight cx.new self.old.link) (desk_of self.new) result.phase }
        ensures link { self.new.link ≡ self.old.link }
        ensures answers { Answers result.phase result.next }
        ensures cause { Caused (C.events cx.old) (C.events cx.new) self.new.index result.phase }
        ensures seen { C.seen cx.new ≡ C.seen cx.old }
        ensures begun { C.begun cx.new ≡ C.begun cx.old }
        ensures goes { C.goes self.old.link cx.old cx.new }
    {
        match cx.try_tx(self.link, token) {
            Redeem::Ready(place, outcome) => self.came(place, outcome, behind, cx),
            Redeem::NotYet => waits(Phase::Pushing(token, behind), token),
            Redeem::Spent => ends(Cause::Lost),
            Redeem::Unknown => ends(Cause::Lost),
        }
    }

    // Goes on with what a push came to.
    fn came<C: Calls>(
        &mut self,
        place: Place,
        outcome: TxOut,
        behind: Option<Cause>,
        cx: &mut C,
    ) -> Stand
        requires { Wrote (C.ports cx.old) (C.sight cx.old self.old.link) (desk_of self.old) place.0 behind outcome }
        ensures fits { Fits (C.ports cx.new) (C.sight cx.new self.old.link) (desk_of self.new) result.phase }
        ensures link { self.new.link ≡ self.old.link }
        ensures answers { Answers result.phase result.next }
        ensures cause { (before : List Event) → Adds before (C.events cx.old) (TxCame outcome) → Caused before (C.events cx.new) self.new.index result.phase }
        ensures seen { C.seen cx.new ≡ C.seen cx.old }
        ensures begun { C.begun cx.new ≡ C.begun cx.old }
        ensures goes { C.goes self.old.link cx.old cx.new }
    {
        match outcome {
            TxOut::Pushed => self.wrote(place, behind, cx),
            TxOut::Fault(_) => ends(Cause::WriteFault),
            TxOut::Broken(_) => ends(Cause::WriteFault),
            TxOut::Shut => ends(Cause::Lost),
            TxOut::Closed => ends(Cause::Lost),
            TxOut::Stopped(_) => ends(Cause::Lost),
            TxOut::Halted => ends(Cause::Lost),
        }
    }

    // Goes on behind a reply that was written, or is over.
    fn wrote<C: Calls>(&mut self, place: Place, behind: Option<Cause>, cx: &mut C) -> Stand
        requires { Wrote (C.ports cx.old) (C.sight cx.old self.old.link) (desk_of self.old) place.0 behind pushed }
        ensures fits { Fits (C.ports cx.new) (C.sight cx.new self.old.link) (desk_of self.new) result.phase }
        ensures link { self.new.link ≡ self.old.link }
        ensures answers { Answers result.phase result.next }
        ensures cause { (before : List Event) → Adds before (C.events cx.old) (TxCame pushed) → Caused before (C.events cx.new) self.new.index result.phase }
        ensures seen { C.seen cx.new ≡ C.seen cx.old }
        ensures begun { C.begun cx.new ≡ C.begun cx.old }
        ensures goes { C.goes self.old.link cx.old cx.new }
    {
        self.talk = one_written(&self.talk, place);
        match behind {
            None => self.read(cx),
            Some(cause) => ends(cause),
        }
    }
}
