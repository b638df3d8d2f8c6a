//! One poll of a link.
ghost use Rattle.std.specs.Prelude.{◌≡◌, ◌<◌, ◌≤◌, ◌+◌, ◌++◌, ◌∷◌, [], ℕ, List, ◌⊎◌, IfOk, IfErr, length};
ghost use Rattle.demi_link.specs.Causes.{Answers, Caused};
ghost use Rattle.demi_link.specs.Desks.{desk_of};
ghost use Rattle.demi_link.specs.Events.{Adds, Event, RxCame, StoreCame, store_came};
ghost use Rattle.demi_link.specs.Fitting.{Fits, IsHungry, Noted, Took, Told};
ghost use Rattle.demi_link.specs.declared.phase.Phase.TheVariants.{Reading as reading, Popping as popping, Asking as asking, Holding as holding, Waiting as waiting, Replying as replying, Sending as sending, Pushing as pushing};
ghost use Rattle.demi_link.specs.Fitting.{HasEnded};

use crate::calls::Calls;
use crate::desk::Desk;
use crate::phase::Phase;
use crate::stand::{Stand, ends};

impl Desk {
    // Goes on from where it stands. A link that is over is still so.
    pub(crate) fn go<C: Calls>(&mut self, phase: Phase, cx: &mut C) -> Stand
        requires { Fits (C.ports cx.old) (C.sight cx.old self.old.link) (desk_of self.old) phase }
        ensures fits { Fits (C.ports cx.new) (C.sight cx.new self.old.link) (desk_of self.new) result.phase }
        ensures link { self.new.link ≡ self.old.link }
        ensures answers { Answers result.phase result.next }
        ensures cause { (HasEnded phase × (result.phase ≡ phase)) ⊎ Caused (C.events cx.old) (C.events cx.new) self.new.index result.phase }
        ensures seen { C.seen cx.new ≡ C.seen cx.old }
        ensures begun { C.begun cx.new ≡ C.begun cx.old }
        ensures goes { C.goes self.old.link cx.old cx.new }
    {
        match phase {
            Phase::Reading => self.read(cx),
            Phase::Popping(token) => self.fed(token, cx),
            Phase::Asking(kind) => self.prepare(kind, cx),
            Phase::Holding(half, op) => self.ask(half, op, cx),
            Phase::Waiting(token, sequence, half) => self.answered(token, sequence, half, cx),
            Phase::Replying(draft) => self.reply(draft, cx),
            Phase::Sending(sga, behind) => self.push(sga, behind, cx),
            Phase::Pushing(token, behind) => self.sent(token, behind, cx),
            Phase::Over(cause) => ends(cause),
            Phase::Between => unreachable!(),
        }
    }
}
