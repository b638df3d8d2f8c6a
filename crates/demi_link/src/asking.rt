//! The steps of a link that has a request at hand and asks the store.
ghost use Rattle.std.specs.Prelude.{◌≡◌, ◌<◌, ◌≤◌, ◌+◌, ◌++◌, ◌∷◌, [], ℕ, List, ◌⊎◌, IfOk, IfErr, length};
ghost use Rattle.demi_link.specs.Causes.{Answers, Caused};
ghost use Rattle.demi_link.specs.Desks.{desk_of};
ghost use Rattle.demi_link.specs.Events.{Adds, Event, RxCame, StoreCame, store_came};
ghost use Rattle.demi_link.specs.Fitting.{Fits, IsHungry, Noted, Took, Told};
ghost use Rattle.demi_link.specs.declared.phase.Phase.TheVariants.{Reading as reading, Popping as popping, Asking as asking, Holding as holding, Waiting as waiting, Replying as replying, Sending as sending, Pushing as pushing};
ghost use Rattle.demi_link.specs.declared.phase.Kind.TheVariants.{Put as put_kind, Get as get_kind};

use crate::buffers::{filled, key_copy};
use crate::calls::Calls;
use crate::desk::Desk;
use crate::notes::one_drawn;
use crate::phase::{Kind, Phase};
use crate::stand::{Stand, waits, yields};
use demi_buf::Class;
use demi_sga::LentSga;
use demi_store::StoreOp;

impl Desk {
    // Goes on with the request at hand. Where no buffer can be had for it, it stays at hand.
    pub(crate) fn prepare<C: Calls>(&mut self, kind: Kind, cx: &mut C) -> Stand
        requires { Fits (C.ports cx.old) (C.sight cx.old self.old.link) (desk_of self.old) (asking kind) }
        ensures fits { Fits (C.ports cx.new) (C.sight cx.new self.old.link) (desk_of self.new) result.phase }
        ensures link { self.new.link ≡ self.old.link }
        ensures answers { Answers result.phase result.next }
        ensures cause { Caused (C.events cx.old) (C.events cx.new) self.new.index result.phase }
        ensures seen { C.seen cx.new ≡ C.seen cx.old }
        ensures begun { C.begun cx.new ≡ C.begun cx.old }
        ensures goes { C.goes self.old.link cx.old cx.new }
    {
        match kind {
            Kind::Put => self.put(cx),
            Kind::Get => self.get(cx),
            Kind::Bye => self.bye(cx),
            Kind::Refused(code) => self.refuse(code, cx),
        }
    }

    // Lends the value of a put, if it has bytes, and asks.
    fn put<C: Calls>(&mut self, cx: &mut C) -> Stand
        requires { Fits (C.ports cx.old) (C.sight cx.old self.old.link) (desk_of self.old) (asking put_kind) }
        ensures fits { Fits (C.ports cx.new) (C.sight cx.new self.old.link) (desk_of self.new) result.phase }
        ensures link { self.new.link ≡ self.old.link }
        ensures answers { Answers result.phase result.next }
        ensures cause { Caused (C.events cx.old) (C.events cx.new) self.new.index result.phase }
        ensures seen { C.seen cx.new ≡ C.seen cx.old }
        ensures begun { C.begun cx.new ≡ C.begun cx.old }
        ensures goes { C.goes self.old.link cx.old cx.new }
    {
        let (link, index) = (self.link, self.index);
        let key = key_copy(self.decoder.key());
        let size = self.decoder.value().len() as u32;
        if size == 0 {
            let value = None;
            return self.ask(
                None,
                StoreOp::Put {
                    link,
                    index,
                    key,
                    value,
                },
                cx,
            );
        }
        match cx.sgaalloc(link, size) {
            Ok(sga) => {
                let (half, dev) = cx.lend(link, filled(sga, self.decoder.value()));
                let value = Some(dev);
                self.ask(
                    Some(half),
                    StoreOp::Put {
                        link,
                        index,
                        key,
                        value,
                    },
                    cx,
                )
            }
            Err(_) => yields(Phase::Asking(Kind::Put)),
        }
    }

    // Claims a room for the value of a get, and asks.
    fn get<C: Calls>(&mut self, cx: &mut C) -> Stand
        requires { Fits (C.ports cx.old) (C.sight cx.old self.old.link) (desk_of self.old) (asking get_kind) }
        ensures fits { Fits (C.ports cx.new) (C.sight cx.new self.old.link) (desk_of self.new) result.phase }
        ensures link { self.new.link ≡ self.old.link }
        ensures answers { Answers result.phase result.next }
        ensures cause { Caused (C.events cx.old) (C.events cx.new) self.new.index result.phase }
        ensures seen { C.seen cx.new ≡ C.seen cx.old }
        ensures begun { C.begun cx.new ≡ C.begun cx.old }
        ensures goes { C.goes self.old.link cx.old cx.new }
    {
        let key = key_copy(self.decoder.key());
        match cx.claim(self.link, Class::Large) {
            Ok(room) => self.ask(None, StoreOp::Get { key, room }, cx),
            Err(_) => yields(Phase::Asking(Kind::Get)),
        }
    }

    // Asks the store. Where that is refused, no number was drawn, and the operation stays at hand.
    pub(crate) fn ask<C: Calls>(&mut self, half: Option<LentSga>, op: StoreOp, cx: &mut C) -> Stand
        requires { Fits (C.ports cx.old) (C.sight cx.old self.old.link) (desk_of self.old) (holding half op) }
        ensures fits { Fits (C.ports cx.new) (C.sight cx.new self.old.link) (desk_of self.new) result.phase }
        ensures link { self.new.link ≡ self.old.link }
        ensures answers { Answers result.phase result.next }
        ensures cause { Caused (C.events cx.old) (C.events cx.new) self.new.index result.phase }
        ensures seen { C.seen cx.new ≡ C.seen cx.old }
        ensures begun { C.begun cx.new ≡ C.begun cx.old }
        ensures goes { C.goes self.old.link cx.old cx.new }
    {
        match cx.ask(self.link, &self.talk, op) {
            Ok((token, sequence)) => {
                self.talk = one_drawn(&self.talk);
                self.index += 1;
                waits(Phase::Waiting(token, sequence, half), token)
            }
            Err(op) => yields(Phase::Holding(half, op)),
        }
    }
}
