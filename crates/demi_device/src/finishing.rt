//! How a device gives operations to its engine, and finishes them.
ghost use Rattle.std.specs.Prelude.{◌≡◌, ◌≢◌, ℕ, ◌+◌, ◌<◌, ◌++◌, [], ◌∷◌, IfNone, IfSome, length, vec_capacity};
ghost use mathlib.Core.Option.{some};
ghost use lib.ListN.{get_elem?};
ghost use Rattle.demi_port.specs.Seen.{above_all};
ghost use Rattle.demi_port_core.specs.History.{AnyOf, Apart, Each, ground_of};
ghost use Rattle.demi_port_core.specs.Trails.{MayTell, StartsWith, told_at};
ghost use Rattle.demi_device.specs.Holding.{OnlyFinished, TakenOut};
ghost use Rattle.demi_device.specs.Serving.{AllCome, places, trail};

use crate::done::Done;
use crate::early::Early;
use crate::inbox::Inbox;
use demi_port::Port;
use demi_port_core::{Law, Place, Token};

impl<L: Law> Inbox<L> {
    /// The operation of the next place, if it was fetched.
    pub(crate) fn next(&mut self) -> Option<(Place, L::Op)>
        ensures seat { self.new.seat ≡ self.old.seat }
        ensures next { IfSome result (λ r. (r.0.0 ≡ self.old.given) × (self.new.given ≡ self.old.given + 1) × (get_elem? (ground_of self.old.seat.fetched) self.old.given ≡ some (L.said r.1))) }
        ensures held { IfSome result (λ _. self.old.given < length self.old.seat.fetched) }
        ensures proper { IfSome result (λ r. L.proper self.old.seat.port.key.base (L.said r.1)) }
        ensures room { IfSome result (λ _. self.old.given < length self.old.seat.finished + self.old.seat.port.tokens.slots) }
        ensures none { IfNone result (Each (λ x. x.0 ≢ self.old.given) self.old.seat.fetched × (self.new.given ≡ self.old.given)) }
    {
        if self.early == 0 {
            return None;
        }
        let Some(Early { place, token, op }) = self.ring[self.at as usize].take() else {
            return None;
        };
        self.unanswered.push_reserved((place, token));
        self.early -= 1;
        self.at = if self.at + 1 == self.count {
            0
        } else {
            self.at + 1
        };
        Some((place, op))
    }

    // Finishes one operation that was given and not finished.
    fn finish(&mut self, port: &Port<L>, place: Place, out: L::Out)
        requires port { self.old.seat.port ≡ port.now }
        requires given { (place.0 < self.old.given) × Each (λ x. x.0 ≢ place.0) self.old.seat.finished }
        requires may_tell { MayTell (above_all self.old.seat.finished) place.0 (L.told out) }
        requires admitted { L.admits port.now.key.base (ground_of self.old.seat.fetched) (self.old.seat.trail ++ told_at place.0 (L.told out)) place.0 out }
        ensures given { self.new.given ≡ self.old.given }
        ensures finished { OnlyFinished place.0 (told_at place.0 (L.told out)) self.old.seat self.new.seat }
        ensures once { Apart self.new.seat.finished }
    {
        let token = remove_token(&mut self.unanswered, place);
        port.finish(&mut self.seat, token, out);
    }

    /// Finishes each operation of which an outcome was added.
    pub(crate) fn finish_all(&mut self, port: &Port<L>, done: &mut Done<L>)
        requires port { self.old.seat.port ≡ port.now }
        requires comes { AllCome self.old.given L.told (L.admits port.now.key.base (ground_of self.old.seat.fetched)) self.old.seat.trail (places self.old.seat.finished) done.old.added }
        requires once { Apart self.old.seat.finished }
        ensures given { self.new.given ≡ self.old.given }
        ensures seat { self.new.seat ≡ record self.old.seat { finished = self.new.seat.finished; trail = self.old.seat.trail ++ trail L.told done.old.added; owes = self.new.seat.owes } }
        ensures finished { places self.new.seat.finished ≡ places self.old.seat.finished ++ places done.old.added }
        ensures grows { StartsWith self.new.seat.finished self.old.seat.finished }
        ensures once { Apart self.new.seat.finished }
        ensures done { (done.new.added ≡ []) × (done.new.room ≡ done.old.room) }
    {
        while let Some((place, out)) = done.take() {
            self.finish(port, place, out);
        }
    }
}

// The token of a place that is in the list, which is taken out.
fn remove_token(unanswered: &mut Vec<(Place, Token)>, place: Place) -> Token
    requires { AnyOf (λ y. y.0.0 ≡ place.0) unanswered.old.items }
    ensures taken { TakenOut unanswered.old.items (place, result) unanswered.new.items }
    ensures capacity { vec_capacity unanswered.new ≡ vec_capacity unanswered.old }
{
    for i in 0..unanswered.len() {
        if unanswered[i].0 == place {
            let (_, token) = unanswered.remove(i);
            return token;
        }
    }
    unreachable!()
}
