//! How an operation comes into the history.
ghost use Rattle.std.specs.Prelude.{◌≡◌, ◌≢◌, ℕ, ◌+◌, ◌*◌, ◌/◌, ◌%◌, ◌<◌, ◌≤◌, [], ◌∷◌, ◌++◌, IfOk, IfErr, Some, None, false, true, IfSome, IfNone};
ghost use Rattle.demi_port_core.specs.History.{Among, Each};
ghost use Rattle.demi_port_core.specs.Phases.{last_round, token_of};
ghost use Rattle.demi_port_core.specs.Told.{looking, at_place, holding, idling, LookedOn, MissedSince};
ghost use Rattle.demi_port.specs.Seen.{InRange, Later, OnlyLooked, Missed};
ghost use Rattle.demi_port_core.specs.declared.view.Role.TheVariants.{Pass};
ghost use Rattle.demi_port_core.specs.declared.view.Stage.TheVariants.{Idle, Held, Drawn};
ghost use Rattle.demi_port_core.specs.declared.view.Slip.TheVariants.{Asked};
ghost use Rattle.demi_port_core.specs.declared.view.View.{View};
ghost use Rattle.demi_port.specs.declared.key.Key.{Key};
ghost use Rattle.demi_port_core.specs.Words.{token_word};

use crate::LAST;
use crate::key::Key;
use crate::pass::PortPass;
use crate::plays::{Acquired, Drew, Gave, Looked};
use crate::port::Port;
use crate::tables::{SeatPair, Tables};
use atomic_table::Badge;
use demi_port_core::{
    BELLS, FIRST_TOKEN, Law, Place, Slip, TICKET, TOKEN_STEP, Token, Trail, View,
};

/// No token could be had. The operation comes back.
#[derive(Drop)]
pub struct TokensFull<L: Law>(pub L::Op);

impl<L: Law> Port<L> {
    /// Puts the operation into the history, and gives its token and its place, which is above each that the pass had seen.
    /// The token is one of the port's, of a round in which it can be had, and none with which the pass has submitted before.
    /// It looks first at the token that the pass had last, then at all from index 0 upward, and takes no memory. The device is woken if it sleeps.
    /// The pass keeps the looks that it had, and its clock does not run back.
    /// `TokensFull` only where each token, at a step of its own in this call, was not free, was worn, or had another word than this call had just found.
    pub fn submit(&self, pass: &mut PortPass<L>, op: L::Op) -> Result<(Token, Place), TokensFull<L>>
        requires port { pass.old.port ≡ self.now }
        requires proper { L.proper self.now.key.base (L.said op) }
        ensures same { (pass.new.port ≡ pass.old.port) × (pass.new.number ≡ pass.old.number) }
        ensures ok { IfOk result (λ r. (pass.old.seen ≤ r.1.0) × (pass.new ≡ record pass.old { clock = pass.new.clock; looks = pass.new.looks; seen = r.1.0 + 1; submitted = pass.old.submitted ++ (r.1.0, (r.0.0, L.said op)) ∷ [] })) }
        ensures token { IfOk result (λ r. InRange self.now.tokens.slots r.0.0) }
        ensures fresh { IfOk result (λ r. Each (λ x. x.1.0 ≢ r.0.0) pass.old.submitted) }
        ensures looks { Later pass.old pass.new }
        ensures full { IfErr result (λ e. (e.0 ≡ op) × OnlyLooked pass.old pass.new × ((i : ℕ) → i < self.now.tokens.slots → Missed pass.old pass.new i)) }
    {
        let (token, place) = match self.tables.submit(&mut pass.pair, pass.near, op) {
            Ok(given) => given,
            Err(op) => return Err(TokensFull(op)),
        };
        self.device.ring();
        pass.near = (token % 1024) as u32;
        pass.patience.busy(&self.callers);
        Ok((Token(token), Place(place)))
    }
}

impl<L: Law> Tables<L> {
    pub(crate) fn look(&self, pass: &mut SeatPair<L>, index: u32) -> u64
        requires port { pass.old.seat.table_id ≡ self.now.table.shared.table_id }
        requires index { index < self.now.count }
        ensures port { (pass.new.seat.table_id ≡ pass.old.seat.table_id) × (pass.new.seat.id ≡ pass.old.seat.id) × (pass.new.seat.me.1 ≡ pass.old.seat.me.1) × (pass.new.record ≡ pass.old.record) }
        ensures look { (t : ℕ) × (pass.old.seat.me.0.clock ≤ t) × (pass.new.seat.me.0 ≡ looking t (token_word index) result pass.old.seat.me.0) }
    {
        self.table
            .shared
            .load::<Looked>(&mut pass.seat, index as usize * TOKEN_STEP + FIRST_TOKEN)
    }

    pub(crate) fn acquire(
        &self,
        pass: &mut SeatPair<L>,
        index: u32,
        round: u64,
        slip: &Option<Slip<L::Op, L::Out, Badge<Trail<L::Said, L::Told>>>>,
    ) -> bool
        requires port { pass.old.seat.table_id ≡ self.now.table.shared.table_id }
        requires index { index < self.now.count }
        requires round { round < last_round }
        requires free { (pass.old.seat.me.0.role ≡ Pass) × (pass.old.seat.me.0.stage ≡ Idle) }
        requires slip { (op : L.Op) × (slip.now ≡ Some (Asked 0 op)) }
        ensures port { (pass.new.seat.table_id ≡ pass.old.seat.table_id) × (pass.new.seat.id ≡ pass.old.seat.id) × (pass.new.record ≡ pass.old.record) }
        ensures lost { result ≡ false → (t : ℕ) × (n : ℕ) × (n ≢ round * 8) × (pass.old.seat.me.0.clock ≤ t) × (pass.new.seat.me.0 ≡ looking t (token_word index) n pass.old.seat.me.0) × (pass.new.seat.me.1 ≡ pass.old.seat.me.1) }
        ensures won { (op : L.Op) → slip.now ≡ Some (Asked 0 op) → result ≡ true → (t : ℕ) × (pass.old.seat.me.0.clock ≤ t) × (pass.new.seat.me.0 ≡ holding index round (L.said op) (looking t (token_word index) (round * 8) pass.old.seat.me.0)) × (pass.new.seat.me.1 ≡ (index, None) ∷ pass.old.seat.me.1) }
    {
        self.table.shared.compare_exchange_with::<Acquired<L>>(
            &mut pass.seat,
            index as usize * TOKEN_STEP + FIRST_TOKEN,
            round * 8,
            round * 8 + 1,
            slip,
        ) == round * 8
    }

    pub(crate) fn draw(&self, pass: &mut SeatPair<L>) -> u64
        requires port { pass.old.seat.table_id ≡ self.now.table.shared.table_id }
        requires held { (pass.old.seat.me.0.stage ≡ Held) × ((d : L.Said) × (pass.old.seat.me.0.said ≡ Some d) × L.proper self.now.table.shared.key.base d) }
        ensures port { (pass.new.seat.table_id ≡ pass.old.seat.table_id) × (pass.new.seat.id ≡ pass.old.seat.id) × (pass.new.seat.me.1 ≡ pass.old.seat.me.1) × (pass.new.record ≡ pass.old.record) }
        ensures above { pass.old.seat.me.0.seen ≤ result }
        ensures drawn { (d : L.Said) × (pass.old.seat.me.0.said ≡ Some d) × (pass.new.seat.me.0 ≡ at_place result d pass.old.seat.me.0) }
        ensures fresh { (q : ℕ) (d : L.Said) → Among (q, (token_of pass.old.seat.me.0.round pass.old.seat.me.0.index, d)) pass.old.seat.me.0.mine → ⊥ }
    {
        self.table
            .shared
            .fetch_add::<Drew>(&mut pass.seat, TICKET, 1)
    }

    // The operation goes into the slot, and the token's doorbell is rung.
    fn ring(&self, pass: &mut SeatPair<L>, index: u32, place: u64, op: L::Op)
        requires port { pass.old.seat.table_id ≡ self.now.table.shared.table_id }
        requires index { index < self.now.count }
        requires held { (pass.old.seat.me.0.stage ≡ Drawn) × (pass.old.seat.me.0.index ≡ index) × (pass.old.seat.me.0.place ≡ place) × (pass.old.seat.me.0.said ≡ Some (L.said op)) × (pass.old.seat.me.1 ≡ (index, None) ∷ []) }
        ensures port { (pass.new.seat.table_id ≡ pass.old.seat.table_id) × (pass.new.record ≡ pass.old.record) }
        ensures view { pass.new.seat.me ≡ (idling pass.old.seat.me.0, []) }
    {
        let slip = Some(Slip::Asked(place, op));
        match self
            .table
            .shared
            .exchange(&mut pass.seat, index as usize, slip)
        {
            None => {}
            Some(_) => unreachable!(),
        }
        self.table
            .shared
            .fetch_add::<Gave>(&mut pass.seat, BELLS, 1 << index);
    }

    // Gets the token if it is free. The answer is its round.
    fn try_token(
        &self,
        pass: &mut SeatPair<L>,
        index: u32,
        slip: &Option<Slip<L::Op, L::Out, Badge<Trail<L::Said, L::Told>>>>,
    ) -> Option<u64>
        requires port { pass.old.seat.table_id ≡ self.now.table.shared.table_id }
        requires index { index < self.now.count }
        requires free { (pass.old.seat.me.0.role ≡ Pass) × (pass.old.seat.me.0.stage ≡ Idle) }
        requires slip { (op : L.Op) × (slip.now ≡ Some (Asked 0 op)) }
        ensures port { (pass.new.seat.table_id ≡ pass.old.seat.table_id) × (pass.new.record ≡ pass.old.record) }
        ensures won { (op : L.Op) → slip.now ≡ Some (Asked 0 op) → IfSome result (λ r. (w : View L.Said (Key L.Base)) × LookedOn pass.old.seat.me.0 w × (pass.new.seat.me.0 ≡ holding index r (L.said op) w) × (pass.new.seat.me.1 ≡ (index, None) ∷ pass.old.seat.me.1)) }
        ensures low { IfSome result (λ r. r < last_round) }
        ensures lost { IfNone result (LookedOn pass.old.seat.me.0 pass.new.seat.me.0 × MissedSince pass.new.seat.me.0 pass.old.seat.me.0.clock index × (pass.new.seat.me.1 ≡ pass.old.seat.me.1)) }
    {
        let word = self.look(pass, index);
        if word % 8 != 0 {
            return None;
        }
        let round = word / 8;
        if round >= LAST {
            return None;
        }
        if self.acquire(pass, index, round, slip) {
            Some(round)
        } else {
            None
        }
    }

    // Draws the place of an operation whose token was had, and rings. The token comes first.
    fn give(&self, pass: &mut SeatPair<L>, index: u32, round: u64, op: L::Op) -> (u64, u64)
        requires port { pass.old.seat.table_id ≡ self.now.table.shared.table_id }
        requires at { (index < self.now.count) × (round < last_round) }
        requires held { (w : View L.Said (Key L.Base)) × (pass.old.seat.me.0 ≡ holding index round (L.said op) w) × (pass.old.seat.me.1 ≡ (index, None) ∷ []) }
        requires proper { L.proper self.now.table.shared.key.base (L.said op) }
        ensures port { (pass.new.seat.table_id ≡ pass.old.seat.table_id) × (pass.new.record ≡ pass.old.record) × (pass.new.seat.me.1 ≡ []) }
        ensures token { result.0 ≡ token_of round index }
        ensures above { pass.old.seat.me.0.seen ≤ result.1 }
        ensures fresh { (q : ℕ) (d : L.Said) → Among (q, (token_of round index, d)) pass.old.seat.me.0.mine → ⊥ }
        ensures view { pass.new.seat.me.0 ≡ idling (at_place result.1 (L.said op) pass.old.seat.me.0) }
    {
        let place = self.draw(pass);
        self.ring(pass, index, place, op);
        (round * 1024 + index as u64, place)
    }

    // The operation stands in the history at the place, which is above all that the pass had seen. The token comes first.
    // The token at the index `near` is tried before all others.
    pub(crate) fn submit(
        &self,
        pass: &mut SeatPair<L>,
        near: u32,
        op: L::Op,
    ) -> Result<(u64, u64), L::Op>
        requires port { pass.old.seat.table_id ≡ self.now.table.shared.table_id }
        requires idle { (pass.old.seat.me.0.role ≡ Pass) × (pass.old.seat.me.0.stage ≡ Idle) × (pass.old.seat.me.1 ≡ []) }
        requires proper { L.proper self.now.table.shared.key.base (L.said op) }
        ensures port { (pass.new.seat.table_id ≡ pass.old.seat.table_id) × (pass.new.record ≡ pass.old.record) × (pass.new.seat.me.1 ≡ []) }
        ensures ok { IfOk result (λ r. (i : ℕ) × (q : ℕ) × (u : View L.Said (Key L.Base)) × (r.0 ≡ token_of q i) × LookedOn pass.old.seat.me.0 u × (pass.old.seat.me.0.seen ≤ r.1) × (pass.new.seat.me.0 ≡ idling (at_place r.1 (L.said op) (holding i q (L.said op) u)))) }
        ensures token { IfOk result (λ r. (r.0 % 1024 < self.now.count) × (r.0 / 1024 < last_round)) }
        ensures fresh { IfOk result (λ r. (q : ℕ) (d : L.Said) → Among (q, (r.0, d)) pass.old.seat.me.0.mine → ⊥) }
        ensures full { IfErr result (λ o. (o ≡ op) × LookedOn pass.old.seat.me.0 pass.new.seat.me.0 × ((i : ℕ) → i < self.now.count → MissedSince pass.new.seat.me.0 pass.old.seat.me.0.clock i)) }
    {
        let slip = Some(Slip::Asked(0, op));
        if near < self.count {
            if let Some(round) = self.try_token(pass, near, &slip) {
                let Some(Slip::Asked(_, op)) = slip else {
                    unreachable!()
                };
                return Ok(self.give(pass, near, round, op));
            }
        }
        for index in 0..self.count {
            if let Some(round) = self.try_token(pass, index, &slip) {
                let Some(Slip::Asked(_, op)) = slip else {
                    unreachable!()
                };
                return Ok(self.give(pass, index, round, op));
            }
        }
        let Some(Slip::Asked(_, op)) = slip else {
            unreachable!()
        };
        Err(op)
    }
}
