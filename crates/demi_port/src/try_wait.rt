//! How an outcome comes out of a slot, with the ground and the trail that it stands on.
ghost use Rattle.std.specs.Prelude.{◌≡◌, ◌≢◌, ℕ, ◌+◌, ◌*◌, ◌/◌, ◌%◌, ◌<◌, ◌≤◌, ◌⊎◌, [], ◌∷◌, ◌++◌, IfOk, IfErr, List, false, Some};
ghost use Rattle.demi_port_core.specs.History.{Among, Each, times};
ghost use Rattle.demi_port_core.specs.Phases.{last_round, token_of};
ghost use Rattle.demi_port_core.specs.Told.{clear, looking, idling, redeems, glanced, FoundWord, SameSeat};
ghost use Rattle.demi_port_core.specs.Trails.{Behind, caught_up, handed_over, as_trail};
ghost use Rattle.demi_port.specs.Tries.{IfReady, IfNotYet, IfSpent, IfUnknown};
ghost use Rattle.demi_port.specs.Seen.{Later, Saw, Found, StandsOn, known_by};
ghost use Rattle.demi_port_core.specs.Entries.{IsFetched};
ghost use Rattle.demi_port_core.specs.declared.view.Role.TheVariants.{Pass};
ghost use Rattle.demi_port_core.specs.declared.view.Stage.TheVariants.{Idle};
ghost use Rattle.demi_port_core.specs.Answers.{Admitted};
ghost use Rattle.demi_port_core.specs.declared.trail.Trail.{Trail};
ghost use Rattle.demi_port_core.specs.Words.{token_word};

use crate::LAST;
use crate::pass::PortPass;
use crate::plays::{Caught, Gave, Handed, Redeemed};
use crate::port::Port;
use crate::redeem::Redeem;
use crate::tables::{SeatPair, Tables};
use atomic_table::Badge;
use demi_port_core::{FIRST_TOKEN, Law, Place, Slip, TOKEN_STEP, Token, Trail};

impl<L: Law> Port<L> {
    /// Redeems the token if its operation is finished, and gives the operation's place and outcome: `Ready` only where this call found the token done.
    /// The pass knows then the ground and the trail that the outcome stands on, by which the law admits it, and none of them is ever taken back.
    /// Each other answer says what this call found. `Unknown` is never one for a token with which this pass has submitted.
    pub fn try_wait(&self, pass: &mut PortPass<L>, token: Token) -> Redeem<L>
        requires port { pass.old.port ≡ self.now }
        ensures same { (pass.new.port ≡ pass.old.port) × (pass.new.number ≡ pass.old.number) }
        ensures ready { IfReady result (λ p out. L.admits self.now.key.base pass.new.heard pass.new.trail p out × (p < pass.new.floor)) }
        ensures redeemed { IfReady result (λ p _. pass.new ≡ record pass.old { clock = pass.new.clock; looks = pass.new.looks; redeemed = pass.old.redeemed ++ (p, token.0) ∷ []; owes = clear (token.0 % 1024) pass.old.owes; heard = pass.new.heard; trail = pass.new.trail; floor = pass.new.floor }) }
        ensures done { IfReady result (λ _ _. Saw pass.old pass.new (token_word (token.0 % 1024)) (token.0 / 1024 * 8 + 2)) }
        ensures own { IfReady result (λ p _. (q : ℕ) (d : L.Said) → Among (q, (token.0, d)) pass.old.submitted → q ≡ p) }
        ensures said { IfReady result (λ p out. StandsOn (λ h t n. L.admits self.now.key.base h t n out) token.0 p pass.old pass.new) }
        ensures once { IfReady result (λ _ _. times token.0 pass.old.redeemed ≡ 0) }
        ensures looks { Later pass.old pass.new }
        ensures grows { Behind (known_by pass.new) (known_by pass.old) }
        ensures known { IfUnknown result (Each (λ x. x.1.0 ≢ token.0) pass.old.submitted) }
        ensures not_yet { IfNotYet result (Found pass.old pass.new token.0 (λ n. n ≡ token.0 / 1024 * 8 + 1)) }
        ensures spent { IfSpent result (Found pass.old pass.new token.0 (λ n. (token.0 / 1024 < n / 8) ⊎ (n ≡ token.0 / 1024 * 8 + 3))) }
        ensures unknown { IfUnknown result ((((self.now.tokens.slots ≤ token.0 % 1024) ⊎ (last_round ≤ token.0 / 1024)) × (pass.new ≡ pass.old)) ⊎ Found pass.old pass.new token.0 (λ n. (n / 8 < token.0 / 1024) ⊎ (n ≡ token.0 / 1024 * 8))) }
    {
        pass.near = (token.0 % 1024) as u32;
        self.tables.try_wait(&mut pass.pair, token.0)
    }
}

impl<L: Law> Tables<L> {
    // The pass takes in what lay beside an outcome.
    fn take_in(&self, pass: &mut SeatPair<L>, beside: Badge<Trail<L::Said, L::Told>>)
        requires port { (pass.old.record.table_id ≡ self.now.records.shared.table_id) × (beside.table_id ≡ self.now.records.shared.table_id) }
        requires plain { (pass.old.record.me.0.device ≡ false) × (pass.old.record.me.0.handed ≡ []) × ((v : Trail L.Said L.Told) × (beside.views ≡ v ∷ []) × (v.device ≡ false)) }
        ensures tokens { pass.new.seat ≡ pass.old.seat }
        ensures port { (pass.new.record.table_id ≡ pass.old.record.table_id) × (pass.new.record.me.1 ≡ pass.old.record.me.1) }
        ensures plain { pass.new.record.me.0.device ≡ false }
        ensures empty { pass.new.record.me.0.handed ≡ [] }
        ensures view { (v : Trail L.Said L.Told) → beside.views ≡ v ∷ [] → (pass.new.record.me.0 ≡ caught_up pass.old.record.me.0 (handed_over v)) × Behind pass.new.record.me.0 pass.old.record.me.0 × Behind pass.new.record.me.0 (as_trail (handed_over v)) }
    {
        let other = beside.into_seat::<()>();
        self.records
            .shared
            .join_seat::<Handed>(&mut pass.record, other);
        self.records.shared.load::<Caught>(&mut pass.record, 0);
    }

    // The outcome of a token that is done, with its place; or else the word that was found.
    fn redeem(&self, pass: &mut SeatPair<L>, index: u32, round: u64) -> Result<(u64, L::Out), u64>
        requires port { (pass.old.seat.table_id ≡ self.now.table.shared.table_id) × (pass.old.record.table_id ≡ self.now.records.shared.table_id) × (pass.old.seat.me.0.key ≡ Some self.now.table.shared.key) }
        requires at { (index < self.now.count) × (round < last_round) }
        requires idle { (pass.old.seat.me.0.stage ≡ Idle) × (pass.old.seat.me.1 ≡ []) × (pass.old.record.me.0.device ≡ false) × (pass.old.record.me.0.handed ≡ []) × (pass.old.seat.me.0.role ≡ Pass) }
        ensures ready { IfOk result (λ r. (log : List (ℕ × (ℕ × L.Said))) × (v : Trail L.Said L.Told) × Admitted (L.admits self.now.table.shared.key.base) log r.0 r.1 v × (pass.new.record.me.0 ≡ caught_up pass.old.record.me.0 (handed_over v)) × Behind pass.new.record.me.0 pass.old.record.me.0 × Behind pass.new.record.me.0 (as_trail (handed_over v)) × ((q : ℕ) (d : L.Said) → Among (q, (token_of round index, d)) pass.old.seat.me.0.mine → IsFetched log (q, (token_of round index, d)))) }
        ensures done { IfOk result (λ r. (t : ℕ) × (pass.old.seat.me.0.clock ≤ t) × (pass.new.seat.me.0 ≡ idling (redeems index round r.0 (looking t (token_word index) (round * 8 + 2) pass.old.seat.me.0))) × (pass.new.seat.me.1 ≡ [])) }
        ensures still { SameSeat pass.old.seat.me.0 pass.new.seat.me.0 × (pass.new.record.me.0.device ≡ false) × (pass.new.record.me.0.handed ≡ []) }
        ensures grows { Behind pass.new.record.me.0 pass.old.record.me.0 }
        ensures fresh { IfOk result (λ _. times (token_of round index) pass.old.seat.me.0.redeemed ≡ 0) }
        ensures own { IfOk result (λ r. (q : ℕ) (d : L.Said) → Among (q, (token_of round index, d)) pass.old.seat.me.0.mine → q ≡ r.0) }
        ensures port { (pass.new.seat.table_id ≡ pass.old.seat.table_id) × (pass.new.record.table_id ≡ pass.old.record.table_id) × (pass.new.record.me.1 ≡ pass.old.record.me.1) }
        ensures drawn { IfErr result (λ n. (q : ℕ) (d : L.Said) → Among (q, (token_of round index, d)) pass.old.seat.me.0.mine → round * 8 < n) }
        ensures lost { IfErr result (λ n. (t : ℕ) × (n ≢ round * 8 + 2) × (n % 8 < 4) × (pass.old.seat.me.0.clock ≤ t) × (pass.new.seat.me.0 ≡ glanced index n (looking t (token_word index) n pass.old.seat.me.0)) × (pass.new.seat.me.1 ≡ []) × (pass.new.record.me.0 ≡ pass.old.record.me.0)) }
    {
        let found = self.table.shared.compare_exchange::<Redeemed<L>>(
            &mut pass.seat,
            index as usize * TOKEN_STEP + FIRST_TOKEN,
            round * 8 + 2,
            round * 8 + 3,
        );
        if found != round * 8 + 2 {
            return Err(found);
        }
        let slip = self
            .table
            .shared
            .exchange(&mut pass.seat, index as usize, None);
        let Some(Slip::Answered(place, out, beside)) = slip else {
            unreachable!()
        };
        self.take_in(pass, beside);
        self.table.shared.store::<Gave>(
            &mut pass.seat,
            index as usize * TOKEN_STEP + FIRST_TOKEN,
            (round + 1) * 8,
        );
        Ok((place, out))
    }

    // Redeems the token if its operation is done.
    pub(crate) fn try_wait(&self, pass: &mut SeatPair<L>, token: u64) -> Redeem<L>
        requires port { (pass.old.seat.table_id ≡ self.now.table.shared.table_id) × (pass.old.record.table_id ≡ self.now.records.shared.table_id) × (pass.old.seat.me.0.key ≡ Some self.now.table.shared.key) }
        requires idle { (pass.old.seat.me.0.stage ≡ Idle) × (pass.old.seat.me.1 ≡ []) × (pass.old.record.me.0.device ≡ false) × (pass.old.record.me.0.handed ≡ []) × (pass.old.seat.me.0.role ≡ Pass) }
        ensures port { (pass.new.seat.table_id ≡ pass.old.seat.table_id) × (pass.new.record.table_id ≡ pass.old.record.table_id) × (pass.new.seat.me.1 ≡ []) × (pass.new.record.me.1 ≡ pass.old.record.me.1) }
        ensures ready { IfReady result (λ p out. (log : List (ℕ × (ℕ × L.Said))) × (v : Trail L.Said L.Told) × Admitted (L.admits self.now.table.shared.key.base) log p out v × (pass.new.record.me.0 ≡ caught_up pass.old.record.me.0 (handed_over v)) × Behind pass.new.record.me.0 pass.old.record.me.0 × Behind pass.new.record.me.0 (as_trail (handed_over v)) × ((q : ℕ) (d : L.Said) → Among (q, (token, d)) pass.old.seat.me.0.mine → IsFetched log (q, (token, d)))) }
        ensures redeemed { IfReady result (λ p _. (t : ℕ) × (pass.old.seat.me.0.clock ≤ t) × (pass.new.seat.me.0 ≡ idling (redeems (token % 1024) (token / 1024) p (looking t (token_word (token % 1024)) (token / 1024 * 8 + 2) pass.old.seat.me.0)))) }
        ensures still { SameSeat pass.old.seat.me.0 pass.new.seat.me.0 × (pass.new.record.me.0.device ≡ false) × (pass.new.record.me.0.handed ≡ []) }
        ensures grows { Behind pass.new.record.me.0 pass.old.record.me.0 }
        ensures fresh { IfReady result (λ _ _. times token pass.old.seat.me.0.redeemed ≡ 0) }
        ensures own { IfReady result (λ p _. (q : ℕ) (d : L.Said) → Among (q, (token, d)) pass.old.seat.me.0.mine → q ≡ p) }
        ensures not_yet { IfNotYet result (FoundWord pass.old.seat.me.0 pass.new.seat.me.0 token (λ n. n ≡ token / 1024 * 8 + 1) × (pass.new.record.me.0 ≡ pass.old.record.me.0)) }
        ensures spent { IfSpent result (FoundWord pass.old.seat.me.0 pass.new.seat.me.0 token (λ n. (token / 1024 < n / 8) ⊎ (n ≡ token / 1024 * 8 + 3)) × (pass.new.record.me.0 ≡ pass.old.record.me.0)) }
        ensures unknown { IfUnknown result ((((self.now.count ≤ token % 1024) ⊎ (last_round ≤ token / 1024)) × (pass.new.seat.me.0 ≡ pass.old.seat.me.0)) ⊎ FoundWord pass.old.seat.me.0 pass.new.seat.me.0 token (λ n. (n / 8 < token / 1024) ⊎ (n ≡ token / 1024 * 8))) }
        ensures known { IfUnknown result ((q : ℕ) (d : L.Said) → Among (q, (token, d)) pass.old.seat.me.0.mine → token % 1024 < self.now.count → token / 1024 < last_round → ⊥) }
        ensures same { IfUnknown result (pass.new.record.me.0 ≡ pass.old.record.me.0) }
    {
        let index = token % 1024;
        let round = token / 1024;
        if index >= self.count as u64 || round >= LAST {
            return Redeem::Unknown;
        }
        match self.redeem(pass, index as u32, round) {
            Ok((place, out)) => Redeem::Ready(Place(place), out),
            Err(word) => {
                if word == round * 8 + 1 {
                    Redeem::NotYet
                } else if word / 8 > round || word == round * 8 + 3 {
                    Redeem::Spent
                } else {
                    Redeem::Unknown
                }
            }
        }
    }
}
