//! The single steps of the heap's table.
ghost use Rattle.std.specs.Prelude.{◌≡◌, ℕ, ◌+◌, ◌-◌, ◌<◌, ◌≤◌, List, [], ◌∷◌, MatchOption, IsTrue, false};
ghost use Rattle.demi_heap_core.specs.declared.view.Halves.TheVariants.{Neither, Sole, Lent, Device, Both};
ghost use Rattle.demi_heap_core.specs.Owner.{slots, soles, lents, devices};
ghost use Rattle.demi_heap_core.specs.Steps.{view_claimed, view_missed, view_freed, view_lent, view_released, view_reclaimed, view_held, view_rejoined, device_alone, lent_alone, one_less, one_pass, with_lent, half_alone, pass_alone, with_pass};
ghost use Rattle.demi_heap.specs.Rule.{Fits};
ghost use Rattle.demi_heap.specs.Told.{Holds, WasFree, Won};
ghost use Rattle.demi_heap.specs.Seen.{LookedOver, WentRound, looking_as};

use crate::plays::{
    Claims, Deals, FreesLent, FreesSole, Lends, Reclaims, Rejoins, Releases, WithLent, WithPass,
};
use crate::table::{APP, DEV, HeapSeat, Slots};
use demi_buf::Buf;

// Tries to claim the slot for a pass. Where that is won, the seat holds the slot, with its buffer.
pub(crate) fn win(words: &Slots, seat: &mut HeapSeat, slot: usize) -> bool
    requires table { (seat.old.table_id ≡ words.now.table_id) × (words.now.table_id.words ≡ slots words.now.key) × (slot < words.now.table_id.words) }
    requires pass { (seat.old.me.1 ≡ []) × (seat.old.me.0.halves ≡ Neither) × (1 ≤ seat.old.me.0.passes) }
    ensures table { (seat.new.table_id ≡ seat.old.table_id) × (seat.new.id ≡ seat.old.id) }
    ensures won { IsTrue result → (seat.new.me.0 ≡ view_claimed seat.old.me.0 slot) × Holds seat.old.me.0.shape slot seat.new.me.1 × WasFree seat.old.me.0 slot }
    ensures lost { result ≡ false → (t : ℕ) × (seat.old.me.0.clock ≤ t) × (seat.new.me.0 ≡ view_missed seat.old.me.0 t slot) × (seat.new.me.1 ≡ []) }
{
    words.compare_exchange::<Claims>(seat, slot, 0, APP) == 0
}

// Tries the slots from `first` on, below `end`.
pub(crate) fn win_one(words: &Slots, seat: &mut HeapSeat, first: u32, end: u32) -> Option<u32>
    requires table { (seat.old.table_id ≡ words.now.table_id) × (words.now.table_id.words ≡ slots words.now.key) × (end ≤ words.now.table_id.words) × (first ≤ end) }
    requires pass { (seat.old.me.1 ≡ []) × (seat.old.me.0.halves ≡ Neither) × (1 ≤ seat.old.me.0.passes) }
    ensures table { (seat.new.table_id ≡ seat.old.table_id) × (seat.new.id ≡ seat.old.id) }
    ensures clock { seat.old.me.0.clock ≤ seat.new.me.0.clock }
    ensures looks { MatchOption result (LookedOver seat.old.me.0.clock first end seat.old.me.0.missed seat.new.me.0.missed) (λ r. LookedOver seat.old.me.0.clock first r seat.old.me.0.missed seat.new.me.0.missed) }
    ensures won { MatchOption result (seat.new.me ≡ (looking_as seat.old.me.0 seat.new.me.0, [])) (λ r. (first ≤ r) × (r < end) × Won seat.old.me.0 seat.new.me r) }
{
    for slot in first..end {
        if win(words, seat, slot as usize) {
            return Some(slot);
        }
    }
    None
}

// Tries the slots from `first` on, below `end`, each once: from `start` on to the end, and then from the first on.
pub(crate) fn win_round(
    words: &Slots,
    seat: &mut HeapSeat,
    first: u32,
    start: u32,
    end: u32,
) -> Option<u32>
    requires table { (seat.old.table_id ≡ words.now.table_id) × (words.now.table_id.words ≡ slots words.now.key) × (end ≤ words.now.table_id.words) }
    requires start { (first ≤ start) × (start ≤ end) × (first < end → start < end) }
    requires pass { (seat.old.me.1 ≡ []) × (seat.old.me.0.halves ≡ Neither) × (1 ≤ seat.old.me.0.passes) }
    ensures table { (seat.new.table_id ≡ seat.old.table_id) × (seat.new.id ≡ seat.old.id) }
    ensures clock { seat.old.me.0.clock ≤ seat.new.me.0.clock }
    ensures looks { MatchOption result (LookedOver seat.old.me.0.clock first end seat.old.me.0.missed seat.new.me.0.missed) (λ r. WentRound seat.old.me.0.clock first end r seat.old.me.0.missed seat.new.me.0.missed) }
    ensures won { MatchOption result (seat.new.me ≡ (looking_as seat.old.me.0 seat.new.me.0, [])) (λ r. (first ≤ r) × (r < end) × Won seat.old.me.0 seat.new.me r) }
{
    match win_one(words, seat, start, end) {
        Some(slot) => Some(slot),
        None => win_one(words, seat, first, start),
    }
}

// Takes the buffer of a slot that the seat holds.
pub(crate) fn take_out(words: &Slots, seat: &mut HeapSeat, slot: usize) -> Buf
    requires table { seat.old.table_id ≡ words.now.table_id }
    requires holds { Holds seat.old.me.0.shape slot seat.old.me.1 }
    ensures table { (seat.new.table_id ≡ seat.old.table_id) × (seat.new.id ≡ seat.old.id) }
    ensures taken { (seat.new.me ≡ (seat.old.me.0, (slot, None) ∷ [])) × Fits seat.old.me.0.shape slot result }
{
    words.exchange(seat, slot, None).unwrap()
}

// Puts the buffer of a sole half home and frees the slot, once the half's seat has taken in the pass.
pub(crate) fn put_home(words: &Slots, seat: &mut HeapSeat, slot: usize, buf: Buf)
    requires table { (seat.old.table_id ≡ words.now.table_id) × (words.now.table_id.words ≡ slots words.now.key) × (slot < words.now.table_id.words) }
    requires half { (seat.old.me.1 ≡ (slot, None) ∷ []) × (seat.old.me.0.halves ≡ Sole) × (seat.old.me.0.slot ≡ slot) × (1 ≤ seat.old.me.0.passes) }
    requires buffer { Fits seat.old.me.0.shape slot buf }
    ensures table { (seat.new.table_id ≡ seat.old.table_id) × (seat.new.id ≡ seat.old.id) }
    ensures freed { (seat.new.me.0 ≡ view_freed seat.old.me.0) × (seat.new.me.1 ≡ []) }
{
    match words.exchange(seat, slot, Some(buf)) {
        None => {}
        Some(_) => unreachable!(),
    }
    words.fetch_and::<FreesSole>(seat, slot, !APP);
}

// Lends the buffer of a sole half. The seat then has both halves.
pub(crate) fn lend_out(words: &Slots, seat: &mut HeapSeat, slot: usize, buf: Buf) -> Buf
    requires table { (seat.old.table_id ≡ words.now.table_id) × (slot < words.now.table_id.words) }
    requires half { (seat.old.me.1 ≡ (slot, None) ∷ []) × (seat.old.me.0.halves ≡ Sole) × (seat.old.me.0.slot ≡ slot) × (1 ≤ seat.old.me.0.passes) }
    requires buffer { Fits seat.old.me.0.shape slot buf }
    ensures table { (seat.new.table_id ≡ seat.old.table_id) × (seat.new.id ≡ seat.old.id) }
    ensures lent { (seat.new.me ≡ (view_lent seat.old.me.0 buf, (slot, None) ∷ [])) × (result ≡ buf) }
{
    match words.exchange(seat, slot, Some(buf)) {
        None => {}
        Some(_) => unreachable!(),
    }
    words.fetch_or::<Lends>(seat, slot, DEV);
    words.exchange(seat, slot, None).unwrap()
}

// Frees a lent half. The answer is whether the slot is then free, which no clause says: it serves the pass's next claim.
pub(crate) fn let_go(words: &Slots, seat: &mut HeapSeat, slot: usize) -> bool
    requires table { (seat.old.table_id ≡ words.now.table_id) × (slot < words.now.table_id.words) }
    requires half { (seat.old.me.0.halves ≡ Lent) × (seat.old.me.0.slot ≡ slot) × (1 ≤ seat.old.me.0.passes) }
    ensures table { (seat.new.table_id ≡ seat.old.table_id) × (seat.new.id ≡ seat.old.id) }
    ensures freed { (seat.new.me.0 ≡ view_freed seat.old.me.0) × (seat.new.me.1 ≡ seat.old.me.1) }
{
    words.fetch_and::<FreesLent>(seat, slot, !APP) == APP
}

// Puts the buffer of a device half home, and ends the half. The answer is whether the slot is then free, as in `let_go`.
pub(crate) fn put_back(words: &Slots, seat: &mut HeapSeat, slot: usize, buf: Buf) -> bool
    requires table { (seat.old.table_id ≡ words.now.table_id) × (slot < words.now.table_id.words) }
    requires half { (seat.old.me.1 ≡ (slot, None) ∷ []) × (seat.old.me.0.halves ≡ Device) × (seat.old.me.0.slot ≡ slot) × (1 ≤ seat.old.me.0.passes) }
    requires buffer { Fits seat.old.me.0.shape slot buf × (seat.old.me.0.lent ≡ Some buf) }
    ensures table { (seat.new.table_id ≡ seat.old.table_id) × (seat.new.id ≡ seat.old.id) }
    ensures freed { (seat.new.me.0 ≡ view_released seat.old.me.0) × (seat.new.me.1 ≡ []) }
{
    match words.exchange(seat, slot, Some(buf)) {
        None => {}
        Some(_) => unreachable!(),
    }
    words.fetch_and::<Releases>(seat, slot, !DEV) == DEV
}

// Looks whether the device half has ended, and then makes the lent half sole.
pub(crate) fn look(words: &Slots, seat: &mut HeapSeat, slot: usize) -> Option<Buf>
    requires table { (seat.old.table_id ≡ words.now.table_id) × (slot < words.now.table_id.words) }
    requires half { (seat.old.me.1 ≡ []) × (seat.old.me.0.halves ≡ Lent) × (seat.old.me.0.slot ≡ slot) }
    ensures table { (seat.new.table_id ≡ seat.old.table_id) × (seat.new.id ≡ seat.old.id) }
    ensures sole { MatchOption result ((t : ℕ) × (seat.old.me.0.half_clock ≤ t) × (seat.new.me.0 ≡ view_held seat.old.me.0 t slot) × (seat.new.me.1 ≡ [])) (λ b. (seat.new.me.0 ≡ view_reclaimed seat.old.me.0) × (seat.new.me.1 ≡ (slot, None) ∷ []) × (seat.old.me.0.lent ≡ Some b)) }
{
    if words.load::<Reclaims>(seat, slot) >= DEV {
        return None;
    }
    words.exchange(seat, slot, None)
}

// Ends the device half, once its seat has taken in the lent half and the pass.
pub(crate) fn take_over(words: &Slots, seat: &mut HeapSeat, slot: usize)
    requires table { (seat.old.table_id ≡ words.now.table_id) × (slot < words.now.table_id.words) }
    requires half { (seat.old.me.0.halves ≡ Both) × (seat.old.me.0.slot ≡ slot) × (1 ≤ seat.old.me.0.passes) }
    ensures table { (seat.new.table_id ≡ seat.old.table_id) × (seat.new.id ≡ seat.old.id) }
    ensures sole { (seat.new.me.0 ≡ view_rejoined seat.old.me.0) × (seat.new.me.1 ≡ seat.old.me.1) }
{
    words.fetch_and::<Rejoins>(seat, slot, !DEV);
}

// The pass goes off to a seat of its own.
pub(crate) fn part_pass(words: &Slots, seat: &mut HeapSeat) -> HeapSeat
    requires { (seat.old.table_id ≡ words.now.table_id) × (0 < words.now.table_id.words) }
    ensures table { (seat.new.table_id ≡ seat.old.table_id) × (seat.new.id ≡ seat.old.id) × (result.table_id ≡ seat.old.table_id) }
    ensures half { seat.new.me ≡ (half_alone seat.old.me.0, seat.old.me.1) }
    ensures pass { result.me ≡ (pass_alone seat.old.me.0, []) }
{
    words.split_seat::<WithPass>(seat)
}

// The half takes in a pass.
pub(crate) fn take_pass(words: &Slots, seat: &mut HeapSeat, pass: HeapSeat)
    requires table { (seat.old.table_id ≡ words.now.table_id) × (pass.table_id ≡ words.now.table_id) × (0 < words.now.table_id.words) }
    requires half { 1 ≤ seat.old.me.0.passes + (soles seat.old.me.0.halves + lents seat.old.me.0.halves + devices seat.old.me.0.halves) }
    requires pass { (pass.me.1 ≡ []) × (pass.me.0.halves ≡ Neither) × (pass.me.0.guest.halves ≡ Neither) }
    ensures table { (seat.new.table_id ≡ seat.old.table_id) × (seat.new.id ≡ seat.old.id) }
    ensures both { seat.new.me ≡ (with_pass seat.old.me.0 pass.me.0, seat.old.me.1) }
{
    words.join_seat::<WithPass>(seat, pass);
}

// The lent half goes off to a seat of its own.
pub(crate) fn part_lent(words: &Slots, seat: &mut HeapSeat) -> HeapSeat
    requires { (seat.old.table_id ≡ words.now.table_id) × (0 < words.now.table_id.words) × (seat.old.me.0.halves ≡ Both) }
    ensures table { (seat.new.table_id ≡ seat.old.table_id) × (seat.new.id ≡ seat.old.id) × (result.table_id ≡ seat.old.table_id) }
    ensures device { seat.new.me ≡ (device_alone seat.old.me.0, seat.old.me.1) }
    ensures lent { result.me ≡ (lent_alone seat.old.me.0, []) }
{
    words.split_seat::<WithLent>(seat)
}

// The seat of a device half takes in the lent half of its slot.
pub(crate) fn take_lent(words: &Slots, seat: &mut HeapSeat, lent: HeapSeat)
    requires table { (seat.old.table_id ≡ words.now.table_id) × (lent.table_id ≡ words.now.table_id) × (0 < words.now.table_id.words) }
    requires device { seat.old.me.0.halves ≡ Device }
    requires lent { (lent.me.1 ≡ []) × (lent.me.0.halves ≡ Lent) × (lent.me.0.slot ≡ seat.old.me.0.slot) × (lent.me.0.passes ≡ 0) × (lent.me.0.guest.halves ≡ Neither) }
    ensures table { (seat.new.table_id ≡ seat.old.table_id) × (seat.new.id ≡ seat.old.id) }
    ensures both { seat.new.me ≡ (with_lent seat.old.me.0, seat.old.me.1) }
{
    words.join_seat::<WithLent>(seat, lent);
}

// One pass of several goes off to a seat of its own.
pub(crate) fn deal_one(words: &Slots, seat: &mut HeapSeat) -> HeapSeat
    requires { (seat.old.table_id ≡ words.now.table_id) × (0 < words.now.table_id.words) × (seat.old.me.0.halves ≡ Neither) × (2 ≤ seat.old.me.0.passes) }
    ensures table { (seat.new.table_id ≡ seat.old.table_id) × (result.table_id ≡ seat.old.table_id) }
    ensures left { seat.new.me ≡ (one_less seat.old.me.0, seat.old.me.1) }
    ensures one { result.me ≡ (one_pass seat.old.me.0, []) }
{
    words.split_seat::<Deals>(seat)
}
