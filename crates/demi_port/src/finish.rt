//! How an outcome goes into a slot, with the ground and the trail that it stands on.
ghost use Rattle.std.specs.Prelude.{◌≡◌, ◌≢◌, ℕ, ◌%◌, ◌/◌, ◌<◌, [], ◌∷◌, ◌++◌, true, None};
ghost use Rattle.demi_port_core.specs.History.{Among, Each, ground_of};
ghost use Rattle.demi_port_core.specs.Phases.{last_round};
ghost use Rattle.demi_port_core.specs.Told.{finishing, waking, opening, bit, OwesNothing};
ghost use Rattle.demi_port_core.specs.Trails.{MayTell, told_at, Behind, StartsWith, grown, copy_of};
ghost use Rattle.demi_port.specs.Seen.{above_all, NoneOwed};
ghost use Rattle.demi_port_core.specs.declared.view.Role.TheVariants.{Device};
ghost use Rattle.demi_port_core.specs.declared.view.Stage.TheVariants.{Idle, Opened};

use crate::device_seat::DeviceSeat;
use crate::plays::{Aim, Aimed, Copied, Finished, Opens, Woke};
use crate::port::Port;
use crate::tables::{SeatPair, Tables};
use atomic_table::Badge;
use demi_port_core::{FIRST_TOKEN, Law, Slip, TOKEN_STEP, Token, Trail, WAKERS};
use std::marker::Brand;

impl<L: Law> Port<L> {
    /// The outcome of an operation that was fetched and not finished. Afterwards its token is done, its waker bit was set, and who sleeps at the port's bells is woken.
    /// Where the outcome tells something, no greater place was finished. It is admitted by the operations of the first places, as long as each was fetched, and by what was told with what it tells.
    pub fn finish(&self, seat: &mut DeviceSeat<L>, token: Token, out: L::Out)
        requires port { seat.old.port ≡ self.now }
        requires fetched { (p : ℕ) × (d : L.Said) × Among (p, (token.0, d)) seat.old.fetched × Each (λ x. x.0 ≢ p) seat.old.finished × MayTell (above_all seat.old.finished) p (L.told out) × L.admits self.now.key.base (ground_of seat.old.fetched) (seat.old.trail ++ told_at p (L.told out)) p out }
        ensures finished { (p : ℕ) (d : L.Said) → Among (p, (token.0, d)) seat.old.fetched → Each (λ x. x.0 ≢ p) seat.old.finished → seat.new ≡ record seat.old { finished = seat.old.finished ++ (p, token.0) ∷ []; trail = seat.old.trail ++ told_at p (L.told out); owes = seat.new.owes } }
        ensures woken { NoneOwed seat.new.owes }
    {
        self.tables.finish(&mut seat.pair, token.0, out);
        self.callers.ring();
    }
}

impl<L: Law> Tables<L> {
    // The device's record seat comes to know the aim.
    fn extend<M: Aim<Trail<L::Said, L::Told>>>(
        &self,
        seat: &mut SeatPair<L>,
        _place: u64,
        _out: &L::Out,
    )
        requires port { seat.old.record.table_id ≡ self.now.records.shared.table_id }
        requires grows { (seat.old.record.me.0.device ≡ true) × (M.view.device ≡ true) × (M.view.handed ≡ seat.old.record.me.0.handed) × Behind M.view seat.old.record.me.0 }
        ensures tokens { seat.new.seat ≡ seat.old.seat }
        ensures port { (seat.new.record.table_id ≡ seat.old.record.table_id) × (seat.new.record.me.1 ≡ seat.old.record.me.1) }
        ensures view { seat.new.record.me.0 ≡ M.view }
    {
        self.records.shared.load::<Aimed<M>>(&mut seat.record, 0);
    }

    // A copy of the record seat, to lie beside an outcome.
    fn copy(&self, seat: &mut SeatPair<L>) -> Badge<Trail<L::Said, L::Told>>
        requires port { seat.old.record.table_id ≡ self.now.records.shared.table_id }
        ensures tokens { seat.new.seat ≡ seat.old.seat }
        ensures port { (seat.new.record.table_id ≡ seat.old.record.table_id) × (seat.new.record.me ≡ seat.old.record.me) }
        ensures copy { (result.table_id ≡ self.now.records.shared.table_id) × (result.views ≡ copy_of seat.old.record.me.0 ∷ []) }
    {
        let copy = self.records.shared.split_seat::<Copied>(&mut seat.record);
        copy.into_badge()
    }

    // The outcome goes into the slot, and the token is done.
    fn answer(&self, seat: &mut SeatPair<L>, index: u32, round: u64, place: u64, out: L::Out)
        requires port { (seat.old.seat.table_id ≡ self.now.table.shared.table_id) × (seat.old.record.table_id ≡ self.now.records.shared.table_id) × (seat.old.record.me.1 ≡ []) }
        requires at { (index < self.now.count) × (round < last_round) }
        requires held { (seat.old.seat.me.0.role ≡ Device) × (seat.old.seat.me.0.stage ≡ Opened) × (seat.old.seat.me.0.index ≡ index) × (seat.old.seat.me.0.round ≡ round) × (seat.old.seat.me.0.place ≡ place) × (seat.old.seat.me.1 ≡ (index, None) ∷ []) }
        requires device { (seat.old.record.me.0.device ≡ true) × StartsWith (ground_of seat.old.seat.me.0.fetched) seat.old.record.me.0.heard }
        requires may_tell { MayTell seat.old.record.me.0.floor place (L.told out) }
        requires admitted { let w = grown (ground_of seat.old.seat.me.0.fetched) place (L.told out) seat.old.record.me.0 in L.admits self.now.table.shared.key.base w.heard w.told place out }
        ensures tokens { (seat.new.seat.table_id ≡ seat.old.seat.table_id) × (seat.new.seat.me.0 ≡ finishing seat.old.seat.me.0) × (seat.new.seat.me.1 ≡ []) }
        ensures record { (seat.new.record.table_id ≡ seat.old.record.table_id) × (seat.new.record.me.0 ≡ grown (ground_of seat.old.seat.me.0.fetched) place (L.told out) seat.old.record.me.0) × (seat.new.record.me.1 ≡ []) }
    {
        self.extend::<Brand>(seat, place, &out);
        let beside = self.copy(seat);
        let slip = Some(Slip::Answered(place, out, beside));
        match self
            .table
            .shared
            .exchange(&mut seat.seat, index as usize, slip)
        {
            None => {}
            Some(_) => unreachable!(),
        }
        self.table.shared.store::<Finished>(
            &mut seat.seat,
            index as usize * TOKEN_STEP + FIRST_TOKEN,
            round * 8 + 2,
        );
    }

    // The place of a token whose operation was fetched. Its slot is out with the device.
    fn lay_open(&self, device: &mut SeatPair<L>, index: u32) -> u64
        requires port { device.old.seat.table_id ≡ self.now.table.shared.table_id }
        requires at { index < self.now.count }
        requires idle { (device.old.seat.me.0.role ≡ Device) × (device.old.seat.me.0.stage ≡ Idle) × (device.old.seat.me.1 ≡ []) }
        requires pending { (r : ℕ) × (p : ℕ) × Among (index, (r, p)) device.old.seat.me.0.pending }
        ensures port { (device.new.seat.table_id ≡ device.old.seat.table_id) × (device.new.record ≡ device.old.record) }
        ensures open { (r : ℕ) (p : ℕ) → Among (index, (r, p)) device.old.seat.me.0.pending → (result ≡ p) × (device.new.seat.me ≡ (opening index r p device.old.seat.me.0, (index, None) ∷ [])) }
    {
        self.table.shared.load::<Opens<L>>(
            &mut device.seat,
            index as usize * TOKEN_STEP + FIRST_TOKEN,
        );
        let slip = self
            .table
            .shared
            .exchange(&mut device.seat, index as usize, None);
        let Some(Slip::Fetched(place)) = slip else {
            unreachable!()
        };
        place
    }

    // The device pays the wake that it owes.
    fn wake(&self, device: &mut SeatPair<L>, index: u32)
        requires port { device.old.seat.table_id ≡ self.now.table.shared.table_id }
        requires at { index < self.now.count }
        ensures port { (device.new.seat.table_id ≡ device.old.seat.table_id) × (device.new.record ≡ device.old.record) }
        ensures view { device.new.seat.me ≡ (waking (bit index) device.old.seat.me.0, device.old.seat.me.1) }
    {
        self.table
            .shared
            .fetch_or::<Woke>(&mut device.seat, WAKERS, 1 << index);
    }

    // The outcome of an operation that was fetched and not finished. It is admitted by the ground and by the trail with what it tells.
    pub(crate) fn finish(&self, device: &mut SeatPair<L>, token: u64, out: L::Out)
        requires port { (device.old.seat.table_id ≡ self.now.table.shared.table_id) × (device.old.record.table_id ≡ self.now.records.shared.table_id) × (device.old.record.me.1 ≡ []) }
        requires token { (token % 1024 < self.now.count) × (token / 1024 < last_round) }
        requires idle { (device.old.seat.me.0.role ≡ Device) × (device.old.seat.me.0.stage ≡ Idle) × (device.old.seat.me.1 ≡ []) }
        requires device { (device.old.record.me.0.device ≡ true) × StartsWith (ground_of device.old.seat.me.0.fetched) device.old.record.me.0.heard }
        requires pending { (p : ℕ) × Among (token % 1024, (token / 1024, p)) device.old.seat.me.0.pending × MayTell device.old.record.me.0.floor p (L.told out) × (let w = grown (ground_of device.old.seat.me.0.fetched) p (L.told out) device.old.record.me.0 in L.admits self.now.table.shared.key.base w.heard w.told p out) }
        ensures tokens { (device.new.seat.table_id ≡ device.old.seat.table_id) × (device.new.seat.me.1 ≡ []) × ((p : ℕ) → Among (token % 1024, (token / 1024, p)) device.old.seat.me.0.pending → device.new.seat.me.0 ≡ waking (bit (token % 1024)) (finishing (opening (token % 1024) (token / 1024) p device.old.seat.me.0))) }
        ensures trail { (device.new.record.table_id ≡ device.old.record.table_id) × (device.new.record.me.1 ≡ []) × ((p : ℕ) → Among (token % 1024, (token / 1024, p)) device.old.seat.me.0.pending → device.new.record.me.0 ≡ grown (ground_of device.old.seat.me.0.fetched) p (L.told out) device.old.record.me.0) }
        ensures owes { OwesNothing device.old.seat.me.0 → OwesNothing device.new.seat.me.0 }
        ensures only { (r p r' p' : ℕ) → Among (token % 1024, (r, p)) device.old.seat.me.0.pending → Among (token % 1024, (r', p')) device.old.seat.me.0.pending → (r ≡ r') × (p ≡ p') }
    {
        let index = (token % 1024) as u32;
        let round = token / 1024;
        let place = self.lay_open(device, index);
        self.answer(device, index, round, place, out);
        self.wake(device, index);
    }
}
