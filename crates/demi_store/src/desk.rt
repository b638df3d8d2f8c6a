//! A store that may be stopped, and how it answers an operation.
ghost use Rattle.std.specs.Prelude.{◌≡◌, ◌<◌, ◌≤◌, ℕ, Bool, None, Some, length};
ghost use Rattle.demi_buf.specs.declared.class.Class.TheVariants.{Large as large};
ghost use Rattle.demi_store.specs.declared.op.StoreOp.TheVariants.{Put as put_op, Get as get_op, Stop as stop_op};
ghost use Rattle.demi_store.specs.History.{Stopped, value_bytes};
ghost use Rattle.demi_store.specs.Laws.{BackIs, IsProperOp};
ghost use Rattle.demi_store.specs.Serving.{Answered, Moves, Shows};

use crate::drafting::begin_with;
use crate::marks::State;
use crate::{Back, StoreAnswer, StoreBase, StoreCore, StoreOp, StoreOut};
use demi_core::Disk;
use demi_device::Mark;
use demi_frame::Key;
use demi_heap::AppBuf;
use demi_port_core::Place;
use demi_sga::DevSga;

/// A store, and the place of the first stop.
pub(crate) struct Desk<D: Disk> {
    pub(crate) core: StoreCore<D>,
    pub(crate) stop: Option<Place>,
}

// What was given with an operation that is refused.
fn back_of(op: StoreOp) -> Back
    ensures { (told : Bool) (at : ℕ) → BackIs told (Stopped at) op result }
{
    match op {
        StoreOp::Put {
            link: _,
            index: _,
            key: _,
            value,
        } => match value {
            Some(sga) => Back::Value(sga),
            None => Back::Nothing,
        },
        StoreOp::Get { key: _, room } => Back::Room(room),
        StoreOp::Stop => Back::Nothing,
    }
}

impl<D: Disk> Desk<D> {
    fn put(
        &mut self,
        place: Place,
        link: u16,
        index: u32,
        key: Key,
        value: Option<DevSga>,
        base: &Mark<StoreBase>,
        stands: &Mark<State>,
    ) -> StoreOut
        requires shows { Shows (D.bytes self.old.core.log.disk) self.old.core base.now.value stands.now.value self.old.stop }
        requires calm { self.old.stop ≡ None }
        requires proper { (0 < length key.items) × (length (value_bytes value) ≤ 65536) }
        ensures answered { Answered base.now.value.told base.now.value.limit place.0 (put_op link index key value) stands.now.value (λ s. Shows (D.bytes self.new.core.log.disk) self.new.core base.now.value s self.new.stop) result }
        ensures moves { Moves D.bytes D.held D.faults D.appends D.looks self.old.core.log self.new.core.log (put_op link index key value) result }
    {
        match value {
            None => {
                self.core.begin(link, index, &key);
                let answer = self.core.put(place);
                StoreOut {
                    answer,
                    back: Back::Nothing,
                }
            }
            Some(sga) => {
                begin_with(&mut self.core, link, index, &key, &sga);
                let answer = self.core.put(place);
                StoreOut {
                    answer,
                    back: Back::Value(sga),
                }
            }
        }
    }

    fn get(
        &mut self,
        place: Place,
        key: Key,
        mut room: AppBuf,
        base: &Mark<StoreBase>,
        stands: &Mark<State>,
    ) -> StoreOut
        requires shows { Shows (D.bytes self.old.core.log.disk) self.old.core base.now.value stands.now.value self.old.stop }
        requires calm { self.old.stop ≡ None }
        requires proper { (0 < length key.items) × (room.class ≡ large) }
        ensures answered { Answered base.now.value.told base.now.value.limit place.0 (get_op key room) stands.now.value (λ s. Shows (D.bytes self.new.core.log.disk) self.new.core base.now.value s self.new.stop) result }
        ensures moves { Moves D.bytes D.held D.faults D.appends D.looks self.old.core.log self.new.core.log (get_op key room) result }
    {
        let answer = self.core.fetch(place, &key, &mut room);
        StoreOut {
            answer,
            back: Back::Room(room),
        }
    }

    fn halt(&mut self, place: Place, base: &Mark<StoreBase>, stands: &Mark<State>) -> StoreOut
        requires shows { Shows (D.bytes self.old.core.log.disk) self.old.core base.now.value stands.now.value self.old.stop }
        requires calm { self.old.stop ≡ None }
        ensures answered { Answered base.now.value.told base.now.value.limit place.0 stop_op stands.now.value (λ s. Shows (D.bytes self.new.core.log.disk) self.new.core base.now.value s self.new.stop) result }
        ensures moves { Moves D.bytes D.held D.faults D.appends D.looks self.old.core.log self.new.core.log stop_op result }
    {
        self.stop = Some(place);
        StoreOut {
            answer: StoreAnswer::Halted,
            back: Back::Nothing,
        }
    }

    fn stopped(
        &mut self,
        at: Place,
        place: Place,
        op: StoreOp,
        base: &Mark<StoreBase>,
        stands: &Mark<State>,
    ) -> StoreOut
        requires shows { Shows (D.bytes self.old.core.log.disk) self.old.core base.now.value stands.now.value self.old.stop }
        requires at { self.old.stop ≡ Some at }
        ensures answered { Answered base.now.value.told base.now.value.limit place.0 op stands.now.value (λ s. Shows (D.bytes self.new.core.log.disk) self.new.core base.now.value s self.new.stop) result }
        ensures moves { Moves D.bytes D.held D.faults D.appends D.looks self.old.core.log self.new.core.log op result }
    {
        StoreOut {
            answer: StoreAnswer::Stopped(at),
            back: back_of(op),
        }
    }

    /// The operation of a place.
    pub(crate) fn answer(
        &mut self,
        place: Place,
        op: StoreOp,
        base: &Mark<StoreBase>,
        stands: &Mark<State>,
    ) -> StoreOut
        requires shows { Shows (D.bytes self.old.core.log.disk) self.old.core base.now.value stands.now.value self.old.stop }
        requires proper { IsProperOp op }
        ensures answered { Answered base.now.value.told base.now.value.limit place.0 op stands.now.value (λ s. Shows (D.bytes self.new.core.log.disk) self.new.core base.now.value s self.new.stop) result }
        ensures moves { Moves D.bytes D.held D.faults D.appends D.looks self.old.core.log self.new.core.log op result }
    {
        if let Some(at) = self.stop {
            return self.stopped(at, place, op, base, stands);
        }
        match op {
            StoreOp::Put {
                link,
                index,
                key,
                value,
            } => self.put(place, link, index, key, value, base, stands),
            StoreOp::Get { key, room } => self.get(place, key, room, base, stands),
            StoreOp::Stop => self.halt(place, base, stands),
        }
    }
}
