//! Where an engine puts outcomes.
ghost use Rattle.std.specs.Prelude.{◌≡◌, ◌<◌, ◌≤◌, ◌++◌, [], ◌∷◌, IfOk, IfNone, IfSome, length};

use demi_core::NoMemory;
use demi_port_core::{Law, Place};
use std::alloc::Global;
use std::collections::VecDeque;
use std::marker::Model;

/// The outcomes that an engine added in one call, with their places, in their order.
/// Its room was made with the device: adding takes no memory.
pub struct Done<L: Law> {
    room: u32,
    added: VecDeque<(Place, L::Out)>,
}

impl<L: Law> Model for Done<L> {
    ghost use Rattle.std.specs.Prelude.{◌≤◌};
    ghost use Rattle.std.specs.VecDeque.{deque_capacity};
    ghost use Rattle.demi_device.specs.Serving.{DoneValue, by_place};

    ghost Value = { DoneValue L.Out };

    ghost view = { λ d. record { room = d.room; added = by_place d.added.items } };

    ghost invariant = { λ d. d.room ≤ deque_capacity d.added };
}

impl<L: Law> Done<L> {
    /// Room for so many outcomes.
    pub(crate) fn make(alloc: Global, room: u32) -> Result<Done<L>, NoMemory>
        ensures room { IfOk result (λ d. d.room ≡ room) }
        ensures empty { IfOk result (λ d. d.added ≡ []) }
    {
        let added = VecDeque::with_capacity(alloc, room as usize)?;
        Ok(Done { room, added })
    }

    /// The outcome of the operation at the place. There is room for one more.
    pub fn add(&mut self, place: Place, out: L::Out)
        requires { length self.old.added < self.old.room }
        ensures room { self.new.room ≡ self.old.room }
        ensures added { self.new.added ≡ self.old.added ++ (place.0, out) ∷ [] }
    {
        self.added.push_back_reserved((place, out));
    }

    /// The first of the outcomes.
    pub(crate) fn take(&mut self) -> Option<(Place, L::Out)>
        ensures room { self.new.room ≡ self.old.room }
        ensures first { IfSome result (λ o. self.old.added ≡ (o.0.0, o.1) ∷ self.new.added) }
        ensures empty { IfNone result ((self.old.added ≡ []) × (self.new.added ≡ [])) }
    {
        self.added.pop_front()
    }

    /// Gives the room back.
    pub(crate) fn free(self)
        requires { self.added ≡ [] }
    {
        let Done { room: _, added } = self;
        added.destroy_empty();
    }
}
