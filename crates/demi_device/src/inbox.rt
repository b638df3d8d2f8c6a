//! What a device holds of its port.
ghost use Rattle.std.specs.Prelude.{◌≡◌, ℕ, ◌+◌, IfOk, IfErr, IsTrue, None, Some, length, replicate, slice_index_or};
ghost use mathlib.Core.Logic.{◌↔◌};
ghost use Rattle.demi_device.specs.Turning.{IsFresh};
ghost use Rattle.demi_device.specs.declared.early.Early.{Early};

use crate::early::Early;
use demi_port::DeviceSeat;
use demi_port_core::{Law, Place, Token};
use std::alloc::{AllocError, Global};
use std::marker::Model;

// The port's seat, the operations that came early in a ring by place modulo the number of tokens, and the tokens of those
// that were given to the engine and have no outcome yet. `at` is where in the ring the next one lies.
pub(crate) struct Inbox<L: Law> {
    pub(crate) seat: DeviceSeat<L>,
    pub(crate) ring: Vec<Option<Early<L::Op>>>,
    pub(crate) unanswered: Vec<(Place, Token)>,
    pub(crate) count: u32,
    pub(crate) at: u32,
    pub(crate) early: u32,
}

impl<L: Law> Model for Inbox<L> {
    ghost use Rattle.std.specs.Prelude.{◌≡◌, ◌≤◌, ◌+◌, length};
    ghost use Rattle.std.specs.Vec.{vec_capacity};
    ghost use Rattle.demi_device.specs.Holding.{Holds, InboxValue};

    ghost Value = { InboxValue L.Said L.Told L.Base };

    ghost view = { λ b. record { seat = b.seat; given = length b.unanswered.items + length b.seat.finished } };

    ghost invariant = { λ b. (b.count ≡ b.seat.port.tokens.slots) × (b.count ≤ vec_capacity b.unanswered) × Holds L.said (L.proper b.seat.port.key.base) b.count (length b.unanswered.items + length b.seat.finished) b.at b.early b.ring.items b.unanswered.items b.seat.fetched b.seat.finished };
}

impl<L: Law> Inbox<L> {
    /// Nothing is held yet. The seat comes back where memory was refused.
    pub(crate) fn make(
        alloc: Global,
        seat: DeviceSeat<L>,
        count: u32,
    ) -> Result<Inbox<L>, DeviceSeat<L>>
        requires count { count ≡ seat.port.tokens.slots }
        requires fresh { IsFresh seat }
        ensures made { IfOk result (λ b. (b.seat ≡ seat) × (b.given ≡ 0)) }
        ensures back { IfErr result (λ s. s ≡ seat) }
    {
        let Ok(unanswered) = Vec::with_capacity(alloc, count as usize) else {
            return Err(seat);
        };
        let Ok(ring) = empty_ring(alloc, count) else {
            return Err(seat);
        };
        Ok(Inbox {
            seat,
            ring,
            unanswered,
            count,
            at: 0,
            early: 0,
        })
    }

    /// How many operations were fetched and not given to the engine.
    pub(crate) fn waiting(&self) -> u32
        ensures { self.now.given + result ≡ length self.now.seat.fetched }
    {
        self.early
    }

    /// Whether each operation that was fetched was given to the engine.
    pub(crate) fn is_empty(&self) -> bool
        ensures { IsTrue result ↔ (length self.now.seat.fetched ≡ self.now.given) }
    {
        self.early == 0
    }

    /// The seat alone, where each operation that was fetched was given to the engine.
    pub(crate) fn into_seat(self) -> DeviceSeat<L>
        requires { length self.seat.fetched ≡ self.given }
        ensures { result ≡ self.seat }
    {
        let Inbox {
            seat,
            ring,
            unanswered: _,
            count: _,
            at: _,
            early: _,
        } = self;
        free_ring(ring);
        seat
    }
}

fn empty_ring<O>(alloc: Global, count: u32) -> Result<Vec<Option<Early<O>>>, AllocError>
    ensures { IfOk result (λ ring. ring.items ≡ replicate count None) }
{
    let mut ring = Vec::with_capacity(alloc, count as usize)?;
    for _ in 0..count {
        ring.push_reserved(None);
    }
    Ok(ring)
}

fn free_ring<O>(mut ring: Vec<Option<Early<O>>>)
    requires { (i : ℕ) (e : Early O) → slice_index_or ring.items i None ≡ Some e → ⊥ }
{
    while let Some(slot) = ring.pop() {
        match slot {
            None => {}
            Some(_) => unreachable!(),
        }
    }
    ring.destroy_empty();
}
