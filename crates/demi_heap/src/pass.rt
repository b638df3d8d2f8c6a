use crate::near::Near;
use crate::table::HeapSeat;
use std::marker::Model;

/// What a thread claims, lends and frees with. `Heap::close` takes all passes of a heap.
///
/// A contract sees four numbers of it, which only the calls of the heap change, and the slots that its claims found owned,
/// each with a time.
#[derive(Drop)]
pub struct HeapPass {
    pub(crate) seat: HeapSeat,
    pub(crate) near: Near,
}

impl Model for HeapPass {
    ghost use Rattle.std.specs.Prelude.{◌≡◌, []};
    ghost use Rattle.demi_heap_core.specs.declared.view.Halves.TheVariants.{Neither};
    ghost use Rattle.demi_heap_core.specs.Steps.{no_guest};
    ghost use Rattle.demi_heap.specs.Seen.{PassValue, id_of};

    ghost Value = { PassValue };

    ghost view = { λ p. record { heap = id_of p.seat.table_id p.seat.me.0; claimed = p.seat.me.0.claimed; ended = p.seat.me.0.ended; loaned = p.seat.me.0.loaned; returned = p.seat.me.0.returned; clock = p.seat.me.0.clock; missed = p.seat.me.0.missed } };

    ghost invariant = { λ p. (p.seat.me.1 ≡ []) × (p.seat.me.0.halves ≡ Neither) × (p.seat.me.0.passes ≡ 1) × (p.seat.me.0.guest ≡ no_guest) × (p.seat.me.0.half_clock ≡ 0) × (p.seat.me.0.held ≡ []) };
}
