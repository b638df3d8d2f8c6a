//! How what waits is emptied.
ghost use Rattle.std.specs.Prelude.{◌≡◌, ◌+◌, ◌<◌, ◌++◌, [], ◌∷◌, length};
ghost use Rattle.demi_heap.specs.Seen.{HeapId};
ghost use Rattle.demi_sga.specs.Arrays.{returned_by};
ghost use Rattle.demi_memq.specs.declared.op.MemOp.TheVariants.{Stop as stopping};
ghost use Rattle.demi_memq.specs.declared.out.MemOut.TheVariants.{Stopped as stopped};
ghost use Rattle.demi_memq.specs.Counting.{beside};
ghost use Rattle.demi_memq.specs.Rooms.{Mid};
ghost use Rattle.demi_memq.specs.Said.{IsProper};
ghost use Rattle.demi_memq.specs.Segments.{given, held, op_segments};
ghost use Rattle.demi_memq.specs.Serving.{GivenOf, ItemsOf, Owes, OwesAll, SameOthers, ends_by, ends_as};

use crate::chains::Chains;
use crate::heard::{History, Outcomes};
use crate::{MemLaw, MemOp, MemOut};
use demi_device::Done;
use demi_heap::{Heap, HeapPass};
use demi_port_core::Place;
use demi_sga::{DevSga, release};

// What a pop comes to that waits where its queue is closed, or where all is stopped at a place.
fn ending(stop: Option<Place>) -> MemOut
    ensures { result ≡ ends_as stop }
{
    match stop {
        None => MemOut::Closed,
        Some(place) => MemOut::Stopped(place),
    }
}

/// Each pop that waits on the queue ends: the queue is closed, or all is stopped at the place.
pub(crate) fn end_pops(
    pending: &mut Chains<u64>,
    q: u32,
    stop: Option<Place>,
    history: &History,
    outcomes: &Outcomes,
    done: &mut Done<MemLaw>,
)
    requires queue { q < pending.old.queues }
    requires mid { Mid 1024 history.now.value (history.now.value ++ ends_by q stop ∷ []) outcomes.now.value done.old.added pending.old.items }
    requires owed { Owes history.now.value (ends_by q stop) q pending.old.items (ends_as stop) }
    requires holds { length done.old.added + length pending.old.items < done.old.room }
    ensures mid { Mid 1024 history.now.value (history.now.value ++ ends_by q stop ∷ []) outcomes.now.value done.new.added pending.new.items }
    ensures gone { beside q pending.new.items ≡ [] }
    ensures others { SameOthers q pending.old.items pending.new.items }
    ensures none { given done.new.added ≡ given done.old.added }
    ensures from { (h : HeapId) → GivenOf h done.old.added → GivenOf h done.new.added }
    ensures holds { length done.new.added + length pending.new.items < done.new.room }
    ensures room { done.new.room ≡ done.old.room }
    ensures rooms { (pending.new.room ≡ pending.old.room) × (pending.new.queues ≡ pending.old.queues) }
{
    while let Some(first) = pending.pop(q) {
        done.add(Place(first), ending(stop));
    }
}

/// Each pop that waits is stopped.
pub(crate) fn stop_all(
    pending: &mut Chains<u64>,
    place: Place,
    history: &History,
    outcomes: &Outcomes,
    done: &mut Done<MemLaw>,
)
    requires mid { Mid 1024 history.now.value (history.now.value ++ stopping ∷ []) outcomes.now.value done.old.added pending.old.items }
    requires owed { OwesAll history.now.value stopping pending.old.items (stopped place) }
    requires holds { length done.old.added + length pending.old.items < done.old.room }
    ensures mid { Mid 1024 history.now.value (history.now.value ++ stopping ∷ []) outcomes.now.value done.new.added [] }
    ensures empty { pending.new.items ≡ [] }
    ensures none { given done.new.added ≡ given done.old.added }
    ensures from { (h : HeapId) → GivenOf h done.old.added → GivenOf h done.new.added }
    ensures holds { length done.new.added < done.new.room }
    ensures room { done.new.room ≡ done.old.room }
    ensures rooms { (pending.new.room ≡ pending.old.room) × (pending.new.queues ≡ pending.old.queues) }
{
    for q in 0..pending.queues() {
        end_pops(pending, q, Some(place), history, outcomes, done);
    }
}

// The halves of each item that waits in the queue end.
fn release_queue(heap: &Heap, pass: &mut HeapPass, waiting: &mut Chains<DevSga>, q: u32)
    requires queue { q < waiting.old.queues }
    requires heap { (pass.old.heap ≡ heap.now) × ItemsOf heap.now waiting.old.items }
    ensures pass { pass.new ≡ record pass.old { returned = pass.new.returned } }
    ensures sum { pass.new.returned + held waiting.new.items ≡ pass.old.returned + held waiting.old.items }
    ensures left { ItemsOf heap.now waiting.new.items }
    ensures gone { beside q waiting.new.items ≡ [] }
    ensures others { SameOthers q waiting.old.items waiting.new.items }
    ensures rooms { (waiting.new.room ≡ waiting.old.room) × (waiting.new.queues ≡ waiting.old.queues) }
{
    while let Some(sga) = waiting.pop(q) {
        release(heap, pass, sga);
    }
}

/// The halves of each item that waits end.
pub(crate) fn release_all(heap: &Heap, pass: &mut HeapPass, waiting: &mut Chains<DevSga>)
    requires heap { (pass.old.heap ≡ heap.now) × ItemsOf heap.now waiting.old.items }
    ensures pass { pass.new ≡ returned_by pass.old (held waiting.old.items) }
    ensures empty { waiting.new.items ≡ [] }
    ensures rooms { (waiting.new.room ≡ waiting.old.room) × (waiting.new.queues ≡ waiting.old.queues) }
{
    for q in 0..waiting.queues() {
        release_queue(heap, pass, waiting, q);
    }
}

/// The halves of an operation that is refused end.
pub(crate) fn release_op(heap: &Heap, pass: &mut HeapPass, op: MemOp)
    requires heap { (pass.old.heap ≡ heap.now) × IsProper heap.now op }
    ensures pass { pass.new ≡ returned_by pass.old (op_segments op) }
{
    match op {
        MemOp::Push { q: _, sga } => release(heap, pass, sga),
        MemOp::Queue => {}
        MemOp::Pop { q: _ } => {}
        MemOp::Close { q: _ } => {}
        MemOp::Stop => {}
    }
}
