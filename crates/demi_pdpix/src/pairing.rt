//! How devices get their passes of the heap.
ghost use Rattle.std.specs.Prelude.{◌≡◌, ◌+◌, ◌≤◌, [], All, length, map, vec_capacity};
ghost use Rattle.demi_heap.specs.Seen.{new_pass};
ghost use Rattle.demi_pdpix.specs.Making.{seat_of};
ghost use Rattle.demi_pdpix.specs.Seen.{as_list};

use crate::ports::PortSeats;
use crate::seats::Seats;
use demi_heap::{Heap, HeapPass};
use demi_port::DeviceSeat;
use demi_port_core::Law;
use demi_streamq::{RxLaw, TxLaw};

// A seat with a pass of the heap.
type Pair<L> = (DeviceSeat<L>, HeapPass);

// One of the passes of the heap.
fn next_pass(heap: &Heap, passes: &mut Vec<HeapPass>) -> HeapPass
    requires { (1 ≤ length passes.old.items) × All (λ p. p ≡ new_pass heap.now) passes.old.items }
    ensures pass { result ≡ new_pass heap.now }
    ensures rest { (length passes.new.items + 1 ≡ length passes.old.items) × All (λ p. p ≡ new_pass heap.now) passes.new.items × (vec_capacity passes.new ≡ vec_capacity passes.old) }
{
    let _ = heap;
    match passes.pop() {
        Some(pass) => pass,
        None => unreachable!(),
    }
}

// The seats, each with a pass.
fn pair_each<L: Law>(
    heap: &Heap,
    mut alone: Vec<DeviceSeat<L>>,
    passes: &mut Vec<HeapPass>,
    pairs: &mut Vec<Pair<L>>,
)
    requires passes { (length alone.items ≤ length passes.old.items) × All (λ p. p ≡ new_pass heap.now) passes.old.items }
    requires room { (pairs.old.items ≡ []) × (length alone.items ≤ vec_capacity pairs.old) }
    ensures seats { map seat_of pairs.new.items ≡ alone.items }
    ensures heap { All (λ s. s.1 ≡ new_pass heap.now) pairs.new.items }
    ensures rest { (length passes.new.items + length alone.items ≡ length passes.old.items) × All (λ p. p ≡ new_pass heap.now) passes.new.items × (vec_capacity passes.new ≡ vec_capacity passes.old) }
{
    while let Some(seat) = alone.pop() {
        let pass = next_pass(heap, passes);
        pairs.push_reserved((seat, pass));
    }
    pairs.reverse();
}

// The seat, where there is one, with a pass.
fn pair_one<L: Law>(
    heap: &Heap,
    mut alone: Vec<DeviceSeat<L>>,
    passes: &mut Vec<HeapPass>,
) -> Option<Pair<L>>
    requires few { length alone.items ≤ 1 }
    requires passes { (length alone.items ≤ length passes.old.items) × All (λ p. p ≡ new_pass heap.now) passes.old.items }
    ensures seats { map seat_of (as_list result) ≡ alone.items }
    ensures heap { All (λ s. s.1 ≡ new_pass heap.now) (as_list result) }
    ensures rest { (length passes.new.items + length alone.items ≡ length passes.old.items) × All (λ p. p ≡ new_pass heap.now) passes.new.items × (vec_capacity passes.new ≡ vec_capacity passes.old) }
{
    match alone.pop() {
        Some(seat) => {
            let pass = next_pass(heap, passes);
            Some((seat, pass))
        }
        None => None,
    }
}

// Room for the seats of links with their passes.
#[derive(Drop)]
pub(crate) struct PairRoom {
    pub(crate) rx: Vec<Pair<RxLaw>>,
    pub(crate) tx: Vec<Pair<TxLaw>>,
}

// The seats, each with a pass of the heap, which are then all given.
pub(crate) fn pair_up<X: Law>(
    heap: &Heap,
    seats: PortSeats<X>,
    passes: &mut Vec<HeapPass>,
    room: PairRoom,
) -> Seats<X>
    requires few { length seats.journal.items ≤ 1 }
    requires passes { (length passes.old.items ≡ 2 + length seats.journal.items + length seats.rx.items + length seats.tx.items) × All (λ p. p ≡ new_pass heap.now) passes.old.items }
    requires room { (room.rx.items ≡ []) × (length seats.rx.items ≤ vec_capacity room.rx) × (room.tx.items ≡ []) × (length seats.tx.items ≤ vec_capacity room.tx) }
    ensures seats { (result.memory.0 ≡ seats.memory) × (result.service.0 ≡ seats.service) × (map seat_of (as_list result.journal) ≡ seats.journal.items) × (map seat_of result.rx.items ≡ seats.rx.items) × (map seat_of result.tx.items ≡ seats.tx.items) }
    ensures heap { (result.memory.1 ≡ new_pass heap.now) × (result.service.1 ≡ new_pass heap.now) × All (λ s. s.1 ≡ new_pass heap.now) (as_list result.journal) × All (λ s. s.1 ≡ new_pass heap.now) result.rx.items × All (λ s. s.1 ≡ new_pass heap.now) result.tx.items }
    ensures passes { (length passes.new.items ≡ 0) × (vec_capacity passes.new ≡ vec_capacity passes.old) }
{
    let PortSeats {
        memory,
        service,
        journal,
        rx: rx_seats,
        tx: tx_seats,
    } = seats;
    let PairRoom { mut rx, mut tx } = room;
    let first = next_pass(heap, passes);
    let second = next_pass(heap, passes);
    let journal = pair_one(heap, journal, passes);
    pair_each(heap, rx_seats, passes, &mut rx);
    pair_each(heap, tx_seats, passes, &mut tx);
    Seats {
        memory: (memory, first),
        service: (service, second),
        journal,
        rx,
        tx,
    }
}
