//! How the whole ends.
ghost use Rattle.std.specs.Prelude.{◌≡◌, ℕ, ◌+◌, ◌<◌, ◌≤◌, [], ◌∷◌, ◌++◌, length, map, slice_index_or, sum_by, vec_capacity};
ghost use Rattle.demi_heap_core.specs.Owner.{slots};
ghost use Rattle.demi_heap.specs.Laid.{CountsWords};
ghost use Rattle.demi_heap.specs.Seen.{claims, ends, loans, returns};
ghost use Rattle.demi_port_core.specs.History.{Each};
ghost use Rattle.demi_pdpix.specs.Closing.{AllBack, AllBackAt, AllEnds, AreEndsOf, AreReady, IsReady, beside, heap_passes};
ghost use Rattle.demi_pdpix.specs.Lanes.{IsEndOf};
ghost use Rattle.demi_pdpix.specs.Returning.{journal_at, rx_at, tx_at};
ghost use Rattle.demi_pdpix.specs.Seen.{IsOf, as_list, memory_of, service_of};

use crate::caller::Caller;
use crate::demi::Demi;
use crate::lane::Lane;
use crate::ports::Ports;
use crate::returning::return_all;
use crate::seats::{DemiEnd, Seats};
use demi_heap::HeapPass;
use demi_port::{DeviceSeat, PortEnd};
use demi_port_core::Law;

// A seat with a pass of the heap.
type Pair<L> = (DeviceSeat<L>, HeapPass);

// Ends a port with its seat.
fn close_one<L: Law>(lane: Lane<L>, pair: Pair<L>, passes: &mut Vec<HeapPass>) -> PortEnd<L>
    requires room { length passes.old.items + 1 ≤ vec_capacity passes.old }
    requires ready { IsReady lane pair.0 }
    ensures passes { (passes.new.items ≡ passes.old.items ++ pair.1 ∷ []) × (vec_capacity passes.new ≡ vec_capacity passes.old) }
    ensures end { IsEndOf lane.port pair.0 lane.home result }
{
    let (seat, pass) = pair;
    passes.push_reserved(pass);
    lane.close(seat)
}

// Ends ports, each with its seat.
fn close_each<L: Law>(
    mut lanes: Vec<Lane<L>>,
    mut seats: Vec<Pair<L>>,
    passes: &mut Vec<HeapPass>,
    ends: &mut Vec<PortEnd<L>>,
)
    requires len { length seats.items ≡ length lanes.items }
    requires room { (length passes.old.items + length lanes.items ≤ vec_capacity passes.old) × (ends.old.items ≡ []) × (length lanes.items ≤ vec_capacity ends.old) }
    requires ready { AreReady lanes.items seats.items }
    ensures passes { (passes.new.items ≡ passes.old.items ++ map beside seats.items) × (vec_capacity passes.new ≡ vec_capacity passes.old) }
    ensures ends { AllEnds lanes.items seats.items ends.new.items }
{
    lanes.reverse();
    seats.reverse();
    while let Some(lane) = lanes.pop() {
        match seats.pop() {
            Some(pair) => ends.push_reserved(close_one(lane, pair, passes)),
            None => unreachable!(),
        }
    }
    lanes.destroy_empty();
    seats.destroy_empty();
}

// Ends the port for a log, where there is one, with its seat.
fn close_journal<L: Law>(
    mut lanes: Vec<Lane<L>>,
    seat: Option<Pair<L>>,
    passes: &mut Vec<HeapPass>,
) -> Option<PortEnd<L>>
    requires len { length (as_list seat) ≡ length lanes.items }
    requires room { length passes.old.items + length lanes.items ≤ vec_capacity passes.old }
    requires ready { AreReady lanes.items (as_list seat) }
    ensures passes { (passes.new.items ≡ passes.old.items ++ map beside (as_list seat)) × (vec_capacity passes.new ≡ vec_capacity passes.old) }
    ensures ends { AllEnds lanes.items (as_list seat) (as_list result) }
{
    let Some(pair) = seat else {
        lanes.destroy_empty();
        return None;
    };
    let Some(lane) = lanes.pop() else {
        unreachable!()
    };
    lanes.destroy_empty();
    Some(close_one(lane, pair, passes))
}

impl<X: Law> Demi<X> {
    /// All callers and seats come back, each once, and each operation that the callers submitted was redeemed. The end of each
    /// port has its one history, in which each caller's operations stand at their places and there are no others; each was fetched
    /// once; and the heap's counts say what is still out, of what all passes claimed and lent.
    pub fn close(self, callers: Vec<Caller<X>>, seats: Seats<X>) -> DemiEnd<X>
        requires of { Each (IsOf self) callers.items }
        requires count { (length callers.items ≡ self.callers) × (length (as_list seats.journal) ≡ length self.journal) × (length seats.rx.items ≡ length self.rx) × (length seats.tx.items ≡ length self.tx) }
        requires memory { AllBack memory_of callers.items self.memory seats.memory.0 }
        requires service { AllBack service_of callers.items self.service seats.service.0 }
        requires journal { AllBackAt journal_at callers.items self.journal (as_list seats.journal) }
        requires rx { AllBackAt rx_at callers.items self.rx seats.rx.items }
        requires tx { AllBackAt tx_at callers.items self.tx seats.tx.items }
        requires heap { (seats.memory.1.heap ≡ self.heap) × (seats.service.1.heap ≡ self.heap) × Each (λ s. s.1.heap ≡ self.heap) (as_list seats.journal) × Each (λ s. s.1.heap ≡ self.heap) seats.rx.items × Each (λ s. s.1.heap ≡ self.heap) seats.tx.items }
        ensures memory { IsEndOf self.memory seats.memory.0 (map memory_of callers.items) result.memory }
        ensures service { IsEndOf self.service seats.service.0 (map service_of callers.items) result.service }
        ensures journal { AreEndsOf journal_at callers.items self.journal (as_list seats.journal) (as_list result.journal) }
        ensures rx { AreEndsOf rx_at callers.items self.rx seats.rx.items result.rx.items }
        ensures tx { AreEndsOf tx_at callers.items self.tx seats.tx.items result.tx.items }
        ensures words { CountsWords self.heap.shape (heap_passes callers.items seats.memory.1 seats.service.1 (as_list seats.journal) seats.rx.items seats.tx.items) result.heap.free result.heap.app result.heap.lent result.heap.dev }
        ensures claims { let passes = heap_passes callers.items seats.memory.1 seats.service.1 (as_list seats.journal) seats.rx.items seats.tx.items in sum_by claims passes ≡ sum_by ends passes + (result.heap.app + result.heap.lent) }
        ensures loans { let passes = heap_passes callers.items seats.memory.1 seats.service.1 (as_list seats.journal) seats.rx.items seats.tx.items in sum_by loans passes ≡ sum_by returns passes + (result.heap.lent + result.heap.dev) }
        ensures all { result.heap.free + result.heap.app + result.heap.lent + result.heap.dev ≡ slots self.heap.shape }
    {
        let Demi {
            heap,
            mut ports,
            bells: _,
            mut passes,
            mut rx_ends,
            mut tx_ends,
            callers: _,
        } = self;
        return_all(&mut ports, &mut passes, callers);
        let Ports {
            memory,
            service,
            journal,
            rx,
            tx,
        } = ports;
        let Seats {
            memory: memory_seat,
            service: service_seat,
            journal: journal_seat,
            rx: rx_seats,
            tx: tx_seats,
        } = seats;
        let memory = close_one(memory, memory_seat, &mut passes);
        let service = close_one(service, service_seat, &mut passes);
        let journal = close_journal(journal, journal_seat, &mut passes);
        close_each(rx, rx_seats, &mut passes, &mut rx_ends);
        close_each(tx, tx_seats, &mut passes, &mut tx_ends);
        DemiEnd {
            memory,
            service,
            journal,
            rx: rx_ends,
            tx: tx_ends,
            heap: heap.close(passes),
        }
    }
}
