//! How the passes of the callers come back to their ports.
ghost use Rattle.std.specs.Prelude.{◌≡◌, ℕ, ◌<◌, ◌≤◌, [], ◌∷◌, length, map, slice_index_or, vec_capacity};
ghost use Rattle.demi_port_core.specs.History.{Each};
ghost use Rattle.demi_port.specs.Seen.{PassValue};
ghost use Rattle.demi_pdpix.specs.Lanes.{LaneValue, with_home};
ghost use Rattle.demi_pdpix.specs.Returning.{HasReturned, HasRoom, IsAsWide, journal_at, rx_at, tx_at};
ghost use Rattle.demi_pdpix.specs.Seen.{heap_of, memory_of, service_of};

use crate::caller::Caller;
use crate::lane::Lane;
use crate::ports::Ports;
use demi_heap::HeapPass;
use demi_port::PortPass;
use demi_port_core::Law;

// A pass comes back to each port.
fn return_each<L: Law>(lanes: &mut Vec<Lane<L>>, mut passes: Vec<PortPass<L>>)
    requires as_many { length passes.items ≡ length lanes.old.items }
    requires room { (k : ℕ) (l : LaneValue L.Said L.Told L.Base) → k < length lanes.old.items → length (slice_index_or lanes.old.items k l).home < (slice_index_or lanes.old.items k l).callers }
    ensures len { length lanes.new.items ≡ length lanes.old.items }
    ensures back { (k : ℕ) (l : LaneValue L.Said L.Told L.Base) (p : PassValue L.Said L.Told L.Base) → k < length lanes.old.items → slice_index_or lanes.new.items k l ≡ with_home (slice_index_or lanes.old.items k l) (slice_index_or passes.items k p ∷ []) }
{
    while let Some(pass) = passes.pop() {
        let k = passes.len();
        lanes[k].take_back(pass);
    }
}

// The callers' passes come back, those of the first caller first.
pub(crate) fn return_all<X: Law>(
    ports: &mut Ports<X>,
    heap: &mut Vec<HeapPass>,
    mut callers: Vec<Caller<X>>,
)
    requires memory { (ports.old.memory.home ≡ []) × (length callers.items ≤ ports.old.memory.callers) }
    requires service { (ports.old.service.home ≡ []) × (length callers.items ≤ ports.old.service.callers) }
    requires journal { HasRoom (length callers.items) ports.old.journal.items }
    requires rx { HasRoom (length callers.items) ports.old.rx.items }
    requires tx { HasRoom (length callers.items) ports.old.tx.items }
    requires heap { (heap.old.items ≡ []) × (length callers.items ≤ vec_capacity heap.old) }
    requires as_many { Each (IsAsWide (length ports.old.journal.items) (length ports.old.rx.items) (length ports.old.tx.items)) callers.items }
    ensures memory { ports.new.memory ≡ with_home ports.old.memory (map memory_of callers.items) }
    ensures service { ports.new.service ≡ with_home ports.old.service (map service_of callers.items) }
    ensures journal { (length ports.new.journal.items ≡ length ports.old.journal.items) × HasReturned journal_at ports.old.journal.items callers.items ports.new.journal.items }
    ensures rx { (length ports.new.rx.items ≡ length ports.old.rx.items) × HasReturned rx_at ports.old.rx.items callers.items ports.new.rx.items }
    ensures tx { (length ports.new.tx.items ≡ length ports.old.tx.items) × HasReturned tx_at ports.old.tx.items callers.items ports.new.tx.items }
    ensures heap { (heap.new.items ≡ map heap_of callers.items) × (vec_capacity heap.new ≡ vec_capacity heap.old) }
{
    callers.reverse();
    while let Some(caller) = callers.pop() {
        let Caller {
            heap: mine,
            memory,
            service,
            journal,
            rx,
            tx,
            patience: _,
        } = caller;
        heap.push_reserved(mine);
        ports.memory.take_back(memory);
        ports.service.take_back(service);
        return_each(&mut ports.journal, journal);
        return_each(&mut ports.rx, rx);
        return_each(&mut ports.tx, tx);
    }
}
