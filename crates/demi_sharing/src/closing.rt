// What the end of the memory port shows: a function that does nothing.
ghost use Rattle.std.specs.Prelude.{ℕ, List};
ghost use Rattle.demi_heap.specs.Seen.{HeapId};
ghost use Rattle.demi_memq.specs.declared.op.MemOp.{MemOp};
ghost use Rattle.demi_pdpix.specs.Seen.{MemPass};
ghost use Rattle.demi_port.specs.Seen.{DeviceValue, EndValue, PortId};
ghost use Rattle.demi_sharing.specs.Closing.{ClosedShares, SharedOut};

use demi_served::each_link_has_one_worker;

/// Where the port of the memory queues is closed, the links' numbers were shared out, each once, and a worker noted a
/// number exactly where one of its pops got it: so each link was noted by exactly one worker, and nothing else was.
pub fn a_closed_port_shared_out()
    ensures { (links : ℕ) (taken : List (List ℕ)) (id : PortId HeapId) (seat : DeviceValue MemOp (Unit {0}) HeapId)
        (passes : List MemPass) (end : EndValue MemOp (Unit {0}) HeapId) → ClosedShares links taken id seat passes end
        → SharedOut links seat.passes taken end.history }
{
    each_link_has_one_worker();
}
