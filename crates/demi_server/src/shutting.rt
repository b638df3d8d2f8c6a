//! How the ports of a session are closed.
ghost use Rattle.std.specs.Prelude.{◌≡◌, [], None, map};
ghost use Rattle.demi_pdpix.specs.Alone.{IsAlone};
ghost use Rattle.demi_pdpix.specs.Closing.{AreEndsOf};
ghost use Rattle.demi_pdpix.specs.Lanes.{IsEndOf};
ghost use Rattle.demi_pdpix.specs.Returning.{rx_at, tx_at};
ghost use Rattle.demi_pdpix.specs.Seen.{memory_of, service_of};
ghost use Rattle.demi_server.specs.Gathering.{AreBackAt, IsBackAt};

use demi_pdpix::{Caller, Demi, DemiEnd, Seats};
use demi_store::StoreLaw;

/// The ends of all ports and of the heap of a whole with one caller, which has nothing outstanding.
pub(crate) fn shut(
    demi: Demi<StoreLaw>,
    callers: Vec<Caller<StoreLaw>>,
    seats: Seats<StoreLaw>,
) -> DemiEnd<StoreLaw>
    requires callers { (demi.callers ≡ 1) × IsAlone demi callers.items }
    requires journal { (demi.journal ≡ []) × (seats.journal ≡ None) }
    requires queues { IsBackAt demi.heap 1 demi.memory seats.memory × IsBackAt demi.heap 1 demi.service seats.service }
    requires links { AreBackAt demi.heap 1 demi.rx seats.rx.items × AreBackAt demi.heap 1 demi.tx seats.tx.items }
    ensures memory { IsEndOf demi.memory seats.memory.0 (map memory_of callers.items) result.memory }
    ensures service { IsEndOf demi.service seats.service.0 (map service_of callers.items) result.service }
    ensures rx { AreEndsOf rx_at callers.items demi.rx seats.rx.items result.rx.items }
    ensures tx { AreEndsOf tx_at callers.items demi.tx seats.tx.items result.tx.items }
{
    demi.close(callers, seats)
}
