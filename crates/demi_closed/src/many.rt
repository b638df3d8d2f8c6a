// What the ends of a session of any number of links and workers show: a function that does nothing.
ghost use Rattle.std.specs.Prelude.{◌≡◌, ℕ, List, length, map};
ghost use Rattle.demi_pdpix.specs.Lanes.{IsEndOf};
ghost use Rattle.demi_port.specs.Seen.{DeviceValue, PortId, says};
ghost use Rattle.demi_spec.specs.Record.{Record};
ghost use Rattle.demi_store.specs.Laws.{StoreBasis};
ghost use Rattle.demi_store.specs.declared.ask.StoreAsk.{StoreAsk};
ghost use Rattle.demi_store.specs.declared.told.StoreTold.{StoreTold};
ghost use Rattle.demi_served.specs.Accounts.{LeftInLog};
ghost use Rattle.demi_served.specs.Ends.{StoreEnd};
ghost use Rattle.demi_served.specs.Links.{LinkPorts};
ghost use Rattle.demi_served.specs.Served.{Placed};
ghost use Rattle.demi_served.specs.Talks.{LinkRun, Talk};
ghost use Rattle.demi_closed.specs.ManyLinks.{AllResults, IsServedBy, IsWorkerOf, LinkEnd, ManyServed, WorkerEnd};

use demi_served::{
    a_closed_port_has_its_workers, a_closed_session_is_accounted, a_closed_session_is_served,
    a_link_keeps, a_link_reads_and_writes, a_session_without_fault_is_whole, a_worker_keeps,
    other_links_are_beside,
};

/// Links that were served by workers, of which each may have gone on with others, and one of which may have stopped the store: where the store's
/// port is closed, each reply and each record is accounted for, and where the log tells its bytes the session served.
pub fn a_session_closes()
    ensures { (b : StoreBasis) (there : ℕ) (workers : List WorkerEnd) (links : List LinkEnd) (id : PortId StoreBasis) (seat : DeviceValue StoreAsk StoreTold StoreBasis) (end : StoreEnd)
        (runs : List LinkRun) (ports : List LinkPorts) (talks : List Talk) (records : List Record)
        → Placed (IsWorkerOf b links) 0 workers → Placed (IsServedBy there workers) 0 links
        → IsEndOf id seat (map (λ w. w.pass) workers) end → seat.passes ≡ length workers
        → AllResults links runs ports talks → LeftInLog b (says end.history) end.trail records
        → (o : ManyServed (map (λ k. k.cause) links) b end.history end.trail runs ports records) × (o.talks ≡ talks) }
{
    a_worker_keeps();
    a_link_keeps();
    other_links_are_beside();
    a_closed_port_has_its_workers();
    a_closed_session_is_accounted();
    a_closed_session_is_served();
    a_session_without_fault_is_whole();
    a_link_reads_and_writes();
}
