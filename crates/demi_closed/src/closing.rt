// What the ends of a session's ports show: functions that do nothing.
ghost use Rattle.std.specs.Prelude.{◌≡◌, ℕ, List, [], ◌∷◌, Some, slice_get};
ghost use Rattle.demi_link.specs.Ends.{IsDone};
ghost use Rattle.demi_link.specs.Sights.{Sight};
ghost use Rattle.demi_link.specs.Talks.{DeskValue};
ghost use Rattle.demi_link.specs.declared.phase.Cause.{Cause};
ghost use Rattle.demi_pdpix.specs.Lanes.{IsEndOf};
ghost use Rattle.demi_port.specs.Seen.{DeviceValue, PortId, says};
ghost use Rattle.demi_spec.specs.Record.{Record};
ghost use Rattle.demi_store.specs.Laws.{StoreBasis};
ghost use Rattle.demi_store.specs.declared.ask.StoreAsk.{StoreAsk};
ghost use Rattle.demi_store.specs.declared.told.StoreTold.{StoreTold};
ghost use Rattle.demi_served.specs.Accounts.{LeftInLog, StoreEntry, asked_in, standing_at_end};
ghost use Rattle.demi_served.specs.Asking.{Puts};
ghost use Rattle.demi_served.specs.Ends.{StoreEnd, StorePass};
ghost use Rattle.demi_served.specs.Links.{LinkPorts};
ghost use Rattle.demi_served.specs.Talks.{LinkRun, Talk};
ghost use Rattle.demi_closed.specs.Closed.{Added};
ghost use Rattle.demi_closed.specs.OnlyLink.{OneServed, ServesOne, WentOn, store_stop};
ghost use Rattle.demi_closed.specs.LinkClosed.{LinkMoved, LinkResult, PortsClosed, WasServed, ports_of};
ghost use Rattle.demi_streamq.specs.RxGoing.{RxValue};
ghost use Rattle.demi_streamq.specs.TxGoing.{TxValue};

use demi_core::{Sink, Source};
use demi_link::{
    an_ended_link_asked_what_it_was_fed, an_ended_link_popped_all, an_ended_link_wrote,
};
use demi_served::{
    a_closed_port_has_its_workers, a_closed_session_is_accounted, a_closed_session_is_served,
    a_link_keeps, a_link_reads_and_writes, a_receiving_port_ends, a_sending_port_ends,
    a_session_without_fault_is_whole, a_text_that_ended_asks_on, a_worker_keeps,
    an_only_link_is_served_in_order,
};

/// A link that was served, or was refused memory before it began, whose two ports its worker then stopped and where nobody else did anything: where they are closed, what was
/// read from its source and written to its sink is accounted for by what it asked and replied, and where its input came to an end, what
/// was read ends as its cause says.
pub fn a_served_link_closes<I: Source, O: Sink>()
    ensures { (ports : ℕ) (s : Sight) (d : DeskValue) (c : Cause) (rx_old rx_new : RxValue I) (tx_old tx_new : TxValue O)
        → WasServed ports s d c → PortsClosed I.taken I.left I.faults I.reads O.written O.faults s rx_old rx_new tx_old tx_new
        → (l : LinkRun) × (t : Talk) × LinkMoved I.taken I.left I.faults O.written O.faults (rx_old.source, tx_old.sink) (rx_new.source, tx_new.sink) l
        × LinkResult c d l (ports_of rx_new tx_new) t }
{
    an_ended_link_asked_what_it_was_fed();
    an_ended_link_popped_all();
    an_ended_link_wrote();
    a_receiving_port_ends::<I>();
    a_sending_port_ends::<O>();
    a_link_reads_and_writes();
    a_text_that_ended_asks_on();
}

/// One link that was served by one worker, which may have gone on with others, and then stopped the store: where the store's port is closed, each reply and each record is
/// accounted for, and where the log tells its bytes the session served as the store on one thread does.
pub fn a_session_of_one_link_closes()
    ensures { (ports : ℕ) (s now : Sight) (d : DeskValue) (c : Cause) (pass : StorePass) (id : PortId StoreBasis) (seat : DeviceValue StoreAsk StoreTold StoreBasis) (end : StoreEnd)
        (l : LinkRun) (e : LinkPorts) (t : Talk) (records : List Record)
        → WasServed ports s d c → WentOn d.link s now → ServesOne now d → pass.number ≡ 0 → Added store_stop now.store pass → IsEndOf id seat (pass ∷ []) end → seat.passes ≡ 1
        → LinkResult c d l e t → LeftInLog now.base (says end.history) end.trail records → (o : OneServed c now.base end.history end.trail l e records) × (o.talk ≡ t) }
{
    a_worker_keeps();
    a_link_keeps();
    a_closed_port_has_its_workers();
    a_closed_session_is_accounted();
    a_closed_session_is_served();
    a_session_without_fault_is_whole();
    an_only_link_is_served_in_order();
    a_link_reads_and_writes();
}

/// A session of one link whose input came to an end: the disk failed no append of its log.
pub fn a_link_that_was_done_left_no_torn_entry()
    ensures { (c : Cause) (b : StoreBasis) (history : List StoreEntry) (trail : List (ℕ × StoreTold)) (l : LinkRun) (e : LinkPorts) (records : List Record)
        → OneServed c b history trail l e records → IsDone c → (p : ℕ) (r : Record)
        → (standing_at_end b (says history) trail).fault ≡ Some p → slice_get (asked_in (says history)) p ≡ Some (Puts r) → ⊥ }
{}
