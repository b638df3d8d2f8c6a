// What a session of one link comes to: a function that does nothing.
ghost use Rattle.std.specs.Prelude.{List};
ghost use Rattle.demi_served.specs.Ends.{StoreEnd};
ghost use Rattle.demi_context.specs.ContextPorts.{Caller, Whole};
ghost use Rattle.demi_server.specs.Ending.{OneEnded, SessionEnded};
ghost use Rattle.demi_server.specs.Gathering.{AllDevices};
ghost use Rattle.demi_server.specs.Hands.{HandValue};
ghost use Rattle.demi_server.specs.Session.{RxEndValue, TxEndValue};
ghost use Rattle.demi_server.specs.declared.parts.Parts.{Parts};
ghost use Rattle.demi_worker.specs.declared.ended.Ended.{Ended};

use demi_closed::{
    a_served_link_closes, a_served_link_made_only_due_reads, a_session_of_one_link_closes,
};
use demi_core::{Disk, Sink, Source};
use demi_link::an_ended_link_popped_all;
use demi_served::a_log_ends_as_its_history;

/// A session of one link and one worker that was closed: why its link ended, what was read from its source and written to its sink, and
/// what became of the log.
pub fn a_session_of_one_link_ends<I: Source, O: Sink, D: Disk>()
    ensures { (d : Whole) (p q : Parts I O D) (v w : AllDevices I O D) (first last : HandValue) (after : Caller) (ended : List Ended) (service : StoreEnd) (rx_ends : List RxEndValue) (tx_ends : List TxEndValue)
        → SessionEnded I.taken I.left I.faults I.reads O.written O.faults D.bytes D.held D.faults D.appends D.looks d p q v w first last after ended service rx_ends tx_ends
        → OneEnded I.taken I.left I.faults I.reads O.written O.faults D.bytes D.faults p q v w ended service rx_ends tx_ends }
{
    a_served_link_closes::<I, O>();
    a_session_of_one_link_closes();
    a_log_ends_as_its_history::<D>();
    an_ended_link_popped_all();
    a_served_link_made_only_due_reads::<I, O>();
}
