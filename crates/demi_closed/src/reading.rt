// Which reads a session makes of a link's source: a function that does nothing.
ghost use Rattle.std.specs.Prelude.{◌≡◌, ℕ, Bool, List, length, take, true};
ghost use Rattle.demi_link.specs.Ends.{IsKnown};
ghost use Rattle.demi_link.specs.Fitting.{Fits};
ghost use Rattle.demi_link.specs.Sights.{Sight};
ghost use Rattle.demi_link.specs.Talks.{DeskValue};
ghost use Rattle.demi_link.specs.declared.phase.Cause.{Cause};
ghost use Rattle.demi_link.specs.declared.phase.Cause.TheVariants.{ReadFault as read_fault};
ghost use Rattle.demi_link.specs.declared.phase.Phase.TheVariants.{Over};
ghost use Rattle.demi_served.specs.Talks.{LinkRun, Talk};
ghost use Rattle.demi_spec.specs.Record.{Record};
ghost use Rattle.demi_spec.specs.Store.{serial};
ghost use Rattle.demi_streamq.specs.RxGoing.{RxValue};
ghost use Rattle.demi_streamq.specs.TxGoing.{TxValue};
ghost use Rattle.demi_closed.specs.LinkClosed.{LinkResult, PortsClosed, ports_of};
ghost use Rattle.demi_closed.specs.Reading.{AnsweredInFull, OnlyDueReads};

use demi_core::{Sink, Source};
use demi_link::{an_ended_link_popped_all, an_ended_link_read_what_was_due};
use demi_served::{a_link_reads_and_writes, what_a_decoder_handed_out_is_asked};
use demi_spec::a_text_has_one_reading;

/// A link that was served and not lost, whose two ports were closed: only due reads were made of its source, each behind the whole
/// replies to all that was read whole before it. Where the log tells its bytes, these are those of the store on one thread, as far as
/// the replies of the link are. Where a read failed, all that was read whole was answered.
pub fn a_served_link_made_only_due_reads<I: Source, O: Sink>()
    ensures due { (ports : ℕ) (s : Sight) (d : DeskValue) (c : Cause) (rx_old rx_new : RxValue I) (tx_old tx_new : TxValue O) (l : LinkRun) (t : Talk) (told : Bool) (limit : ℕ) (old : List Record)
        → Fits ports s d (Over c) → IsKnown c → PortsClosed I.taken I.left I.faults I.reads O.written O.faults s rx_old rx_new tx_old tx_new
        → LinkResult c d l (ports_of rx_new tx_new) t → (told ≡ true → t.replies ≡ take (length t.replies) (serial old limit t.asks).replies)
        → OnlyDueReads I.reads told limit old rx_old.source rx_new.source l }
    ensures failed { (ports : ℕ) (s : Sight) (d : DeskValue) (c : Cause) (rx_old rx_new : RxValue I) (tx_old tx_new : TxValue O) (l : LinkRun) (t : Talk) (told : Bool) (limit : ℕ) (old : List Record)
        → Fits ports s d (Over c) → IsKnown c → PortsClosed I.taken I.left I.faults I.reads O.written O.faults s rx_old rx_new tx_old tx_new
        → LinkResult c d l (ports_of rx_new tx_new) t → (told ≡ true → t.replies ≡ take (length t.replies) (serial old limit t.asks).replies)
        → c ≡ read_fault → AnsweredInFull told limit old l }
{
    an_ended_link_popped_all();
    an_ended_link_read_what_was_due();
    a_link_reads_and_writes();
    a_text_has_one_reading();
    what_a_decoder_handed_out_is_asked();
}
