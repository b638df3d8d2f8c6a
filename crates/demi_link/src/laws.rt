// Laws of what a link keeps: functions that do nothing.
ghost use Rattle.std.specs.Prelude.{◌≡◌, ◌≢◌, ◌≤◌, ◌++◌, ◌∷◌, [], ℕ, List, None, Option, Some, false, length, slice_get, true};
ghost use Rattle.std.specs.List.{AllByRecursion};
ghost use Rattle.demi_heap.specs.Seen.{HalfValue};
ghost use Rattle.demi_port_core.specs.History.{Among};
ghost use Rattle.demi_port_core.specs.Trails.{Behind, StartsWith};
ghost use Rattle.demi_port_core.specs.declared.place.QToken.{QToken};
ghost use Rattle.demi_port_core.specs.declared.trail.Trail.{Trail};
ghost use Rattle.demi_spec.specs.Input.{Clean as no_more, EndFrame as end_frame, Parses, Refused as refusal, asked};
ghost use Rattle.demi_spec.specs.Reply.{IsReply};
ghost use Rattle.demi_streamq.specs.RxKept.{IsEnd, all_bytes};
ghost use Rattle.demi_streamq.specs.declared.rx_op.RxOp.{RxOp};
ghost use Rattle.demi_streamq.specs.declared.rx_op.RxOp.TheVariants.{Pop};
ghost use Rattle.demi_streamq.specs.declared.rx_out.RxOut.{RxOut};
ghost use Rattle.demi_streamq.specs.declared.rx_told.RxTold.{RxTold};
ghost use Rattle.demi_streamq.specs.declared.tx_op.TxOp.{TxOp};
ghost use Rattle.demi_streamq.specs.declared.tx_op.TxOp.TheVariants.{Push};
ghost use Rattle.demi_served.specs.Keeps.{LinkKeeps, WorkerKeeps, numbered, of_link};
ghost use Rattle.demi_served.specs.Reading.{Popped};
ghost use Rattle.demi_served.specs.Writing.{PushesEach, WroteAll, WroteBefore};
ghost use Rattle.demi_link.specs.Dues.{IsDue};
ghost use Rattle.demi_link.specs.Ends.{IsDone, IsKnown, new_desk};
ghost use Rattle.demi_link.specs.Fitting.{Fits, HeardOf, IsAsked, ops_of, places};
ghost use Rattle.demi_link.specs.Heard.{CameAt, IsLogFault, IsMemoryFault, IsReadFault, IsWriteFault, LastCame};
ghost use Rattle.demi_link.specs.Linked.{IsFresh};
ghost use Rattle.demi_link.specs.Sights.{Sight, nothing_due, worker_of};
ghost use Rattle.demi_link.specs.Talks.{DeskValue};
ghost use Rattle.demi_link.specs.declared.phase.Cause.{Cause};
ghost use Rattle.demi_link.specs.declared.phase.Cause.TheVariants.{Bye as bye, Clean as clean, LogFault as log_fault, NoMemory as no_memory, ReadFault as read_fault, Refused as refused, WriteFault as write_fault};
ghost use Rattle.demi_link.specs.declared.phase.Phase.{Phase};
ghost use Rattle.demi_link.specs.declared.phase.Phase.TheVariants.{Over, Popping, Reading};

use demi_served::what_a_decoder_handed_out_is_asked;

/// A new link fits where nothing was drawn, popped, pushed or claimed for it, and no token of it is to be redeemed.
pub fn a_new_link_fits()
    ensures { (ports link worker : ℕ) (s : Sight) → WorkerKeeps (worker_of s) → s.number ≡ worker → worker ≤ 255 → IsFresh s link → Fits ports s (new_desk link worker) Reading }
{}

/// What a link keeps, at its end too: its draws are its own, and its replies are those of its requests.
pub fn a_link_keeps_its_replies()
    ensures own { (ports : ℕ) (s : Sight) (d : DeskValue) (phase : Phase) → Fits ports s d phase → of_link d.link s.draws ≡ numbered d.link 0 d.talk.kept.drawn }
    ensures kept { (ports : ℕ) (s : Sight) (d : DeskValue) (phase : Phase) → Fits ports s d phase → LinkKeeps s.base (worker_of s) d.link d.talk.kept }
    ensures fits { (ports : ℕ) (s : Sight) (d : DeskValue) (phase : Phase) → Fits ports s d phase → AllByRecursion IsReply d.talk.kept.replies }
    ensures pushed { (ports : ℕ) (s : Sight) (d : DeskValue) (phase : Phase) → Fits ports s d phase → PushesEach (ops_of s.tx.submitted) d.talk.kept.replies }
{}

/// What it asked is what it was fed asks: at any end but that of a lost link the requests that it drew numbers for are the
/// first of these, also where the input goes on and it did not end yet, and where its input came to an end they are all, and
/// each has its reply.
pub fn an_ended_link_asked_what_it_was_fed()
    ensures asks { (ports : ℕ) (s : Sight) (d : DeskValue) (c : Cause) → Fits ports s d (Over c) → IsKnown c → StartsWith (asked (all_bytes d.talk.outs) true) d.talk.kept.drawn }
    ensures so_far { (ports : ℕ) (s : Sight) (d : DeskValue) (c : Cause) → Fits ports s d (Over c) → IsKnown c → (LastCame IsEnd d.talk.outs → ⊥) → StartsWith (asked (all_bytes d.talk.outs) false) d.talk.kept.drawn }
    ensures all { (ports : ℕ) (s : Sight) (d : DeskValue) (c : Cause) → Fits ports s d (Over c) → IsDone c → (asked (all_bytes d.talk.outs) true ≡ d.talk.kept.drawn) × (length d.talk.kept.replies ≡ length d.talk.kept.drawn) }
    ensures out { (ports : ℕ) (s : Sight) (d : DeskValue) (c : Cause) → Fits ports s d (Over c) → IsKnown c → s.out ≡ 0 }
{
    what_a_decoder_handed_out_is_asked();
}

/// It owes nothing: each application half that it took was given back, and each token of its submissions was
/// redeemed, at each of the three ports.
pub fn an_ended_link_owes_nothing()
    ensures halves { (ports : ℕ) (s : Sight) (d : DeskValue) (c : Cause) → Fits ports s d (Over c) → IsKnown c → s.out ≡ 0 }
    ensures tokens { (ports : ℕ) (s : Sight) (d : DeskValue) (c : Cause) → Fits ports s d (Over c) → IsKnown c → s.due ≡ nothing_due }
{}

/// Why it is over is what it heard: the end of the input as its last pop; an end frame or a refusal in what it was fed; a
/// failed read as its last pop; a failed write at its last push; a failed log or want of memory as the answer to its last
/// request.
pub fn an_ended_link_heard_why()
    ensures clean { (ports : ℕ) (s : Sight) (d : DeskValue) → Fits ports s d (Over clean) → LastCame IsEnd d.talk.outs × Parses d.talk.handed no_more true (all_bytes d.talk.outs) }
    ensures bye { (ports : ℕ) (s : Sight) (d : DeskValue) → Fits ports s d (Over bye) → Parses d.talk.handed end_frame true (all_bytes d.talk.outs) }
    ensures refused { (ports code : ℕ) (s : Sight) (d : DeskValue) → Fits ports s d (Over (refused code)) → (d.talk.refused ≡ Some code) × Parses d.talk.handed (refusal code) true (all_bytes d.talk.outs) }
    ensures read { (ports : ℕ) (s : Sight) (d : DeskValue) → Fits ports s d (Over read_fault) → LastCame IsReadFault d.talk.outs }
    ensures write { (ports : ℕ) (s : Sight) (d : DeskValue) → Fits ports s d (Over write_fault) → (place : ℕ) × (places s.tx.submitted ≡ d.talk.written ++ place ∷ []) × CameAt IsWriteFault s.tx place }
    ensures log { (ports : ℕ) (s : Sight) (d : DeskValue) → Fits ports s d (Over log_fault) → IsAsked d.talk × HeardOf IsLogFault s d }
    ensures memory { (ports : ℕ) (s : Sight) (d : DeskValue) → Fits ports s d (Over no_memory) → IsAsked d.talk × HeardOf IsMemoryFault s d }
{}

/// It read what was due: the input went on behind each pop before the last, at each pop the bytes of those before it were whole
/// requests and no whole one more, and as many replies are known written. Of a pop that is still to come they were so when it
/// was made.
pub fn an_ended_link_read_what_was_due()
    ensures each { (ports : ℕ) (s : Sight) (d : DeskValue) (c : Cause) → Fits ports s d (Over c) → (before after : List (ℕ × RxOut)) (x : ℕ × RxOut) → d.talk.outs ≡ before ++ x ∷ after → IsDue d.talk.handed d.talk.written before }
    ensures next { (ports : ℕ) (s : Sight) (d : DeskValue) (token : QToken) → Fits ports s d (Popping token) → IsDue d.talk.handed d.talk.written d.talk.outs }
{}

/// What it was fed is what its receiving port gave, where each pop of that port was its own.
pub fn an_ended_link_popped_all()
    ensures { (ports : ℕ) (s : Sight) (d : DeskValue) (c : Cause) (end : Trail RxOp RxTold) → Fits ports s d (Over c) → IsKnown c → Behind end s.rx.known
        → ((p max : ℕ) → slice_get end.heard p ≡ Some (Pop max) → Among p (places s.rx.submitted)) → Popped end.heard end.told d.talk.outs }
{}

/// Each push that another follows was written, where each push of its sending port was its own; and where its input came to an
/// end each was.
pub fn an_ended_link_wrote()
    ensures before { (ports : ℕ) (s : Sight) (d : DeskValue) (c : Cause) (end : Trail TxOp ℕ) → Fits ports s d (Over c) → IsKnown c → Behind end s.tx.known
        → ((p : ℕ) (sga : List HalfValue) → slice_get end.heard p ≡ Some (Push sga) → Among p (places s.tx.submitted)) → WroteBefore end.heard end.told }
    ensures all { (ports : ℕ) (s : Sight) (d : DeskValue) (c : Cause) (end : Trail TxOp ℕ) → Fits ports s d (Over c) → IsDone c → Behind end s.tx.known
        → ((p : ℕ) (sga : List HalfValue) → slice_get end.heard p ≡ Some (Push sga) → Among p (places s.tx.submitted)) → WroteAll end.heard end.told }
{}
