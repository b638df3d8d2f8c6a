// What the ends of a session show.
ghost use Rattle.std.specs.Prelude.{◌≡◌, ◌≤◌, ℕ, Bool, true, List, drop, length};
ghost use Rattle.std.specs.List.{AllByRecursion, AllZip};
ghost use Rattle.demi_port_core.specs.declared.trail.Trail.{Trail};
ghost use Rattle.demi_spec.specs.Request.{IsBytes};
ghost use Rattle.demi_spec.specs.Input.{Asked, asked};
ghost use Rattle.demi_spec.specs.Record.{IsRecord};
ghost use Rattle.demi_spec.specs.Reply.{Answer, IsAnswer, word_max};
ghost use Rattle.demi_store.specs.Laws.{StoreBasis};
ghost use Rattle.demi_store.specs.declared.ask.StoreAsk.{StoreAsk};
ghost use Rattle.demi_store.specs.declared.told.StoreTold.{StoreTold};
ghost use Rattle.demi_served.specs.Talks.{Run, Talk};
ghost use Rattle.demi_served.specs.Ranges.{IsInRange};
ghost use Rattle.demi_served.specs.Answers.{Answers};
ghost use Rattle.demi_served.specs.Served.{Consistent, Recorded, TornTalk, Served, WholeTalk, Whole};
ghost use Rattle.demi_served.specs.Accounts.{StoreEntry, Accounted};
ghost use Rattle.demi_served.specs.Keeps.{Worker, Link};
ghost use Rattle.demi_served.specs.Ends.{StoreEnds};
ghost use Rattle.demi_served.specs.Links.{LinkPorts, AllEnded};
ghost use Rattle.demi_served.specs.Sharing.{MemEntry, Shared};
ghost use Rattle.demi_served.specs.Sessions.{SessionAccounted};

/// Where the store's port is closed, what each worker and each link kept alone accounts for each reply and each record;
/// and with the ends of the links' ports and of the memory port all of the session is accounted for.
pub fn a_closed_session_is_accounted()
    ensures accounted { (b : StoreBasis) (end : Trail StoreAsk StoreTold) (history : List StoreEntry)
        (workers : List Worker) (links : List Link) (run : Run) (talks : List Talk)
        → StoreEnds b end history workers links run talks → Accounted b history end.told run talks }
    ensures all { (b : StoreBasis) (end : Trail StoreAsk StoreTold) (history : List StoreEntry)
        (workers : List Worker) (links : List Link) (ports : List LinkPorts) (memory : List MemEntry) (run : Run)
        (talks : List Talk) → StoreEnds b end history workers links run talks
        → AllEnded run.links ports talks → Shared (length run.links) (length workers) memory
        → SessionAccounted b history end.told ports (length workers) memory run talks }
{}

/// Where one history accounts for each reply and each record, the records are the links' puts, and the replies are answers of
/// one store where its log tells its bytes.
pub fn an_accounted_session_is_consistent()
    ensures consistent { (b : StoreBasis) (history : List StoreEntry) (trail : List (ℕ × StoreTold)) (run : Run)
        (talks : List Talk) → b.told ≡ true → Accounted b history trail run talks → Consistent run talks }
    ensures recorded { (b : StoreBasis) (history : List StoreEntry) (trail : List (ℕ × StoreTold)) (run : Run)
        (talks : List Talk) → Accounted b history trail run talks → Recorded run talks }
{}

/// The ends of a session's store port, workers and links, with what was read and written of each link: the session served.
pub fn a_closed_session_is_served()
    ensures served { (b : StoreBasis) (end : Trail StoreAsk StoreTold) (history : List StoreEntry)
        (workers : List Worker) (links : List Link) (run : Run) (talks : List Talk) → b.told ≡ true
        → StoreEnds b end history workers links run talks → AllZip TornTalk run.links talks → Served run }
{}

/// Where besides each number that was drawn was replied, and each reply was written whole, the session was whole.
pub fn a_session_without_fault_is_whole()
    ensures whole { (b : StoreBasis) (end : Trail StoreAsk StoreTold) (history : List StoreEntry)
        (workers : List Worker) (links : List Link) (run : Run) (talks : List Talk)
        → StoreEnds b end history workers links run talks → b.told ≡ true
        → AllByRecursion (λ k. length k.drawn ≡ length k.replies) links → AllZip WholeTalk run.links talks
        → Whole run }
{}

/// A session that was whole served.
pub fn a_whole_session_served()
    ensures served { (run : Run) → Whole run → Served run }
{}

/// A session all of which is accounted for served.
pub fn an_accounted_session_served()
    ensures served { (b : StoreBasis) (history : List StoreEntry) (trail : List (ℕ × StoreTold))
        (ports : List LinkPorts) (workers : ℕ) (memory : List MemEntry) (run : Run) (talks : List Talk)
        → b.told ≡ true → SessionAccounted b history trail ports workers memory run talks → Served run }
{}

/// What a text of bytes asks is in range. So is each answer that stands for it, where the log's records are and no more than a
/// number of eight bytes counts; and so is each new record, of at most 65,536 links with 2^32 requests each.
pub fn an_answer_is_in_range()
    ensures asks { (bytes : List ℕ) (ended : Bool) → IsBytes bytes → AllByRecursion IsInRange (asked bytes ended) }
    ensures answer { (run : Run) → AllByRecursion IsRecord run.records → length run.records ≤ word_max
        → (link index : ℕ) (q : Asked) (a : Answer) → IsInRange q → Answers run link index q a → IsAnswer a }
    ensures records { (run : Run) (talks : List Talk) → Recorded run talks → length talks ≤ 65536
        → AllByRecursion (λ t. length t.asks ≤ 4294967296) talks
        → AllByRecursion (λ t. AllByRecursion IsInRange t.asks) talks
        → AllByRecursion IsRecord (drop run.old run.records) }
{}
