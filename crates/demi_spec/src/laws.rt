// Laws of the definitions: functions that do nothing.
ghost use Rattle.std.specs.Prelude.{◌≡◌, ◌<◌, ◌++◌, ◌↔◌, ℕ, List, [], Bool, None, Ok, Err, length};
ghost use Rattle.std.specs.List.{AllByRecursion};
ghost use Rattle.demi_spec.specs.Request.{IsBytes, Request, IsRequest, spelling as request_spelling};
ghost use Rattle.demi_spec.specs.Input.{Ending, Whole, Takes, front, parse, Parses};
ghost use Rattle.demi_spec.specs.LogText.{IsPayload, IsLog, IsBadAt, entries, entry_front, log_text};
ghost use Rattle.demi_spec.specs.Record.{Record, IsRecord, IsRecordLog, IsBadRecordAt, log_of, records};
ghost use Rattle.demi_spec.specs.Input.{Asked};
ghost use Rattle.demi_spec.specs.Reply.{Reply, IsReply, spelling as reply_spelling};
ghost use Rattle.demi_spec.specs.Store.{serial};

/// A text of bytes is exactly the requests that `parse` finds, and ends just so; what is read at its front is spelled
/// there, what is spelled is read again, and no request begins the spelling of another.
pub fn a_text_has_one_reading()
    ensures found { (bytes : List ℕ) (ended : Bool) → IsBytes bytes → Parses (parse bytes ended).requests (parse bytes ended).how ended bytes }
    ensures only { (requests : List Request) (how : Ending) (ended : Bool) (bytes : List ℕ) → Parses requests how ended bytes → parse bytes ended ≡ record { requests = requests; how = how } }
    ensures spelled { (ended : Bool) (bytes : List ℕ) (r : Request) (rest : List ℕ) → IsBytes bytes → front ended bytes ≡ Whole r rest → Takes bytes r rest }
    ensures again { (ended : Bool) (r : Request) (rest : List ℕ) → IsRequest r → front ended (request_spelling r ++ rest) ≡ Whole r rest }
    ensures apart { (q r : Request) (more : List ℕ) → IsRequest q → IsRequest r → request_spelling q ≡ request_spelling r ++ more → (q ≡ r) × (more ≡ []) }
{}

/// A log text is read as its payloads, and a log of records as its records; where no entry stands whole behind the
/// last, its offset is answered.
pub fn a_log_text_is_read_back()
    ensures payloads { (payloads : List (List ℕ)) → AllByRecursion IsPayload payloads → entries (log_text payloads) ≡ Ok payloads }
    ensures recorded { (rs : List Record) → AllByRecursion IsRecord rs → records (log_of rs) ≡ Ok rs }
    ensures bad { (payloads : List (List ℕ)) (rest : List ℕ) → AllByRecursion IsPayload payloads → 0 < length rest → entry_front rest ≡ None → entries (log_text payloads ++ rest) ≡ Err (length (log_text payloads)) }
{}

/// What is read of bytes as a log text is what they spell, and an offset is answered exactly where they are none: it is
/// that of the first bad byte.
pub fn a_log_text_has_one_reading()
    ensures entries { (bytes : List ℕ) (payloads : List (List ℕ)) → IsBytes bytes → (entries bytes ≡ Ok payloads) ↔ IsLog bytes payloads }
    ensures bad { (bytes : List ℕ) (at : ℕ) → IsBytes bytes → (entries bytes ≡ Err at) ↔ IsBadAt bytes at }
    ensures records { (bytes : List ℕ) (rs : List Record) → IsBytes bytes → (records bytes ≡ Ok rs) ↔ IsRecordLog bytes rs }
    ensures bad_record { (bytes : List ℕ) (at : ℕ) → IsBytes bytes → (records bytes ≡ Err at) ↔ IsBadRecordAt bytes at }
{}

/// No reply is the front of another, so the replies that follow each other in a text have one reading.
pub fn no_reply_begins_another()
    ensures { (q r : Reply) (more : List ℕ) → IsReply q → IsReply r → reply_spelling q ≡ reply_spelling r ++ more → (q ≡ r) × (more ≡ []) }
{}

/// What the one-thread store has answered stays answered, and what it has logged stays logged, whatever is asked next.
pub fn what_was_answered_stays()
    ensures replies { (old : List Record) (limit : ℕ) (asks more : List Asked) → (further : List Reply) × ((serial old limit (asks ++ more)).replies ≡ (serial old limit asks).replies ++ further) }
    ensures added { (old : List Record) (limit : ℕ) (asks more : List Asked) → (further : List Record) × ((serial old limit (asks ++ more)).records ≡ (serial old limit asks).records ++ further) }
{}
