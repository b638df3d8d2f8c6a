// Whether an answer is the one to a request.
ghost use Rattle.std.specs.Prelude.{◌≡◌, ◌≤◌, ◌<◌, ◌-◌, ◌&&◌, List, ℕ, nat_lt, nat_le, length, take, slice_get, bytes_eq};
ghost use Rattle.std.specs.Option.{option_copied};
ghost use Rattle.demi_spec.specs.Store.{map};
ghost use Rattle.demi_spec.specs.Input.{Request_of, Refused_end};
ghost use Rattle.demi_spec.specs.Request as request;
ghost use Rattle.demi_served.specs.Talks.{Run};
ghost use Rattle.demi_audit.specs.Verdict.{answers, is_record, is_value};
ghost use Rattle.demi_audit.specs.Asking.{asks, size_of};
ghost use Rattle.demi_audit.specs.Book.{IsBook};
ghost use Rattle.demi_audit.specs.Hearing.{answer_by};

use crate::ask::{Ask, key_in, value_in};
use crate::book::Book;
use crate::heard::AnswerKind;

// Whether a put is stored as a version of this log.
#[tactic(auto, using(std::proofs::lemmas::Bool::Decides::nat_tests))]
fn is_stored_as(
    book: &Book<'_>,
    link: u32,
    index: usize,
    key: &[u8],
    value: &[u8],
    version: u64,
    bytes: &[u8],
) -> bool
    requires { (run : Run) × IsBook book.now run }
    ensures { (run : Run) → IsBook book.now run
        → result ≡ answers run link index (Request_of (request.Put key.now value.now)) (answer_by AnswerKind.Stored version bytes.now) }
{
    u64::from(book.old) < version
        && version <= book.count() as u64
        && version <= u64::from(book.limit)
        && bytes == value
        && book.has_record(version as usize, link, index, key, value)
}

// Whether the log is full with so many records.
#[tactic(auto, using(std::proofs::lemmas::Bool::Decides::nat_tests))]
fn is_full_at(book: &Book<'_>, version: u64) -> bool
    ensures { (run : Run) → IsBook book.now run → result ≡ (nat_le run.old version && (nat_le run.limit version && nat_le version (length run.records))) }
{
    u64::from(book.old) <= version
        && u64::from(book.limit) <= version
        && version <= book.count() as u64
}

// Whether the map of the first so many records has this value at a key, or none.
#[tactic(auto, using(std::proofs::lemmas::Bool::Decides::nat_tests))]
fn is_found_at(book: &Book<'_>, version: u64, key: &[u8], value: Option<&[u8]>) -> bool
    requires { (run : Run) × IsBook book.now run }
    ensures { (run : Run) → IsBook book.now run
        → result ≡ (nat_le run.old version && (nat_le version (length run.records) && is_value (map (take version run.records) key.now) (option_copied value.entry))) }
{
    u64::from(book.old) <= version
        && version <= book.count() as u64
        && book.has_value(version as usize, key, value)
}

/// Whether an answer of this kind, with this version and these bytes, is the one to what a link asked.
pub(crate) fn answers(
    book: &Book<'_>,
    link: u32,
    index: usize,
    ask: Ask,
    input: &[u8],
    kind: AnswerKind,
    version: u64,
    bytes: &[u8],
) -> bool
    requires book { (run : Run) × IsBook book.now run }
    requires ask { size_of ask ≤ length input.now }
    ensures { (run : Run) → IsBook book.now run → result ≡ answers run link index (asks ask input.now) (answer_by kind version bytes.now) }
{
    match (ask, kind) {
        (Ask::Put { .. }, AnswerKind::Stored) => is_stored_as(
            book,
            link,
            index,
            key_in(ask, input),
            value_in(ask, input),
            version,
            bytes,
        ),
        (Ask::Put { .. }, AnswerKind::Full) => is_full_at(book, version),
        (Ask::Get { .. }, AnswerKind::Found) => {
            is_found_at(book, version, key_in(ask, input), Some(bytes))
        }
        (Ask::Get { .. }, AnswerKind::Missing) => {
            is_found_at(book, version, key_in(ask, input), None)
        }
        (Ask::End, AnswerKind::Bye) => true,
        (Ask::Refused { code }, AnswerKind::Refused(said)) => said == code,
        _ => false,
    }
}
