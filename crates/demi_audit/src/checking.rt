ghost use Rattle.std.specs.Prelude.{◌≡◌, ◌≢◌, ◌≤◌, ◌<◌, ℕ, List, length, map, Some, None, Ok, Err, IfOk, IfErr, IsOk, MatchResult};
ghost use Rattle.std.specs.List.{AllByRecursion};
ghost use Rattle.demi_served.specs.Talks.{Run};
ghost use Rattle.demi_served.specs.Served.{Whole};
ghost use Rattle.demi_audit.specs.Checking.{Counts, HasFault, Refuses, Says};
ghost use Rattle.demi_audit.specs.Entries.{Logs};
ghost use Rattle.demi_audit.specs.Hearing.{Follows, StandsIn};
ghost use Rattle.demi_audit.specs.Judging.{IsCase};
ghost use Rattle.demi_audit.specs.Reading.{IsInside, ReadAs, link_by};
ghost use Rattle.demi_audit.specs.Transcript.{transcript as session_of};
ghost use Rattle.demi_audit.specs.Verdict.{EntryAt, Heard, HeardAll, ReplyAt, first_fault};

use crate::book::open_book;
use crate::each_link::judge_links;
use crate::each_record::{find_stored, judge_records};
use crate::heard::HeardReply;
use crate::hearing::{Hearing, LinkHeard, hear};
use crate::judging::Case;
use crate::transcript::{LOG_AT, LinkPlaces, Transcript, TranscriptFault, read_transcript};
use crate::turns::find_turns;
use demi_core::NoMemory;
use std::alloc::Global;

/// What a consistent transcript has.
#[derive(Clone, Copy, Debug, PartialEq, Eq)]
pub struct CheckEnd {
    /// Its links.
    pub links: u32,
    /// The replies that stand at the front of the links' outputs.
    pub replies: u64,
    /// The records of its log, the old ones too.
    pub records: u64,
}

/// Why a transcript is not consistent, or was not checked.
#[derive(Clone, Copy, Debug, PartialEq, Eq)]
pub enum CheckRefusal {
    /// The bytes are no transcript. This is the first byte of the first bad field.
    BadTranscript(u64),
    /// The first reply that no one store explains, by its link and its index there, both from 0. Where a request has no
    /// reply, or bytes follow the last reply, it is the reply that would be next.
    Reply { link: u32, index: u64 },
    /// Every reply is explained. This is the first new record that is not that of a stored reply, by its number from 1.
    Entry { version: u64 },
    /// Memory was refused.
    NoMemory,
}

impl From<NoMemory> for CheckRefusal {
    ghost use Rattle.demi_audit.specs.declared.checking.CheckRefusal.TheVariants.{NoMemory};

    ghost from_gives = { λ _ e. e ≡ NoMemory };

    fn from(_: NoMemory) -> Self {
        CheckRefusal::NoMemory
    }
}

// What is looked at to judge the replies that were heard.
fn open_case<'a>(
    alloc: Global,
    text: &'a [u8],
    log: &'a [u8],
    read: Transcript,
    heard: Vec<HeardReply>,
) -> Result<(Case<'a>, Vec<LinkPlaces>), NoMemory>
    requires log { (run : Run) × Logs log.now read.ends.items run.records }
    requires inside { AllByRecursion (StandsIn (length text.now)) heard.items }
    ensures text { IfOk result (λ c. c.0.text.now ≡ text.now) }
    ensures heard { IfOk result (λ c. c.0.heard.items ≡ heard.items) }
    ensures links { IfOk result (λ c. c.1.items ≡ read.links.items) }
    ensures case { (run : Run) → Logs log.now read.ends.items run.records → run.old ≡ read.old → run.limit ≡ read.limit → IfOk result (λ c. IsCase c.0 run) }
{
    let Transcript {
        limit,
        old,
        log_size: _,
        ends,
        links,
    } = read;
    let turns = find_turns(alloc, &heard)?;
    let book = open_book(alloc, log, ends, old, limit)?;
    Ok((
        Case {
            text,
            book,
            heard,
            turns,
        },
        links,
    ))
}

// Judges the replies of all links, and then the new records.
fn judge(
    alloc: Global,
    case: &Case<'_>,
    places: &[LinkPlaces],
    links: &[LinkHeard],
) -> Result<(), CheckRefusal>
    requires case { (run : Run) × IsCase case.now run × (run.old ≤ length run.records) }
    requires heard { (all : List Heard) × HeardAll (map (link_by case.now.text.now) places.now) all × Follows case.now.text.now case.now.heard.items links.now all }
    requires inside { AllByRecursion (IsInside (length case.now.text.now)) places.now }
    requires few { length places.now ≤ 16 }
    ensures { (run : Run) (all : List Heard) → IsCase case.now run → HeardAll (map (link_by case.now.text.now) places.now) all
        → Follows case.now.text.now case.now.heard.items links.now all → MatchResult result (λ _. first_fault run all ≡ None) (λ e. Says e (first_fault run all)) }
{
    let count = case.book.count();
    let stored = find_stored(alloc, &case.heard, count)?;
    if let Some((link, index)) = judge_links(case, places, links) {
        return Err(CheckRefusal::Reply {
            link,
            index: index as u64,
        });
    }
    match judge_records(&stored, case.book.old as usize, count) {
        Some(version) => Err(CheckRefusal::Entry {
            version: version as u64,
        }),
        None => Ok(()),
    }
}

// Checks a transcript that was read.
fn check_read(alloc: Global, text: &[u8], read: Transcript) -> Result<CheckEnd, CheckRefusal>
    requires { (run : Run) × (session_of text.now ≡ Ok run) × ReadAs read text.now run }
    ensures consistent { IfOk result (λ end. HasFault text.now None) }
    ensures counts { IfOk result (λ end. Counts text.now end.links end.replies end.records) }
    ensures refused { IfErr result (Refuses text.now) }
{
    let Hearing { heard, links } = hear(alloc, text, &read.links)?;
    let log = &text[LOG_AT..LOG_AT + read.log_size];
    let (case, places) = open_case(alloc, text, log, read, heard)?;
    match judge(alloc, &case, &places, &links) {
        Ok(()) => Ok(CheckEnd {
            links: places.len() as u32,
            replies: case.heard.len() as u64,
            records: case.book.count() as u64,
        }),
        Err(refusal) => Err(refusal),
    }
}

/// Checks the transcript of a session: whether one store explains every reply of every link and every new record of the
/// log. It is consistent exactly where the session was whole, all inputs ended. Otherwise the answer is the first fault:
/// replies come first, by link and by index, and then the new records.
///
/// Beside the transcript it takes about 100 bytes of memory for a request, and up to twice that while its tables grow; its
/// steps are about as many as the transcript has bytes, and for a get also the logarithm of how often its key was put.
/// No clause says so. `NoMemory` may come at any transcript.
pub fn check(alloc: Global, transcript: &[u8]) -> Result<CheckEnd, CheckRefusal>
    ensures consistent { IfOk result (λ end. HasFault transcript.now None) }
    ensures counts { IfOk result (λ end. Counts transcript.now end.links end.replies end.records) }

    // each refusal but that for want of memory says what is wrong first
    ensures bad { (at : ℕ) → result ≡ Err (CheckRefusal.BadTranscript at) → session_of transcript.now ≡ Err at }
    ensures reply { (link index : ℕ) → result ≡ Err (CheckRefusal.Reply link index) → HasFault transcript.now (Some (ReplyAt link index)) }
    ensures entry { (version : ℕ) → result ≡ Err (CheckRefusal.Entry version) → HasFault transcript.now (Some (EntryAt version)) }

    // so it is consistent where the session was whole
    ensures whole { (run : Run) → session_of transcript.now ≡ Ok run → IsOk result → Whole run }
    ensures only { (run : Run) → session_of transcript.now ≡ Ok run → Whole run → IfErr result (λ e. e ≡ CheckRefusal.NoMemory) }
{
    match read_transcript(alloc, transcript) {
        Ok(read) => check_read(alloc, transcript, read),
        Err(TranscriptFault::Bad(at)) => Err(CheckRefusal::BadTranscript(at as u64)),
        Err(TranscriptFault::NoMemory) => Err(CheckRefusal::NoMemory),
    }
}
