// The replies at the front of each link's output.
ghost use Rattle.std.specs.Prelude.{◌≡◌, ◌++◌, ◌+◌, ◌<◌, ◌≤◌, ◌^◌, ℕ, List, length, take, drop, map, IfOk, MatchOption};
ghost use Rattle.std.specs.List.{AllByRecursion};
ghost use Rattle.demi_frame.specs.ReadBack.{ReadsBack};
ghost use Rattle.demi_audit.specs.Reading.{IsInside, link_by};
ghost use Rattle.demi_audit.specs.Verdict.{Heard, HeardAll, NoReply};
ghost use Rattle.demi_audit.specs.Hearing.{Follows, Hears, StandsIn, answer_by, reply_by};

use crate::heard::{AnswerKind, HeardReply};
use crate::transcript::LinkPlaces;
use demi_core::NoMemory;
use demi_frame::{BYE, FOUND, FULL, MISSING, Reply, STORED, read_reply};
use std::alloc::Global;

/// How many replies were heard of a link, and whether bytes follow them.
#[derive(Clone, Copy, Debug, PartialEq, Eq)]
pub(crate) struct LinkHeard {
    pub(crate) count: usize,
    pub(crate) more: bool,
}

/// What was heard of all links: the replies of the first link, of the second, and so on.
#[derive(Drop)]
pub(crate) struct Hearing {
    pub(crate) heard: Vec<HeardReply>,
    pub(crate) links: Vec<LinkHeard>,
}

const HEAD_BYTES: usize = 22;

// The reply at the front of a text, where there is one.
fn next_reply(front: &[u8]) -> Option<(Reply, usize)>
    ensures { MatchOption result (NoReply front.now) (λ r. ReadsBack front.now r.0 r.1) }
{
    match read_reply(front) {
        Ok(found) => Some(found),
        Err(_) => None,
    }
}

// What a reply answers, which stands at the front of a text.
fn kind_of(front: &[u8], reply: Reply) -> AnswerKind
    requires { (used : ℕ) × ReadsBack front.now reply used }
    ensures { (used : ℕ) (read : ReadsBack front.now reply used) (bytes : List ℕ) → take reply.length (drop 22 front.now) ≡ bytes → answer_by result reply.version bytes ≡ read.reply.answer }
{
    match reply.kind {
        STORED => AnswerKind::Stored,
        FOUND => AnswerKind::Found,
        MISSING => AnswerKind::Missing,
        FULL => AnswerKind::Full,
        BYE => AnswerKind::Bye,
        _ => AnswerKind::Refused(front[HEAD_BYTES]),
    }
}

// A reply that stands at the front of a text, and at a place of the transcript.
fn heard_at(front: &[u8], reply: Reply, at: usize) -> HeardReply
    requires read { (used : ℕ) × ReadsBack front.now reply used }
    requires place { at + 22 < 2 ^ 64 }
    ensures from { result.from ≡ at + 22 }
    ensures length { result.length ≡ reply.length }
    ensures reply { (used : ℕ) (read : ReadsBack front.now reply used) (text : List ℕ)
        → take reply.length (drop (at + 22) text) ≡ take reply.length (drop 22 front.now) → reply_by text result ≡ read.reply }
{
    HeardReply {
        worker: reply.worker,
        sequence: reply.sequence,
        kind: kind_of(front, reply),
        version: reply.version,
        from: at + HEAD_BYTES,
        length: reply.length,
    }
}

// Hears one link, and appends its replies to those of the links before it.
fn hear_link(
    text: &[u8],
    from: usize,
    size: usize,
    heard: &mut Vec<HeardReply>,
) -> Result<LinkHeard, NoMemory>
    requires { from + size ≤ length text.now }
    ensures { IfOk result (λ l. (more : List HeardReply) × (heard.new.items ≡ heard.old.items ++ more) × Hears text.now from size l more) }
{
    let before = heard.len();
    let output = &text[from..from + size];
    let mut at = 0;
    'hearing: while let Some((reply, used)) = next_reply(&output[at..]) {
        heard.push(heard_at(&output[at..], reply, from + at))?;
        at += used;
    }
    Ok(LinkHeard {
        count: heard.len() - before,
        more: at < size,
    })
}

/// Hears all links of a transcript. It takes 32 bytes of memory for each reply, and while it grows as much again.
pub(crate) fn hear(alloc: Global, text: &[u8], places: &[LinkPlaces]) -> Result<Hearing, NoMemory>
    requires { AllByRecursion (IsInside (length text.now)) places.now }
    ensures heard { IfOk result (λ h. (all : List Heard) × HeardAll (map (link_by text.now) places.now) all × Follows text.now h.heard.items h.links.items all) }
    ensures inside { IfOk result (λ h. AllByRecursion (StandsIn (length text.now)) h.heard.items) }
{
    let mut heard = Vec::new(alloc);
    let mut links = Vec::new(alloc);
    'links: for place in places {
        let link = hear_link(text, place.output, place.output_size, &mut heard)?;
        links.push(link)?;
    }
    Ok(Hearing { heard, links })
}
