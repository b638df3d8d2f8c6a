// Whether the sequence number of each reply is right.
ghost use Rattle.std.specs.Prelude.{◌≡◌, ◌+◌, ◌<◌, ℕ, List, [], ◌∷◌, ◌++◌, false, length, take, get_or, replicate, IfOk};
ghost use Rattle.demi_audit.specs.Hearing.{reply_by, replies_by};
ghost use Rattle.demi_audit.specs.Turns.{IsPlacing, IsTable, greatest_below, is_in_turn, is_late, turn_of, was_given};

use crate::ahead::find_ahead;
use crate::heard::{AnswerKind, HeardReply};
use crate::places::{Places, WORKERS};
use demi_core::NoMemory;
use std::alloc::Global;

// Whether an answer names a version that is below another.
fn is_late(kind: AnswerKind, version: u64, greatest: u64) -> bool
    ensures { result ≡ is_late kind version greatest }
{
    match kind {
        AnswerKind::Stored | AnswerKind::Found | AnswerKind::Missing | AnswerKind::Full => {
            version < greatest
        }
        AnswerKind::Refused(_) | AnswerKind::Bye => false,
    }
}

// Whether the number of a reply is right, where those of its worker's earlier replies are marked.
fn is_turn(places: &Places, ahead: &[u64], given: &[bool], reply: HeardReply) -> bool
    requires placing { (heard : List HeardReply) × IsPlacing places.now heard × (length ahead.now ≡ length heard + 256) × (length given.now ≡ length heard + 256) }
    ensures { (heard before : List HeardReply) → IsPlacing places.now heard → IsTable places.now (greatest_below heard) ahead.now
        → IsTable places.now (was_given before) given.now → result ≡ turn_of heard before reply }
{
    match places.place(reply.worker, reply.sequence) {
        Some(at) => {
            0 < reply.sequence && !given[at] && !is_late(reply.kind, reply.version, ahead[at])
        }
        None => false,
    }
}

// Marks the number of a reply.
fn mark(places: &Places, given: &mut Vec<bool>, reply: HeardReply)
    requires placing { (heard : List HeardReply) × IsPlacing places.now heard × (length given.old.items ≡ length heard + 256) }
    ensures marked { (heard before : List HeardReply) → IsPlacing places.now heard → IsTable places.now (was_given before) given.old.items
        → IsTable places.now (was_given (before ++ reply ∷ [])) given.new.items }
    ensures size { length given.new.items ≡ length given.old.items }
{
    if let Some(at) = places.place(reply.worker, reply.sequence) {
        given[at] = true;
    }
}

/// A table of so many marks, none of which is set.
pub(crate) fn no_marks(alloc: Global, count: usize) -> Result<Vec<bool>, NoMemory>
    ensures { IfOk result (λ v. v.items ≡ replicate count false) }
{
    let mut table = Vec::new(alloc);
    table.resize(count, false)?;
    Ok(table)
}

/// Whether the number of each reply is right.
pub(crate) fn find_turns(alloc: Global, heard: &[HeardReply]) -> Result<Vec<bool>, NoMemory>
    ensures count { IfOk result (λ v. length v.items ≡ length heard.now) }
    ensures each { IfOk result (λ v. (text : List ℕ) (i : ℕ) (d : HeardReply) → i < length heard.now
        → get_or v.items i false ≡ is_in_turn (replies_by text heard.now) (replies_by text (take i heard.now)) (reply_by text (get_or heard.now i d))) }
{
    let places = Places::of(alloc, heard)?;
    let ahead = find_ahead(alloc, &places, heard)?;
    let mut given = no_marks(alloc, heard.len() + WORKERS)?;
    let mut turns = Vec::new(alloc);
    'turns: for reply in heard {
        turns.push(is_turn(&places, &ahead, &given, *reply))?;
        mark(&places, &mut given, *reply);
    }
    Ok(turns)
}
