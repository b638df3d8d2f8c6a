// Which reply of a link is the first that is not consistent.
ghost use Rattle.std.specs.Prelude.{◌≡◌, ◌+◌, ◌≤◌, ◌<◌, ℕ, Bool, true, List, [], length, take, drop, get_or, nat_lt, Option};
ghost use Rattle.demi_spec.specs.Input.{asked};
ghost use Rattle.demi_spec.specs.Reply.{Reply};
ghost use Rattle.demi_served.specs.Talks.{Run};
ghost use Rattle.demi_audit.specs.Asking.{asks, size_of};
ghost use Rattle.demi_audit.specs.Falling.{greatest_of};
ghost use Rattle.demi_audit.specs.Hearing.{no_reply, replies_by, reply_by};
ghost use Rattle.demi_audit.specs.Judging.{IsCase};
ghost use Rattle.demi_audit.specs.Verdict.{is_right, link_fault};

use crate::ask::{Ask, behind, next_ask};
use crate::book::Book;
use crate::falling::{falls, later_of};
use crate::heard::{HeardReply, version_named};
use crate::replying::answers;

/// What is looked at to judge the replies of a transcript.
#[derive(Drop)]
pub(crate) struct Case<'a> {
    /// The transcript.
    pub(crate) text: &'a [u8],
    pub(crate) book: Book<'a>,
    pub(crate) heard: Vec<HeardReply>,
    /// Whether the sequence number of each reply is right.
    pub(crate) turns: Vec<bool>,
}

// Whether a reply is consistent: the one at this place of all that were heard, to the request with this index.
fn is_right(
    case: &Case<'_>,
    link: u32,
    index: usize,
    at: usize,
    ask: Ask,
    input: &[u8],
    greatest: Option<u64>,
) -> bool
    requires case { (run : Run) × IsCase case.now run }
    requires at { at < length case.now.heard.items }
    requires ask { size_of ask ≤ length input.now }
    ensures { (run : Run) (mine : List Reply) → IsCase case.now run → greatest ≡ greatest_of mine
        → let text = case.now.text.now in let heard = case.now.heard.items in
        result ≡ is_right run (record { all = replies_by text heard; before = replies_by text (take at heard); mine = mine }) link index (asks ask input.now) (reply_by text (get_or heard at no_reply)) }
{
    let reply = case.heard[at];
    let bytes = &case.text[reply.from..reply.from + reply.length as usize];
    if !answers(
        &case.book,
        link,
        index,
        ask,
        input,
        reply.kind,
        reply.version,
        bytes,
    ) {
        return false;
    }
    if falls(reply.kind, reply.version, greatest) {
        return false;
    }
    case.turns[at]
}

/// The first index at which a link is wrong, whose replies are so many from this place on.
pub(crate) fn judge_link(
    case: &Case<'_>,
    link: u32,
    input: &[u8],
    from: usize,
    count: usize,
    more: bool,
) -> Option<usize>
    requires case { (run : Run) × IsCase case.now run }
    requires inside { from + count ≤ length case.now.heard.items }
    ensures { (run : Run) (rest : List ℕ) → IsCase case.now run → more ≡ nat_lt 0 (length rest)
        → let text = case.now.text.now in let heard = case.now.heard.items in
        result ≡ link_fault run (record { all = replies_by text heard; before = replies_by text (take from heard); mine = [] }) link 0 rest (asked input.now true) (replies_by text (take count (drop from heard))) }
{
    let mut left = input;
    let mut greatest = None;
    'judging: for i in 0..count {
        let Some(ask) = next_ask(left) else {
            return Some(i);
        };
        if !is_right(case, link, i, from + i, ask, left, greatest) {
            return Some(i);
        }
        let reply = case.heard[from + i];
        greatest = later_of(greatest, version_named(reply.kind, reply.version));
        left = behind(ask, left);
    }
    if more {
        return Some(count);
    }
    match next_ask(left) {
        Some(_) => Some(count),
        None => None,
    }
}
