// Which new record is the first that is not that of a stored reply.
ghost use Rattle.std.specs.Prelude.{◌≡◌, ◌+◌, ◌<◌, ◌≤◌, ◌++◌, ◌∷◌, ◌^◌, ℕ, List, [], length, drop, get_or, IfOk, option_map};
ghost use Rattle.demi_spec.specs.Record.{Record};
ghost use Rattle.demi_spec.specs.Reply.{Reply};
ghost use Rattle.demi_audit.specs.Checking.{MarksStored};
ghost use Rattle.demi_audit.specs.Hearing.{replies_by};
ghost use Rattle.demi_audit.specs.Verdict.{Fault, records_fault};

use crate::falling::is_stored;
use crate::heard::HeardReply;
use crate::turns::no_marks;
use demi_core::NoMemory;
use std::alloc::Global;

// Marks the version that a stored reply names.
fn mark_stored(marks: &mut Vec<bool>, reply: HeardReply)
    ensures marked { (text : List ℕ) (before : List HeardReply) → MarksStored marks.old.items (replies_by text before)
        → MarksStored marks.new.items (replies_by text (before ++ reply ∷ [])) }
    ensures size { length marks.new.items ≡ length marks.old.items }
{
    if !is_stored(reply.kind) {
        return;
    }
    let version = reply.version as usize;
    if version < marks.len() {
        marks[version] = true;
    }
}

/// The versions, up to so many, that stored replies name.
pub(crate) fn find_stored(
    alloc: Global,
    heard: &[HeardReply],
    count: usize,
) -> Result<Vec<bool>, NoMemory>
    requires { count + 1 < 2 ^ 64 }
    ensures size { IfOk result (λ v. length v.items ≡ count + 1) }
    ensures marks { IfOk result (λ v. (text : List ℕ) → MarksStored v.items (replies_by text heard.now)) }
{
    let mut marks = no_marks(alloc, count + 1)?;
    'marking: for reply in heard {
        mark_stored(&mut marks, *reply);
    }
    Ok(marks)
}

/// The first version above the old records whose record no stored reply names.
pub(crate) fn judge_records(marks: &[bool], old: usize, count: usize) -> Option<usize>
    requires size { length marks.now ≡ count + 1 }
    requires old { old ≤ count }
    ensures { (replies : List Reply) (rs : List Record) → MarksStored marks.now replies → length rs ≡ count
        → records_fault replies (old + 1) (drop old rs) ≡ option_map (λ v. Fault.EntryAt v) result }
{
    'records: for i in old..count {
        if !marks[i + 1] {
            return Some(i + 1);
        }
    }
    None
}
