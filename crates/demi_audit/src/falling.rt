// Whether the versions of a link's replies fall.
ghost use Rattle.std.specs.Prelude.{◌≡◌, List, ℕ, Option};
ghost use Rattle.demi_served.specs.Answers.{is_stored, version_of};
ghost use Rattle.demi_audit.specs.Verdict.{falls_by};
ghost use Rattle.demi_audit.specs.Hearing.{answer_by};
ghost use Rattle.demi_audit.specs.Falling.{later_of};

use crate::heard::{AnswerKind, version_named};

/// Whether an answer of this kind is that of a stored put.
pub(crate) fn is_stored(kind: AnswerKind) -> bool
    ensures { (version : ℕ) (bytes : List ℕ) → result ≡ is_stored (answer_by kind version bytes) }
{
    match kind {
        AnswerKind::Stored => true,
        AnswerKind::Found
        | AnswerKind::Missing
        | AnswerKind::Full
        | AnswerKind::Refused(_)
        | AnswerKind::Bye => false,
    }
}

/// Whether an answer's version is below the greatest one before it, or not above it where a put is stored.
#[tactic(auto, using(std::proofs::lemmas::Bool::Decides::nat_tests))]
pub(crate) fn falls(kind: AnswerKind, version: u64, greatest: Option<u64>) -> bool
    ensures { (bytes : List ℕ) → let a = answer_by kind version bytes in result ≡ falls_by (is_stored a) greatest (version_of a) }
{
    match (greatest, version_named(kind, version)) {
        (Some(most), Some(here)) => here < most || (is_stored(kind) && here == most),
        _ => false,
    }
}

/// The greater of two versions, where there are two.
#[tactic(auto, using(std::proofs::lemmas::Bool::Decides::nat_tests))]
pub(crate) fn later_of(a: Option<u64>, b: Option<u64>) -> Option<u64>
    ensures { result ≡ later_of a b }
{
    match (a, b) {
        (Some(a), Some(b)) => Some(if a < b { b } else { a }),
        (Some(a), None) => Some(a),
        (None, b) => b,
    }
}
