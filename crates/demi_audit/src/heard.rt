// A reply that was heard on a link.
ghost use Rattle.std.specs.Prelude.{◌≡◌, List, ℕ};
ghost use Rattle.demi_served.specs.Answers.{version_of, is_stored};
ghost use Rattle.demi_audit.specs.Hearing.{answer_by, height};

/// What a reply answers.
#[derive(Clone, Copy, Debug, PartialEq, Eq)]
pub(crate) enum AnswerKind {
    Stored,
    Found,
    Missing,
    Full,
    /// A refusal with its code.
    Refused(u8),
    Bye,
}

/// A reply. Its bytes stand where they were read.
#[derive(Clone, Copy, Debug, PartialEq, Eq)]
pub(crate) struct HeardReply {
    pub(crate) worker: u8,
    pub(crate) sequence: u64,
    pub(crate) kind: AnswerKind,
    /// The version that it names; 0 where it names none.
    pub(crate) version: u64,
    /// Where its bytes begin in the transcript.
    pub(crate) from: usize,
    /// The number of its bytes.
    pub(crate) length: u32,
}

/// The version that an answer of this kind names.
pub(crate) fn version_named(kind: AnswerKind, version: u64) -> Option<u64>
    ensures { (bytes : List ℕ) → result ≡ version_of (answer_by kind version bytes) }
{
    match kind {
        AnswerKind::Stored | AnswerKind::Found | AnswerKind::Missing | AnswerKind::Full => {
            Some(version)
        }
        AnswerKind::Refused(_) | AnswerKind::Bye => None,
    }
}

/// The version that an answer of this kind names, or 0.
pub(crate) fn height(kind: AnswerKind, version: u64) -> u64
    ensures { result ≡ height kind version }
{
    match kind {
        AnswerKind::Stored | AnswerKind::Found | AnswerKind::Missing | AnswerKind::Full => version,
        AnswerKind::Refused(_) | AnswerKind::Bye => 0,
    }
}
