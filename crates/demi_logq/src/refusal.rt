ghost use Rattle.std.specs.Prelude.{◌≡◌};
ghost use Rattle.demi_logq.specs.declared.refusal.LogRefusal.TheVariants.{Failed as failed, NoMemory as no_memory};

use demi_core::Failed;
use std::alloc::{AllocError, AllocFailed};

/// Why a log does not do what is asked.
#[derive(Clone, Copy, Debug, PartialEq, Eq)]
pub enum LogRefusal {
    /// A call of the disk failed. Its count of faults rose.
    Failed,
    /// Memory was refused.
    NoMemory,
    /// The disk holds no log. The number is the offset of its first bad byte.
    BadLog(u64),
    /// The log has as many entries as its limit allows.
    Full,
    /// A commit or a cut failed before, so what the disk holds is in doubt.
    Broken,
}

impl From<Failed> for LogRefusal {
    ghost from_gives = { λ _ e. e ≡ failed };

    fn from(_: Failed) -> Self {
        LogRefusal::Failed
    }
}

impl From<AllocError> for LogRefusal {
    ghost from_gives = { λ _ e. e ≡ no_memory };

    fn from(_: AllocError) -> Self {
        LogRefusal::NoMemory
    }
}

impl<T: Drop> From<AllocFailed<T>> for LogRefusal {
    ghost from_gives = { λ _ e. e ≡ no_memory };

    fn from(_: AllocFailed<T>) -> Self {
        LogRefusal::NoMemory
    }
}
