//! How a coroutine stands between polls.
ghost use Rattle.std.specs.Prelude.{◌≡◌, cond};
ghost use Rattle.demi_sched.specs.Waiting.{has_ended, is_due, state_after};

use crate::next::Next;
use arrayvec::ArrayVec;
use demi_port_core::QToken;

/// How a coroutine that a scheduler holds stands.
#[derive(Drop)]
pub enum State {
    /// It was not polled since it was added, or its last poll answered `Yield`.
    Due,
    /// It waits for one of these tokens.
    Waiting(ArrayVec<QToken, 8>),
    /// It is over.
    Ended,
}

impl State {
    // How a coroutine stands after a poll that answered this.
    pub(crate) fn after(next: Next) -> State
        ensures { result ≡ state_after next }
    {
        match next {
            Next::Wait(tokens) => State::Waiting(tokens),
            Next::Yield => State::Due,
            Next::Ended => State::Ended,
        }
    }

    // Whether it is over.
    pub(crate) fn has_ended(&self) -> bool
        ensures { result ≡ has_ended self.now }
    {
        matches!(self, State::Ended)
    }

    // 1 where it is due, and else 0.
    pub(crate) fn count_due(&self) -> u32
        ensures { result ≡ cond (is_due self.now) 1 0 }
    {
        match self {
            State::Due => 1,
            State::Waiting(_) => 0,
            State::Ended => 0,
        }
    }

    // 1 where it is not over, and else 0.
    pub(crate) fn count(&self) -> u32
        ensures { result ≡ cond (has_ended self.now) 0 1 }
    {
        if self.has_ended() { 0 } else { 1 }
    }
}
