//! Where a step leads.
ghost use Rattle.std.specs.Prelude.{◌≡◌};
ghost use Rattle.demi_link.specs.Causes.{Answers, IsYield, WaitsFor, IsEnded};
ghost use Rattle.demi_link.specs.declared.phase.Phase.TheVariants.{Over as over_for};

use crate::phase::{Cause, Phase};
use arrayvec::ArrayVec;
use demi_port_core::QToken;
use demi_sched::Next;

/// Where a link stands, and what its poll answers.
pub(crate) struct Stand {
    pub(crate) phase: Phase,
    pub(crate) next: Next,
}

fn wait_for(token: QToken) -> Next
    ensures { WaitsFor token result }
{
    let mut tokens = ArrayVec::new();
    tokens.push(token);
    Next::Wait(tokens)
}

// It waits for this token there.
pub(crate) fn waits(phase: Phase, token: QToken) -> Stand
    ensures phase { result.phase ≡ phase }
    ensures next { WaitsFor token result.next }
{
    Stand {
        phase,
        next: wait_for(token),
    }
}

// It is to be polled again there.
pub(crate) fn yields(phase: Phase) -> Stand
    ensures phase { result.phase ≡ phase }
    ensures next { IsYield result.next }
{
    Stand {
        phase,
        next: Next::Yield,
    }
}

// It is over.
pub(crate) fn ends(cause: Cause) -> Stand
    ensures phase { result.phase ≡ over_for cause }
    ensures next { IsEnded result.next }
{
    Stand {
        phase: Phase::Over(cause),
        next: Next::Ended,
    }
}
