//! What the engine was served and what it added, for contracts alone.
ghost use Rattle.std.specs.Prelude.{◌≡◌, ◌++◌, [], ◌∷◌};
ghost use Rattle.demi_memq.specs.Said.{op_said};

use crate::{MemLaw, MemOp, MemOut};
use demi_device::{Done, Mark};
use std::collections::LinkedList;

/// What the operations say, by place.
pub(crate) type History = Mark<LinkedList<MemOp>>;

/// The outcomes with their places, in their order.
pub(crate) type Outcomes = Mark<LinkedList<(u64, MemOut)>>;

pub(crate) fn no_history() -> History
    ensures { result.value ≡ [] }
{
    Mark::from(&(), &())
}

pub(crate) fn no_outcomes() -> Outcomes
    ensures { result.value ≡ [] }
{
    Mark::from(&(), &())
}

pub(crate) fn heard(history: &History, op: &MemOp) -> History
    ensures { result.value ≡ history.now.value ++ op_said op.now ∷ [] }
{
    Mark::from(history, op)
}

pub(crate) fn finished(outcomes: &Outcomes, done: &Done<MemLaw>) -> Outcomes
    ensures { result.value ≡ outcomes.now.value ++ done.now.added }
{
    Mark::from(outcomes, done)
}
