//! What an engine was served and what it added, for contracts alone.
ghost use Rattle.std.specs.Prelude.{◌≡◌, ◌++◌, [], ◌∷◌};

use crate::{RxLaw, RxOp, RxOut};
use demi_device::{Done, Mark};
use std::collections::LinkedList;

// The operations, by place.
pub(crate) type RxHistory = Mark<LinkedList<RxOp>>;

// The outcomes with their places, in their order.
pub(crate) type RxOutcomes = Mark<LinkedList<(u64, RxOut)>>;

pub(crate) fn no_history() -> RxHistory
    ensures { result.value ≡ [] }
{
    Mark::from(&(), &())
}

pub(crate) fn no_outcomes() -> RxOutcomes
    ensures { result.value ≡ [] }
{
    Mark::from(&(), &())
}

pub(crate) fn heard(history: &RxHistory, op: &RxOp) -> RxHistory
    ensures { result.value ≡ history.now.value ++ op.now ∷ [] }
{
    Mark::from(history, op)
}

pub(crate) fn finished(outcomes: &RxOutcomes, done: &Done<RxLaw>) -> RxOutcomes
    ensures { result.value ≡ outcomes.now.value ++ done.now.added }
{
    Mark::from(outcomes, done)
}
