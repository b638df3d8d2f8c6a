//! What an engine was served and what it added, for contracts alone.
ghost use Rattle.std.specs.Prelude.{◌≡◌, ◌++◌, [], ◌∷◌};

use crate::{TxLaw, TxOp, TxOut};
use demi_device::{Done, Mark};
use std::collections::LinkedList;

// The operations, by place.
pub(crate) type TxHistory = Mark<LinkedList<TxOp>>;

// The outcomes with their places, in their order.
pub(crate) type TxOutcomes = Mark<LinkedList<(u64, TxOut)>>;

pub(crate) fn no_history() -> TxHistory
    ensures { result.value ≡ [] }
{
    Mark::from(&(), &())
}

pub(crate) fn no_outcomes() -> TxOutcomes
    ensures { result.value ≡ [] }
{
    Mark::from(&(), &())
}

pub(crate) fn heard(history: &TxHistory, op: &TxOp) -> TxHistory
    ensures { result.value ≡ history.now.value ++ op.now ∷ [] }
{
    Mark::from(history, op)
}

pub(crate) fn finished(outcomes: &TxOutcomes, done: &Done<TxLaw>) -> TxOutcomes
    ensures { result.value ≡ outcomes.now.value ++ done.now.added }
{
    Mark::from(outcomes, done)
}
