//! What only contracts see of the engine.
ghost use Rattle.std.specs.Prelude.{◌≡◌, ◌++◌, [], ◌∷◌};
ghost use Rattle.demi_logq.specs.Engine.{basis_of, stood};

use crate::{Log, LogBase, LogLaw, LogOp};
use demi_core::Disk;
use demi_device::{Done, Mark};
use demi_heap::Heap;
use std::marker::Model;

/// What stands behind operations. No value of it is made.
pub(crate) struct State {}

impl Model for State {
    ghost use Rattle.std.specs.Prelude.{[]};
    ghost use Rattle.demi_logq.specs.Folding.{Standing, opened};

    ghost Value = { Standing };

    ghost view = { λ _. opened [] };
}

/// What an engine stands on, what it was served, and what it finished. No value of it is made.
pub(crate) struct Past {}

impl Model for Past {
    ghost use Rattle.std.specs.Prelude.{[]};
    ghost use Rattle.demi_logq.specs.Answers.{no_log};
    ghost use Rattle.demi_logq.specs.Engine.{PastValue};

    ghost Value = { PastValue };

    ghost view = { λ _. record { base = no_log; served = []; finished = [] } };
}

/// Nothing was served over this log and heap.
pub(crate) fn no_past<D: Disk>(log: &Log<D>, heap: &Heap) -> Mark<Past>
    ensures { result.value ≡ record { base = basis_of D.bytes log.now heap.now; served = []; finished = [] } }
{
    Mark::from(log, heap)
}

/// One operation more.
pub(crate) fn heard(past: &Mark<Past>, op: &LogOp) -> Mark<Past>
    ensures { result.value ≡ record past.now.value { served = past.now.value.served ++ op.now ∷ [] } }
{
    Mark::from(past, op)
}

/// The outcomes that were added more.
pub(crate) fn finished(past: &Mark<Past>, done: &Done<LogLaw>) -> Mark<Past>
    ensures { result.value ≡ record past.now.value { finished = past.now.value.finished ++ done.now.added } }
{
    Mark::from(past, done)
}

/// What it stands on.
pub(crate) fn base_of(past: &Mark<Past>) -> Mark<LogBase>
    ensures { result.value ≡ past.now.value.base }
{
    Mark::from(past, &())
}

/// What stands behind it.
pub(crate) fn stands_of(past: &Mark<Past>) -> Mark<State>
    ensures { result.value ≡ stood past.now.value.base past.now.value.served past.now.value.finished }
{
    Mark::from(past, &())
}
