//! What only contracts see of the engine.
ghost use Rattle.std.specs.Prelude.{◌≡◌, ◌++◌, [], ◌∷◌};
ghost use Rattle.demi_store.specs.Engine.{basis_of, stood};

use crate::{StoreAsk, StoreBase, StoreCore, StoreLaw};
use demi_core::Disk;
use demi_device::{Done, Mark};
use std::marker::Model;

/// What stands behind operations. No value of it is made.
pub(crate) struct State {}

impl Model for State {
    ghost use Rattle.std.specs.Prelude.{[]};
    ghost use Rattle.demi_store.specs.History.{Standing, opened};

    ghost Value = { Standing };

    ghost view = { λ _. opened [] };
}

/// What an engine stands on, what it was served, and what it finished. No value of it is made.
pub(crate) struct Past {}

impl Model for Past {
    ghost use Rattle.std.specs.Prelude.{[]};
    ghost use Rattle.demi_store.specs.Laws.{no_store};
    ghost use Rattle.demi_store.specs.Engine.{PastValue};

    ghost Value = { PastValue };

    ghost view = { λ _. record { base = no_store; served = []; finished = [] } };
}

/// Nothing was served over this store.
pub(crate) fn no_past<D: Disk>(core: &StoreCore<D>) -> Mark<Past>
    ensures { result.value ≡ record { base = basis_of D.bytes core.now; served = []; finished = [] } }
{
    Mark::from(core, &())
}

/// One operation more.
pub(crate) fn heard(past: &Mark<Past>, ask: &StoreAsk) -> Mark<Past>
    ensures { result.value ≡ record past.now.value { served = past.now.value.served ++ ask.now ∷ [] } }
{
    Mark::from(past, ask)
}

/// The outcomes that were added more.
pub(crate) fn finished(past: &Mark<Past>, done: &Done<StoreLaw>) -> Mark<Past>
    ensures { result.value ≡ record past.now.value { finished = past.now.value.finished ++ done.now.added } }
{
    Mark::from(past, done)
}

/// What it stands on.
pub(crate) fn base_of(past: &Mark<Past>) -> Mark<StoreBase>
    ensures { result.value ≡ past.now.value.base }
{
    Mark::from(past, &())
}

/// What stands behind it.
pub(crate) fn stands_of(past: &Mark<Past>) -> Mark<State>
    ensures { result.value ≡ stood past.now.value.base past.now.value.served past.now.value.finished }
{
    Mark::from(past, &())
}
