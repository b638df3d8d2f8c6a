//! What a worker had for a link, as contracts see it.
ghost use Rattle.std.specs.Prelude.{◌≡◌};
ghost use Rattle.demi_link.specs.Talks.{new_talk};
ghost use Rattle.demi_worker.specs.Blank.{no_sight};

use demi_device::Mark;
use demi_link::{Calls, Talk};
use std::marker::Model;

/// What a worker had for a link. No value of it is made: contracts alone see it.
#[derive(Drop)]
pub struct Had {}

impl Model for Had {
    ghost use Rattle.demi_link.specs.Sights.{Sight};
    ghost use Rattle.demi_worker.specs.Blank.{no_sight};

    ghost Value = { Sight };

    ghost view = { λ _. no_sight };
}

// What the worker has for the link now.
pub(crate) fn had_for<C: Calls>(context: &C, link: u16) -> Mark<Had>
    ensures { result.value ≡ C.sight context.now link }
{
    Mark::from(context, &link)
}

// What nobody has for no link.
pub(crate) fn had_for_none() -> Mark<Had>
    ensures { result.value ≡ no_sight }
{
    Mark::from(&(), &())
}

// What a link of this worker did that did nothing.
pub(crate) fn nothing_said(worker: u8) -> Mark<Talk>
    ensures { result.value ≡ new_talk worker }
{
    Mark::from(&worker, &())
}
