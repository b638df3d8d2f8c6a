//! What a link has in each of its phases.
ghost use Rattle.std.specs.Prelude.{◌≡◌};
ghost use Rattle.demi_link.specs.Talks.{new_talk};

use crate::talk::Talk;
use demi_core::NoMemory;
use demi_device::Mark;
use demi_frame::Decoder;
use std::alloc::Global;

/// A link but for where it stands.
#[derive(Drop)]
pub(crate) struct Desk {
    pub(crate) link: u16,
    pub(crate) worker: u8,
    // How many requests it drew numbers for.
    pub(crate) index: u32,
    pub(crate) decoder: Decoder,
    pub(crate) talk: Mark<Talk>,
}

pub(crate) fn nothing_said(worker: u8) -> Mark<Talk>
    ensures { result.value ≡ new_talk worker }
{
    Mark::from(&worker, &())
}
