//! What became of a link.
use crate::had::{Had, had_for_none, nothing_said};
use demi_device::Mark;
use demi_link::{Cause, Talk};

/// What became of a link: its number, why it is over, and what it did. Contracts see besides what its worker had for it when it
/// had ended, before its ports were stopped.
#[derive(Drop)]
pub struct Ended {
    pub link: u16,
    pub cause: Cause,
    pub talk: Mark<Talk>,
    pub had: Mark<Had>,
}

// What stands in the room of a list that is not full.
impl Default for Ended {
    fn default() -> Self {
        Ended {
            link: 0,
            cause: Cause::Lost,
            talk: nothing_said(0),
            had: had_for_none(),
        }
    }
}
