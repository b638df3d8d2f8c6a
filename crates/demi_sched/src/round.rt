//! What a round did.
use arrayvec::ArrayVec;

/// The numbers of the coroutines that a round polled, in rising order.
#[derive(Drop)]
pub struct Round {
    pub polled: ArrayVec<u32, 64>,
}
