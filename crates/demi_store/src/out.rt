use crate::{Back, StoreAnswer};

/// What the store says, and the value or the room that was given to it.
pub struct StoreOut {
    pub answer: StoreAnswer,
    pub back: Back,
}
