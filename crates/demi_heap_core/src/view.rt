use crate::shape::Shape;
use std::collections::LinkedList;

/// The halves of its slot that a seat has. `Both` is a lent application half with the device half of the same slot.
pub enum Halves {
    Neither,
    Sole,
    Lent,
    Device,
    Both,
}

/// The half of another seat, while a seat has it as a guest: its slot, and the buffer that was lent. No value of it is
/// made.
pub struct Guest<B> {
    pub halves: Halves,
    pub slot: u64,
    pub lent: Option<B>,
}

/// What a seat knows: its passes and their numbers, its halves of `slot`, the buffer that was lent, and a guest. Its own
/// steps found the slots of `missed` with an owner and those of `held` with a device half, each with the time, the last
/// first. `clock` is a time after all of `missed`, and `half_clock` one after all of `held`.
/// No value of it is made.
pub struct View<B> {
    pub shape: Shape,
    pub passes: u64,
    pub claimed: u64,
    pub ended: u64,
    pub loaned: u64,
    pub returned: u64,
    pub halves: Halves,
    pub slot: u64,
    pub lent: Option<B>,
    pub guest: Guest<B>,
    pub clock: u64,
    pub missed: LinkedList<(u64, u64)>,
    pub half_clock: u64,
    pub held: LinkedList<(u64, u64)>,
}
