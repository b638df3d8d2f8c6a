//! What memory queues keep.
ghost use Rattle.std.specs.Prelude.{◌≡◌, ◌≤◌};

use crate::chains::Chains;
use demi_heap::{Heap, HeapPass};
use demi_port_core::Place;
use demi_sga::DevSga;

/// How many queues a port has at most.
pub(crate) const MOST_QUEUES: u32 = 256;

/// How many items wait at most, over all queues.
pub(crate) const MOST_ITEMS: u32 = 1024;

/// The items that wait and the pops that wait, each in the chain of its queue, and how many queues were made and which were closed.
/// The arrays are of the heap.
pub(crate) struct Queues<'h> {
    pub(crate) heap: &'h Heap,
    pub(crate) pass: HeapPass,
    pub(crate) room: u32,
    pub(crate) made: u32,
    pub(crate) shut: Vec<bool>,
    pub(crate) stop: Option<Place>,
    pub(crate) waiting: Chains<DevSga>,
    pub(crate) pending: Chains<u64>,
    ghost holds: { (waiting.room ≡ 1024) × (waiting.queues ≡ 256) },
    ghost pends: { (room ≤ pending.room) × (pending.queues ≡ 256) },
}
