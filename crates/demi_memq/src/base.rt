use demi_heap::Heap;
use demi_port_core::Basis;
use std::marker::{Brand, Model};

/// What a port of memory queues stands on: the heap of its arrays. No value of it is made.
pub struct MemBase {
    heap: Heap,
}

impl Model for MemBase {
    ghost use Rattle.demi_heap.specs.Seen.{HeapId};

    ghost Value = { HeapId };

    ghost view = { λ b. b.heap };
}

/// A call at `Brand` picks the heap of one of its arguments.
impl Basis<MemBase> for Brand {
    ghost use Rattle.demi_memq.specs.Said.{no_heap};

    ghost base = { no_heap };
}
