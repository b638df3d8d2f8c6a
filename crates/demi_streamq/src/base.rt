use demi_heap::Heap;
use demi_port_core::Basis;
use std::marker::{Brand, Model};

/// What a port over a source or a sink stands on: the heap of its buffers. No value of it is made.
pub struct StreamBase {
    heap: Heap,
}

impl Model for StreamBase {
    ghost use Rattle.demi_heap.specs.Seen.{HeapId};

    ghost Value = { HeapId };

    ghost view = { λ b. b.heap };
}

/// A call at `Brand` picks the heap of one of its arguments.
impl Basis<StreamBase> for Brand {
    ghost use Rattle.demi_streamq.specs.Receiving.{no_heap};

    ghost base = { no_heap };
}
