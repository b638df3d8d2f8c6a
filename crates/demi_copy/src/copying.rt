//! A copy from a source to a sink.
ghost use Rattle.std.specs.Prelude.{◌≡◌, ◌+◌, ◌<◌, All, vec_capacity, vec_len};
ghost use Rattle.demi_heap.specs.Seen.{new_pass};

use crate::carrier::Carrier;
use crate::closing::close;
use crate::gear::Gear;
use crate::outcome::Outcome;
use crate::over_ports::over_ports;
use crate::ports::{receiving_port, sending_port};
use demi_core::{Sink, Source};
use demi_heap::{Counts, Heap, HeapPass};
use std::alloc::Global;
use std::sync::Wait;
use std::thread::Threads;

// A page is read while none other is written, and one more lets a claim pass by one that another thread holds.
const COUNTS: Counts = Counts {
    small: 0,
    page: 2,
    large: 0,
};

/// The source and the sink after a copy, and how it ended.
pub struct Copied<S: Source, T: Sink> {
    pub source: S,
    pub sink: T,
    pub outcome: Outcome,
}

// The passes of the heap: of the receiving device, of the sending one, and of the thread that carries.
struct Passes {
    reads: HeapPass,
    writes: HeapPass,
    app: HeapPass,
}

// A copy over a heap.
fn over_heap<R: Threads + Wait + Sync, S: Source + Send, T: Sink + Send>(
    rt: &R,
    alloc: Global,
    heap: &Heap,
    passes: Passes,
    source: S,
    sink: T,
) -> (Passes, Copied<S, T>)
    requires { (passes.reads.heap ≡ heap.now) × (passes.writes.heap ≡ heap.now) × (passes.app.heap ≡ heap.now) }
    ensures { (result.0.reads.heap ≡ heap.now) × (result.0.writes.heap ≡ heap.now) × (result.0.app.heap ≡ heap.now) }
{
    let Ok((receiving, mut pops, seat_in)) = receiving_port(alloc, heap) else {
        let outcome = Outcome::NoMemory;
        return (
            passes,
            Copied {
                source,
                sink,
                outcome,
            },
        );
    };
    let pass_in = pops.take_last();
    let Ok((sending, mut pushes, seat_out)) = sending_port(alloc, heap) else {
        close(receiving, seat_in, pops, pass_in);
        let outcome = Outcome::NoMemory;
        return (
            passes,
            Copied {
                source,
                sink,
                outcome,
            },
        );
    };
    let Passes { reads, writes, app } = passes;
    let carrier = Carrier {
        app,
        pops: pass_in,
        pushes: pushes.take_last(),
        outcome: Outcome::NoMemory,
    };
    let gear = Gear {
        source,
        reads,
        seat_in,
        sink,
        writes,
        seat_out,
        carrier,
    };
    let Gear {
        source,
        reads,
        seat_in,
        sink,
        writes,
        seat_out,
        carrier,
    } = over_ports(rt, alloc, heap, &receiving, &sending, gear);
    let Carrier {
        app,
        pops: pass_in,
        pushes: pass_out,
        outcome,
    } = carrier;
    close(receiving, seat_in, pops, pass_in);
    close(sending, seat_out, pushes, pass_out);
    let passes = Passes { reads, writes, app };
    (
        passes,
        Copied {
            source,
            sink,
            outcome,
        },
    )
}

// The next pass of a new heap.
fn next(heap: &Heap, passes: &mut Vec<HeapPass>) -> HeapPass
    requires { (0 < vec_len passes.old) × All (λ p. p ≡ new_pass heap.now) passes.old.items }
    ensures pass { result.heap ≡ heap.now }
    ensures rest { All (λ p. p ≡ new_pass heap.now) passes.new.items }
    ensures room { (vec_len passes.new + 1 ≡ vec_len passes.old) × (vec_capacity passes.new ≡ vec_capacity passes.old) }
{
    let _heap = heap;
    passes.take_last()
}

/// Copies what the source gives to the sink, until the source ends or one of them fails. It may wait.
///
/// Not said: that what was written is what was read.
pub fn copy<R: Threads + Wait + Sync, S: Source + Send, T: Sink + Send>(
    rt: &R,
    alloc: Global,
    source: S,
    sink: T,
) -> Copied<S, T> {
    let Ok((heap, mut passes)) = Heap::make(alloc, COUNTS, 3) else {
        let outcome = Outcome::NoMemory;
        return Copied {
            source,
            sink,
            outcome,
        };
    };
    let dealt = Passes {
        reads: next(&heap, &mut passes),
        writes: next(&heap, &mut passes),
        app: next(&heap, &mut passes),
    };
    let (dealt, copied) = over_heap(rt, alloc, &heap, dealt, source, sink);
    let Passes { reads, writes, app } = dealt;
    passes.push_reserved(reads);
    passes.push_reserved(writes);
    passes.push_reserved(app);
    let _end = heap.close(passes);
    copied
}
