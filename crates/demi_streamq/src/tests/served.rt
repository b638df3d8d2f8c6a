//! A device on a port, of either side, for one thread.
ghost use Rattle.std.specs.Prelude.{◌≡◌, ℕ, ◌+◌, ◌≤◌};
ghost use Rattle.demi_device.specs.Serving.{HasStop};
ghost use Rattle.demi_streamq.specs.InTests.{IsCalm};

use demi_device::{Device, Engine, Turn};
use demi_heap::{Counts, Heap, HeapEnd, HeapPass};
use demi_port::{Port, PortPass, Redeem};
use demi_port_core::Law;
use std::alloc::Global;
use std::process::Abort;

/// A heap with two passes.
pub(crate) fn heap_of(
    rt: &impl Abort,
    alloc: Global,
    small: u32,
    page: u32,
) -> (Heap, HeapPass, HeapPass)
    requires { (1 ≤ small + page) × (small ≤ 4096) × (page ≤ 4096) }
    ensures { (result.1.heap ≡ result.0) × (result.2.heap ≡ result.0) × (result.0.shape.passes ≡ 2) }
{
    let counts = Counts {
        small,
        page,
        large: 0,
    };
    let Ok((heap, mut passes)) = Heap::make(alloc, counts, 2) else {
        panic!(rt; "no memory");
    };
    let first = passes.pop().unwrap();
    let second = passes.pop().unwrap();
    (heap, first, second)
}

/// Closes the heap.
pub(crate) fn close_heap(
    rt: &impl Abort,
    alloc: Global,
    heap: Heap,
    first: HeapPass,
    second: HeapPass,
) -> HeapEnd
    requires { (first.heap ≡ heap) × (second.heap ≡ heap) × (heap.shape.passes ≡ 2) }
{
    let mut passes = Vec::new(alloc);
    let Ok(()) = passes.push(first) else {
        panic!(rt; "no memory");
    };
    let Ok(()) = passes.push(second) else {
        panic!(rt; "no memory");
    };
    heap.close(passes)
}

/// Submits an operation, turns once, and redeems it.
pub(crate) fn answer<E: Engine>(
    rt: &impl Abort,
    port: &Port<E::L>,
    device: &mut Device<E>,
    pass: &mut PortPass<E::L>,
    op: <E::L as Law>::Op,
) -> <E::L as Law>::Out
    requires device { device.old.seat.port ≡ port.now }
    requires pass { IsCalm port.now pass.old }
    requires proper { E.L.proper port.now.key.base (E.L.said op) }
    ensures device { (device.new.seat.port ≡ device.old.seat.port) × (device.new.seat.passes ≡ device.old.seat.passes) }
    ensures engine { E.base device.new.engine ≡ E.base device.old.engine }
    ensures pass { IsCalm port.now pass.new }
    ensures admitted { (p : ℕ) × E.L.admits port.now.key.base pass.new.heard pass.new.trail p result }
{
    let token = match port.submit(pass, op) {
        Ok((token, _)) => token,
        Err(_) => panic!(rt; "no token is free"),
    };
    let _one = device.turn(port);
    match port.try_wait(pass, token) {
        Redeem::Ready(_, out) => out,
        Redeem::NotYet | Redeem::Spent | Redeem::Unknown => panic!(rt; "it is not done"),
    }
}

/// The last turn, and the close of the port. What stays is the engine.
pub(crate) fn end<E: Engine>(
    rt: &impl Abort,
    alloc: Global,
    port: Port<E::L>,
    device: Device<E>,
    pass: PortPass<E::L>,
) -> E
    requires device { (device.seat.port ≡ port) × (device.seat.passes ≡ 1) }
    requires pass { IsCalm port pass }
    ensures engine { E.base result ≡ E.base device.engine }
    ensures stopped { HasStop E.L.stops (E.served result) }
{
    let mut device = device;
    let last = device.turn(&port);
    if last != Turn::Ended {
        panic!(rt; "it did not end");
    }
    let mut passes = Vec::new(alloc);
    let Ok(()) = passes.push(pass) else {
        panic!(rt; "no memory");
    };
    let (engine, seat) = device.parts();
    let _end = port.close(seat, passes);
    engine
}
