//! A port of memory queues with a device and a heap, for one thread.
ghost use Rattle.std.specs.Prelude.{◌≡◌, ℕ, ◌+◌, ◌<◌, ◌≤◌, length};
ghost use Rattle.demi_device.specs.Turning.{IsFresh};
ghost use Rattle.demi_port.specs.Seen.{IsNewSeat, NewFrom};
ghost use Rattle.demi_port_core.specs.History.{AnyOf, Each, total};
ghost use Rattle.demi_sga.specs.Arrays.{AreOf};
ghost use Rattle.demi_memq.specs.Said.{IsFrom, IsProper, array_said, op_said};

use crate::{MemBase, MemEngine, MemLaw, MemOp, MemOut};
use demi_buf::Class;
use demi_device::{Device, Turn};
use demi_heap::{Counts, Heap, HeapPass, NoSlot};
use demi_port::{DeviceSeat, Port, PortPass, Redeem};
use demi_port_core::{Basis, Token};
use demi_sga::{AppSga, DevSga, free_lent, lend, release};
use std::alloc::Global;
use std::marker::Brand;
use std::process::Abort;

/// An outcome, with the first byte of an array.
#[derive(Debug, PartialEq, Eq, Drop)]
pub(crate) enum Got {
    Opened(u32),
    TooMany,
    Pushed,
    BadQueue,
    Shut,
    Closed,
    QueueFull,
    Item(u8),
    Stopped(u64),
    Halted,
    Waits,
}

fn port_at<N: Basis<MemBase>>(
    rt: &impl Abort,
    alloc: Global,
    heap: &Heap,
) -> (Port<MemLaw>, Vec<PortPass<MemLaw>>, DeviceSeat<MemLaw>)
    requires { N.base ≡ heap.now }
    ensures port { (result.0.key.base ≡ heap.now) × (result.0.tokens.slots ≡ 8) }
    ensures passes { (length result.1.items ≡ 1) × NewFrom result.0 0 result.1.items }
    ensures seat { IsNewSeat result.0 1 result.2 }
{
    let _ = heap;
    let Ok(made) = Port::<MemLaw>::make::<N>(alloc, 8, 1) else {
        panic!(rt; "no memory");
    };
    made
}

/// A port with eight tokens on the heap.
pub(crate) fn port_on(
    rt: &impl Abort,
    alloc: Global,
    heap: &Heap,
) -> (Port<MemLaw>, Vec<PortPass<MemLaw>>, DeviceSeat<MemLaw>)
    ensures port { (result.0.key.base ≡ heap.now) × (result.0.tokens.slots ≡ 8) }
    ensures passes { (length result.1.items ≡ 1) × NewFrom result.0 0 result.1.items }
    ensures seat { IsNewSeat result.0 1 result.2 }
{
    port_at::<Brand>(rt, alloc, heap)
}

/// A heap with so many small slots, and two passes of it.
pub(crate) fn two_passes(rt: &impl Abort, alloc: Global, small: u32) -> (Heap, HeapPass, HeapPass)
    requires { (1 ≤ small) × (small ≤ 4096) }
    ensures { (result.1.heap ≡ result.0) × (result.2.heap ≡ result.0) × (result.0.shape.passes ≡ 2) }
{
    let counts = Counts {
        small,
        page: 0,
        large: 0,
    };
    let Ok((heap, mut passes)) = Heap::make(alloc, counts, 2) else {
        panic!(rt; "no memory");
    };
    let first = passes.pop().unwrap();
    let second = passes.pop().unwrap();
    (heap, first, second)
}

/// Closes the heap. How many slots are free.
pub(crate) fn free_at_end(
    rt: &impl Abort,
    alloc: Global,
    heap: Heap,
    first: HeapPass,
    second: HeapPass,
) -> u32
    requires { (first.heap ≡ heap) × (second.heap ≡ heap) × (heap.shape.passes ≡ 2) }
{
    let mut passes = Vec::new(alloc);
    let Ok(()) = passes.push(first) else {
        panic!(rt; "no memory");
    };
    let Ok(()) = passes.push(second) else {
        panic!(rt; "no memory");
    };
    heap.close(passes).free
}

/// An engine at the port's device.
pub(crate) fn device_on<'h>(
    rt: &impl Abort,
    alloc: Global,
    heap: &'h Heap,
    mine: HeapPass,
    seat: DeviceSeat<MemLaw>,
) -> Device<MemEngine<'h>>
    requires heap { (mine.heap ≡ heap.now) × (seat.port.key.base ≡ heap.now) }
    requires tokens { seat.port.tokens.slots ≡ 8 }
    requires fresh { IsFresh seat }
    ensures seat { result.seat ≡ seat }
    ensures engine { result.engine.pass ≡ mine }
{
    let Ok(engine) = MemEngine::make(alloc, heap, mine, 8) else {
        panic!(rt; "no memory");
    };
    match Device::make(alloc, engine, seat, 8) {
        Ok(device) => device,
        Err((engine, _seat)) => {
            let _mine = engine.parts();
            panic!(rt; "no memory")
        }
    }
}

/// Submits an operation.
pub(crate) fn ask(
    rt: &impl Abort,
    port: &Port<MemLaw>,
    pass: &mut PortPass<MemLaw>,
    op: MemOp,
) -> Token
    requires port { pass.old.port ≡ port.now }
    requires proper { IsProper port.now.key.base (op_said op) }
    ensures same { (pass.new.port ≡ pass.old.port) × (pass.new.number ≡ pass.old.number) }
    ensures one { (length pass.new.submitted ≡ length pass.old.submitted + 1) × (pass.new.redeemed ≡ pass.old.redeemed) }
{
    match port.submit(pass, op) {
        Ok((token, _)) => token,
        Err(_) => panic!(rt; "no token is free"),
    }
}

/// An array of one segment of one byte.
fn byte(rt: &impl Abort, heap: &Heap, app: &mut HeapPass, value: u8) -> AppSga
    requires { app.old.heap ≡ heap.now }
    ensures { AreOf heap.now result × (app.new.heap ≡ heap.now) }
{
    match heap.claim(app, Class::Small) {
        Ok(mut buf) => {
            buf.set_len(1);
            fill(buf.bytes_mut(), value);
            AppSga::of(buf)
        }
        Err(NoSlot) => panic!(rt; "no slot"),
    }
}

fn fill(bytes: &mut [u8], value: u8) {
    for b in bytes.iter_mut() {
        *b = value;
    }
}

/// Lends an array of one byte, gives its own half up at once, and pushes it.
pub(crate) fn push(
    rt: &impl Abort,
    heap: &Heap,
    app: &mut HeapPass,
    port: &Port<MemLaw>,
    pass: &mut PortPass<MemLaw>,
    q: u32,
    value: u8,
) -> Token
    requires port { (pass.old.port ≡ port.now) × (port.now.key.base ≡ heap.now) }
    requires heap { app.old.heap ≡ heap.now }
    ensures app { app.new.heap ≡ heap.now }
    ensures same { (pass.new.port ≡ pass.old.port) × (pass.new.number ≡ pass.old.number) }
    ensures one { (length pass.new.submitted ≡ length pass.old.submitted + 1) × (pass.new.redeemed ≡ pass.old.redeemed) }
{
    let sga = byte(rt, heap, app, value);
    let (half, dev) = lend(heap, app, sga);
    free_lent(heap, app, half);
    ask(rt, port, pass, MemOp::Push { q, sga: dev })
}

fn first_of(heap: &Heap, app: &mut HeapPass, sga: DevSga) -> u8
    requires { (app.old.heap ≡ heap.now) × AreOf heap.now sga }
    ensures { app.new.heap ≡ heap.now }
{
    let value = if sga.len() > 0 {
        match sga.part(0, 1).first() {
            Some(b) => *b,
            None => 0,
        }
    } else {
        0
    };
    release(heap, app, sga);
    value
}

fn told(heap: &Heap, app: &mut HeapPass, out: MemOut) -> Got
    requires { (app.old.heap ≡ heap.now) × IsFrom heap.now out }
    ensures { app.new.heap ≡ heap.now }
{
    match out {
        MemOut::Opened(q) => Got::Opened(q),
        MemOut::TooMany => Got::TooMany,
        MemOut::Pushed => Got::Pushed,
        MemOut::BadQueue => Got::BadQueue,
        MemOut::Shut => Got::Shut,
        MemOut::Closed => Got::Closed,
        MemOut::QueueFull => Got::QueueFull,
        MemOut::Item(sga) => Got::Item(first_of(heap, app, sga)),
        MemOut::Stopped(place) => Got::Stopped(place.0),
        MemOut::Halted => Got::Halted,
    }
}

/// Redeems a token that is done.
pub(crate) fn answer(
    rt: &impl Abort,
    heap: &Heap,
    app: &mut HeapPass,
    port: &Port<MemLaw>,
    pass: &mut PortPass<MemLaw>,
    token: Token,
) -> Got
    requires port { (pass.old.port ≡ port.now) × (port.now.key.base ≡ heap.now) }
    requires heap { app.old.heap ≡ heap.now }
    ensures app { app.new.heap ≡ heap.now }
    ensures same { (pass.new.port ≡ pass.old.port) × (pass.new.number ≡ pass.old.number) }
    ensures one { (pass.new.submitted ≡ pass.old.submitted) × (length pass.new.redeemed ≡ length pass.old.redeemed + 1) }
{
    match port.try_wait(pass, token) {
        Redeem::Ready(_, out) => told(heap, app, out),
        Redeem::NotYet | Redeem::Spent | Redeem::Unknown => panic!(rt; "it is not done"),
    }
}

/// Submits three operations.
pub(crate) fn ask_three(
    rt: &impl Abort,
    port: &Port<MemLaw>,
    pass: &mut PortPass<MemLaw>,
    first: MemOp,
    second: MemOp,
    third: MemOp,
) -> [Token; 3]
    requires port { pass.old.port ≡ port.now }
    requires proper { IsProper port.now.key.base (op_said first) × IsProper port.now.key.base (op_said second) × IsProper port.now.key.base (op_said third) }
    ensures same { (pass.new.port ≡ pass.old.port) × (pass.new.number ≡ pass.old.number) }
    ensures three { (length pass.new.submitted ≡ length pass.old.submitted + 3) × (pass.new.redeemed ≡ pass.old.redeemed) }
{
    [
        ask(rt, port, pass, first),
        ask(rt, port, pass, second),
        ask(rt, port, pass, third),
    ]
}

/// Redeems four tokens that are done.
pub(crate) fn answer_four(
    rt: &impl Abort,
    heap: &Heap,
    app: &mut HeapPass,
    port: &Port<MemLaw>,
    pass: &mut PortPass<MemLaw>,
    tokens: [Token; 4],
) -> [Got; 4]
    requires port { (pass.old.port ≡ port.now) × (port.now.key.base ≡ heap.now) }
    requires heap { app.old.heap ≡ heap.now }
    ensures app { app.new.heap ≡ heap.now }
    ensures same { (pass.new.port ≡ pass.old.port) × (pass.new.number ≡ pass.old.number) }
    ensures four { (pass.new.submitted ≡ pass.old.submitted) × (length pass.new.redeemed ≡ length pass.old.redeemed + 4) }
{
    let [first, second, third, fourth] = tokens;
    [
        answer(rt, heap, app, port, pass, first),
        answer(rt, heap, app, port, pass, second),
        answer(rt, heap, app, port, pass, third),
        answer(rt, heap, app, port, pass, fourth),
    ]
}

/// One turn, of which the tests need to know no more than what stays.
pub(crate) fn turn(device: &mut Device<MemEngine>, port: &Port<MemLaw>) -> Turn
    requires { device.old.seat.port ≡ port.now }
    ensures { (device.new.seat.port ≡ device.old.seat.port) × (device.new.seat.passes ≡ device.old.seat.passes) × (device.new.engine.pass.heap ≡ device.old.engine.pass.heap) }
{
    device.turn(port)
}

/// The last turn, and the close of the port. The engine's pass.
pub(crate) fn end<'h>(
    rt: &impl Abort,
    heap: &'h Heap,
    port: Port<MemLaw>,
    mut device: Device<MemEngine<'h>>,
    passes: Vec<PortPass<MemLaw>>,
) -> HeapPass
    requires port { (device.seat.port ≡ port) × Each (λ p. p.port ≡ port) passes.items }
    requires all { (n : ℕ) → n < device.seat.passes → AnyOf (λ p. p.number ≡ n) passes.items }
    requires even { total (λ p. length p.submitted) passes.items ≡ total (λ p. length p.redeemed) passes.items }
    requires heap { device.engine.pass.heap ≡ heap.now }
    ensures { result.heap ≡ heap.now }
{
    let _ = heap;
    let last = device.turn(&port);
    if last != Turn::Ended {
        panic!(rt; "it did not end");
    }
    let (engine, seat) = device.parts();
    let _tickets = port.close(seat, passes).tickets();
    engine.parts()
}

/// Pushes an array and answers it at once.
fn push_one(
    rt: &impl Abort,
    heap: &Heap,
    app: &mut HeapPass,
    port: &Port<MemLaw>,
    pass: &mut PortPass<MemLaw>,
    device: &mut Device<MemEngine>,
) -> Got
    requires port { (pass.old.port ≡ port.now) × (port.now.key.base ≡ heap.now) × (device.old.seat.port ≡ port.now) }
    requires heap { app.old.heap ≡ heap.now }
    ensures app { app.new.heap ≡ heap.now }
    ensures same { (pass.new.port ≡ pass.old.port) × (pass.new.number ≡ pass.old.number) }
    ensures even { length pass.new.submitted + length pass.old.redeemed ≡ length pass.old.submitted + length pass.new.redeemed }
    ensures device { (device.new.seat.port ≡ device.old.seat.port) × (device.new.seat.passes ≡ device.old.seat.passes) × (device.new.engine.pass.heap ≡ device.old.engine.pass.heap) }
{
    let token = push(rt, heap, app, port, pass, 0, 0x78);
    let _one = turn(device, port);
    answer(rt, heap, app, port, pass, token)
}

/// Pushes so many arrays. How many were taken.
pub(crate) fn push_many(
    rt: &impl Abort,
    heap: &Heap,
    app: &mut HeapPass,
    port: &Port<MemLaw>,
    pass: &mut PortPass<MemLaw>,
    device: &mut Device<MemEngine>,
    n: u32,
) -> u32
    requires port { (pass.old.port ≡ port.now) × (port.now.key.base ≡ heap.now) × (device.old.seat.port ≡ port.now) }
    requires heap { app.old.heap ≡ heap.now }
    ensures app { app.new.heap ≡ heap.now }
    ensures same { (pass.new.port ≡ pass.old.port) × (pass.new.number ≡ pass.old.number) }
    ensures even { length pass.new.submitted + length pass.old.redeemed ≡ length pass.old.submitted + length pass.new.redeemed }
    ensures device { (device.new.seat.port ≡ device.old.seat.port) × (device.new.seat.passes ≡ device.old.seat.passes) × (device.new.engine.pass.heap ≡ device.old.engine.pass.heap) }
{
    let mut taken = 0u32;
    for _ in 0..n {
        if push_one(rt, heap, app, port, pass, device) == Got::Pushed {
            taken = taken.wrapping_add(1);
        }
    }
    taken
}
