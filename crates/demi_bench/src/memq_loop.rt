//! A push and a pop of one memory queue, on one thread through a port and its device, while items wait in other queues.
ghost use Rattle.std.specs.Prelude.{◌≡◌, ℕ, ◌+◌, ◌<◌, ◌≤◌, length, IfSome};
ghost use Rattle.demi_device.specs.Serving.{HasStop};
ghost use Rattle.demi_device.specs.Turning.{IsFresh};
ghost use Rattle.demi_port.specs.Seen.{IsNewSeat, NewFrom};
ghost use Rattle.demi_sga.specs.Arrays.{AreOf};
ghost use Rattle.demi_memq.specs.Said.{IsFrom, IsProper, is_stop, op_said};
ghost use Rattle.demi_bench.specs.declared.memq_loop.TheConstants.{TOKENS};
ghost use Rattle.demi_bench.specs.Queueing.{GoesOn, StaysEven};

use crate::heap_loop::next;
use demi_buf::Class;
use demi_device::Device;
use demi_heap::{Counts, Heap, HeapPass};
use demi_memq::{MemBase, MemEngine, MemLaw, MemOp, MemOut};
use demi_port::{DeviceSeat, Port, PortPass, Redeem, TokensFull};
use demi_port_core::{Basis, Token};
use demi_sga::{AppSga, free_lent, lend, release};
use std::alloc::Global;
use std::io;
use std::marker::Brand;
use std::sync::Wait;
use std::time::{Clock, Duration, Instant};

/// How many tokens the port has.
const TOKENS: u32 = 8;

/// Items wait in so many queues beside the one that is measured.
const OTHERS: u32 = 10;

// Submits until a token is had: never more than one operation is in flight.
fn ask<R: Wait>(rt: &R, port: &Port<MemLaw>, pass: &mut PortPass<MemLaw>, op: MemOp) -> Token
    requires port { pass.old.port ≡ port.now }
    requires proper { IsProper port.now.key.base (op_said op) }
    ensures same { (pass.new.port ≡ pass.old.port) × (pass.new.number ≡ pass.old.number) }
    ensures one { (length pass.new.submitted ≡ length pass.old.submitted + 1) × (pass.new.redeemed ≡ pass.old.redeemed) }
{
    let mut left = op;
    for _ in rt.forever() {
        match port.submit(pass, left) {
            Ok((token, _)) => return token,
            Err(TokensFull(op)) => left = op,
        }
    }
    unreachable!()
}

// Lets the device turn until the outcome is there.
fn answer<R: Wait>(
    rt: &R,
    port: &Port<MemLaw>,
    pass: &mut PortPass<MemLaw>,
    device: &mut Device<MemEngine>,
    token: Token,
) -> MemOut
    requires port { (pass.old.port ≡ port.now) × (device.old.seat.port ≡ port.now) }
    ensures same { (pass.new.port ≡ pass.old.port) × (pass.new.number ≡ pass.old.number) }
    ensures one { (pass.new.submitted ≡ pass.old.submitted) × (length pass.new.redeemed ≡ length pass.old.redeemed + 1) }
    ensures device { GoesOn device.old device.new }
    ensures from { IsFrom port.now.key.base result }
{
    for _ in rt.forever() {
        match port.try_wait(pass, token) {
            Redeem::Ready(_, out) => return out,
            Redeem::NotYet | Redeem::Spent | Redeem::Unknown => {
                let _turn = device.turn(port);
            }
        }
    }
    unreachable!()
}

// One operation, from submit to redeem.
fn call<R: Wait>(
    rt: &R,
    port: &Port<MemLaw>,
    pass: &mut PortPass<MemLaw>,
    device: &mut Device<MemEngine>,
    op: MemOp,
) -> MemOut
    requires port { (pass.old.port ≡ port.now) × (device.old.seat.port ≡ port.now) }
    requires proper { IsProper port.now.key.base (op_said op) }
    ensures even { StaysEven pass.old pass.new }
    ensures device { GoesOn device.old device.new }
    ensures from { IsFrom port.now.key.base result }
{
    let token = ask(rt, port, pass, op);
    answer(rt, port, pass, device, token)
}

// Ends what the outcome gives. Whether it says that an array was pushed.
fn was_pushed(heap: &Heap, app: &mut HeapPass, out: MemOut) -> bool
    requires { (app.old.heap ≡ heap.now) × IsFrom heap.now out }
    ensures { app.new.heap ≡ heap.now }
{
    match out {
        MemOut::Pushed => true,
        MemOut::Item(sga) => {
            release(heap, app, sga);
            false
        }
        MemOut::Opened(_)
        | MemOut::TooMany
        | MemOut::BadQueue
        | MemOut::Shut
        | MemOut::Closed
        | MemOut::QueueFull
        | MemOut::Stopped(_)
        | MemOut::Halted => false,
    }
}

// Pushes a new array. Whether it is in the queue.
fn push_new<R: Wait>(
    rt: &R,
    heap: &Heap,
    app: &mut HeapPass,
    port: &Port<MemLaw>,
    pass: &mut PortPass<MemLaw>,
    device: &mut Device<MemEngine>,
    q: u32,
) -> bool
    requires port { (pass.old.port ≡ port.now) × (device.old.seat.port ≡ port.now) × (port.now.key.base ≡ heap.now) }
    requires heap { app.old.heap ≡ heap.now }
    ensures app { app.new.heap ≡ heap.now }
    ensures even { StaysEven pass.old pass.new }
    ensures device { GoesOn device.old device.new }
{
    let Ok(mut buf) = heap.claim(app, Class::Small) else {
        return false;
    };
    buf.set_len(1);
    let (half, dev) = lend(heap, app, AppSga::of(buf));
    free_lent(heap, app, half);
    let out = call(rt, port, pass, device, MemOp::Push { q, sga: dev });
    was_pushed(heap, app, out)
}

// A pop of queue 0, and a push of what it gave. Whether both were done.
fn round<R: Wait>(
    rt: &R,
    heap: &Heap,
    app: &mut HeapPass,
    port: &Port<MemLaw>,
    pass: &mut PortPass<MemLaw>,
    device: &mut Device<MemEngine>,
) -> bool
    requires port { (pass.old.port ≡ port.now) × (device.old.seat.port ≡ port.now) × (port.now.key.base ≡ heap.now) }
    requires heap { app.old.heap ≡ heap.now }
    ensures app { app.new.heap ≡ heap.now }
    ensures even { StaysEven pass.old pass.new }
    ensures device { GoesOn device.old device.new }
{
    match call(rt, port, pass, device, MemOp::Pop { q: 0 }) {
        MemOut::Item(sga) => {
            let out = call(rt, port, pass, device, MemOp::Push { q: 0, sga });
            was_pushed(heap, app, out)
        }
        MemOut::Pushed
        | MemOut::Opened(_)
        | MemOut::TooMany
        | MemOut::BadQueue
        | MemOut::Shut
        | MemOut::Closed
        | MemOut::QueueFull
        | MemOut::Stopped(_)
        | MemOut::Halted => false,
    }
}

// Makes the queues, and lets so many items wait in the others, and one in queue 0. How many wait.
fn fill<R: Wait>(
    rt: &R,
    heap: &Heap,
    app: &mut HeapPass,
    port: &Port<MemLaw>,
    pass: &mut PortPass<MemLaw>,
    device: &mut Device<MemEngine>,
    waiting: u32,
) -> u32
    requires port { (pass.old.port ≡ port.now) × (device.old.seat.port ≡ port.now) × (port.now.key.base ≡ heap.now) }
    requires heap { app.old.heap ≡ heap.now }
    ensures app { app.new.heap ≡ heap.now }
    ensures even { StaysEven pass.old pass.new }
    ensures device { GoesOn device.old device.new }
    ensures many { result ≤ waiting }
{
    open_all(rt, heap, app, port, pass, device);
    let _one = push_new(rt, heap, app, port, pass, device, 0);
    let mut taken = 0;
    for i in 0..waiting {
        let q = 1 + i % OTHERS;
        taken += u32::from(push_new(rt, heap, app, port, pass, device, q));
    }
    taken
}

// Makes queue 0 and the others.
fn open_all<R: Wait>(
    rt: &R,
    heap: &Heap,
    app: &mut HeapPass,
    port: &Port<MemLaw>,
    pass: &mut PortPass<MemLaw>,
    device: &mut Device<MemEngine>,
)
    requires port { (pass.old.port ≡ port.now) × (device.old.seat.port ≡ port.now) × (port.now.key.base ≡ heap.now) }
    requires heap { app.old.heap ≡ heap.now }
    ensures app { app.new.heap ≡ heap.now }
    ensures even { StaysEven pass.old pass.new }
    ensures device { GoesOn device.old device.new }
{
    for _ in 0..OTHERS + 1 {
        let out = call(rt, port, pass, device, MemOp::Queue);
        let _opened = was_pushed(heap, app, out);
    }
}

// So many rounds. How many were done, and how long they took.
fn spin<R: Clock + Wait>(
    rt: &R,
    heap: &Heap,
    app: &mut HeapPass,
    port: &Port<MemLaw>,
    pass: &mut PortPass<MemLaw>,
    device: &mut Device<MemEngine>,
    rounds: u32,
) -> io::Result<(u32, Duration)>
    requires port { (pass.old.port ≡ port.now) × (device.old.seat.port ≡ port.now) × (port.now.key.base ≡ heap.now) }
    requires heap { app.old.heap ≡ heap.now }
    ensures app { app.new.heap ≡ heap.now }
    ensures even { StaysEven pass.old pass.new }
    ensures device { GoesOn device.old device.new }
{
    let started = Instant::now(rt)?;
    let mut done = 0;
    for _ in 0..rounds {
        done += u32::from(round(rt, heap, app, port, pass, device));
    }
    Ok((done, started.elapsed(rt)?))
}

// Stops all queues, and turns until the device has ended.
fn stop<R: Wait>(
    rt: &R,
    heap: &Heap,
    app: &mut HeapPass,
    port: &Port<MemLaw>,
    pass: &mut PortPass<MemLaw>,
    device: &mut Device<MemEngine>,
)
    requires port { (pass.old.port ≡ port.now) × (device.old.seat.port ≡ port.now) × (port.now.key.base ≡ heap.now) }
    requires heap { app.old.heap ≡ heap.now }
    ensures app { app.new.heap ≡ heap.now }
    ensures even { StaysEven pass.old pass.new }
    ensures device { GoesOn device.old device.new }
    ensures ended { HasStop is_stop device.new.engine.served × (length device.new.seat.fetched ≡ length device.new.engine.served) }
{
    let out = call(rt, port, pass, device, MemOp::Stop);
    let _halted = was_pushed(heap, app, out);
    device.run(rt, port);
}

/// What a measurement came to.
#[derive(Clone, Copy)]
pub struct Measured {
    /// How many items waited in other queues.
    pub waited: u32,
    /// How many rounds were done, each a pop and a push of one queue.
    pub rounds: u32,
    /// How long the rounds took.
    pub took: Duration,
}

// The measurement on a device of its own, and the end of the port. The engine's pass comes back.
fn measure<R: Clock + Wait>(
    rt: &R,
    heap: &Heap,
    app: &mut HeapPass,
    port: Port<MemLaw>,
    mut passes: Vec<PortPass<MemLaw>>,
    mut device: Device<MemEngine>,
    waiting: u32,
    rounds: u32,
) -> (HeapPass, io::Result<Option<Measured>>)
    requires port { (device.seat.port ≡ port) × (device.seat.passes ≡ 1) × (port.key.base ≡ heap.now) }
    requires passes { NewFrom port 0 passes.items × (length passes.items ≡ 1) }
    requires heap { (app.old.heap ≡ heap.now) × (device.engine.pass.heap ≡ heap.now) }
    ensures { (app.new.heap ≡ heap.now) × (result.0.heap ≡ heap.now) }
{
    let mut pass = passes.take_last();
    let waited = fill(rt, heap, app, &port, &mut pass, &mut device, waiting);
    let spun = spin(rt, heap, app, &port, &mut pass, &mut device, rounds);
    stop(rt, heap, app, &port, &mut pass, &mut device);
    let (engine, seat) = device.parts();
    passes.push_reserved(pass);
    let _tickets = port.close(seat, passes).tickets();
    let measured = match spun {
        Ok((rounds, took)) => Ok(Some(Measured {
            waited,
            rounds,
            took,
        })),
        Err(error) => Err(error),
    };
    (engine.parts(), measured)
}

// Closes a port of which nothing was asked.
fn close_unused(port: Port<MemLaw>, seat: DeviceSeat<MemLaw>, passes: Vec<PortPass<MemLaw>>)
    requires seat { IsNewSeat port (length passes.items) seat }
    requires passes { NewFrom port 0 passes.items }
{
    let _tickets = port.close(seat, passes).tickets();
}

fn port_at<N: Basis<MemBase>>(
    alloc: Global,
    heap: &Heap,
) -> Option<(Port<MemLaw>, Vec<PortPass<MemLaw>>, DeviceSeat<MemLaw>)>
    requires { N.base ≡ heap.now }
    ensures port { IfSome result (λ r. (r.0.key.base ≡ heap.now) × (r.0.tokens.slots ≡ TOKENS)) }
    ensures passes { IfSome result (λ r. (length r.1.items ≡ 1) × NewFrom r.0 0 r.1.items) }
    ensures seat { IfSome result (λ r. IsNewSeat r.0 1 r.2) }
{
    let _ = heap;
    Port::<MemLaw>::make::<N>(alloc, TOKENS, 1).ok()
}

// A port on the heap.
fn port_on(
    alloc: Global,
    heap: &Heap,
) -> Option<(Port<MemLaw>, Vec<PortPass<MemLaw>>, DeviceSeat<MemLaw>)>
    ensures port { IfSome result (λ r. (r.0.key.base ≡ heap.now) × (r.0.tokens.slots ≡ TOKENS)) }
    ensures passes { IfSome result (λ r. (length r.1.items ≡ 1) × NewFrom r.0 0 r.1.items) }
    ensures seat { IfSome result (λ r. IsNewSeat r.0 1 r.2) }
{
    port_at::<Brand>(alloc, heap)
}

// The measurement on a port of its own. The engine's pass comes back.
fn measure_port<R: Clock + Wait>(
    rt: &R,
    alloc: Global,
    heap: &Heap,
    mine: HeapPass,
    app: &mut HeapPass,
    waiting: u32,
    rounds: u32,
) -> (HeapPass, io::Result<Option<Measured>>)
    requires { (app.old.heap ≡ heap.now) × (mine.heap ≡ heap.now) }
    ensures { (app.new.heap ≡ heap.now) × (result.0.heap ≡ heap.now) }
{
    let Some((port, passes, seat)) = port_on(alloc, heap) else {
        return (mine, Ok(None));
    };
    let engine = match MemEngine::make(alloc, heap, mine, TOKENS) {
        Ok(engine) => engine,
        Err(mine) => {
            close_unused(port, seat, passes);
            return (mine, Ok(None));
        }
    };
    match Device::make(alloc, engine, seat, TOKENS) {
        Ok(device) => measure(rt, heap, app, port, passes, device, waiting, rounds),
        Err((engine, seat)) => {
            close_unused(port, seat, passes);
            (engine.parts(), Ok(None))
        }
    }
}

/// Rounds of a pop and a push of one queue while so many items wait in others. `None` is want of memory.
pub fn run<R: Clock + Wait>(
    rt: &R,
    alloc: Global,
    waiting: u32,
    rounds: u32,
) -> io::Result<Option<Measured>>
    requires { waiting ≤ 1000 }
{
    let counts = Counts {
        small: waiting + 1,
        page: 0,
        large: 0,
    };
    let Ok((heap, mut passes)) = Heap::make(alloc, counts, 2) else {
        return Ok(None);
    };
    let mine = next(&heap, &mut passes);
    let mut app = next(&heap, &mut passes);
    let (mine, measured) = measure_port(rt, alloc, &heap, mine, &mut app, waiting, rounds);
    passes.push_reserved(mine);
    passes.push_reserved(app);
    let _ended = heap.close(passes);
    measured
}
