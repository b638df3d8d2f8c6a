// A port of a log's queue with a device, a heap and a log in memory, for one thread.
ghost use Rattle.std.specs.Prelude.{◌≡◌, ℕ, ◌+◌, ◌≤◌, [], length};
ghost use Rattle.demi_device.specs.Turning.{IsFresh};
ghost use Rattle.demi_port.specs.Seen.{IsNewPass, IsNewSeat};
ghost use Rattle.demi_sga.specs.Arrays.{AreOf};
ghost use Rattle.demi_logq.specs.Answers.{IsFrom, IsProper};
ghost use Rattle.demi_logq.specs.Answers.{LogBasis};

use crate::{Log, LogBase, LogEngine, LogLaw, LogOp, LogOut};
use demi_core::MemDisk;
use demi_device::{Device, Turn};
use demi_heap::{Counts, Heap, HeapPass};
use demi_port::{DeviceSeat, Port, PortPass, Redeem};
use demi_port_core::{Basis, Place, Token};
use demi_sga::{AppSga, free_app, free_lent, lend, sgaalloc};
use std::alloc::Global;
use std::marker::Brand;
use std::process::Abort;

// What is asked of a queue: a push is of this one byte, and a long push of 65,536 bytes and so many more, of which the last is this one.
#[derive(Clone, Copy)]
pub(crate) enum Ask {
    Push(u8),
    PushLong(u32, u8),
    Pop,
    Seek(u64),
    Truncate(u64),
    Stop,
}

// An outcome, with what there is of an array.
#[derive(Debug, PartialEq, Eq, Drop)]
pub(crate) enum Got {
    Appended(u64),
    BadSize,
    LogFull,
    Item { segments: u32, bytes: u32, last: u8 },
    AtEnd,
    Sought,
    Cut,
    BadIndex,
    NoSlot,
    Fault,
    Broken(u64),
    Stopped(u64),
    Halted,
}

// An item of one byte.
pub(crate) fn byte(last: u8) -> Got {
    Got::Item {
        segments: 1,
        bytes: 1,
        last,
    }
}

// A heap with such slots, and two passes of it.
pub(crate) fn two_passes(
    rt: &impl Abort,
    alloc: Global,
    counts: Counts,
) -> (Heap, HeapPass, HeapPass)
    requires { (counts.small ≤ 4096) × (counts.page ≤ 4096) × (counts.large ≤ 4096) × (1 ≤ counts.small + counts.page + counts.large) }
    ensures { (result.1.heap ≡ result.0) × (result.2.heap ≡ result.0) × (result.0.shape.passes ≡ 2) }
{
    let Ok((heap, mut passes)) = Heap::make(alloc, counts, 2) else {
        panic!(rt; "no memory");
    };
    let first = passes.pop().unwrap();
    let second = passes.pop().unwrap();
    (heap, first, second)
}

// Closes the heap. How many slots are free.
pub(crate) fn free_at_end(
    rt: &impl Abort,
    alloc: Global,
    heap: Heap,
    first: HeapPass,
    second: HeapPass,
) -> u32
    requires { (first.heap ≡ heap) × (second.heap ≡ heap) × (heap.shape.passes ≡ 2) }
{
    let mut passes = Vec::new(alloc);
    let Ok(()) = passes.push(first) else {
        panic!(rt; "no memory");
    };
    let Ok(()) = passes.push(second) else {
        panic!(rt; "no memory");
    };
    heap.close(passes).free
}

// An empty disk with room for so many bytes, which fails these calls, those of `append` and `cut` and those of `size` and `read_at`
// each counted together from 0.
pub(crate) fn disk_that_fails(
    rt: &impl Abort,
    alloc: Global,
    room: usize,
    write: Option<u64>,
    read: Option<u64>,
) -> MemDisk {
    let Ok(mut disk) = MemDisk::make(alloc, &[], room, listed(rt, alloc, write)) else {
        panic!(rt; "no memory");
    };
    disk.fail_reads(listed(rt, alloc, read));
    disk
}

fn listed(rt: &impl Abort, alloc: Global, call: Option<u64>) -> Vec<u64> {
    let mut list = Vec::new(alloc);
    if let Some(number) = call {
        let Ok(()) = list.push(number) else {
            panic!(rt; "no memory");
        };
    }
    list
}

// An engine over a new log of at most ten entries.
pub(crate) fn engine_on<'h>(
    rt: &impl Abort,
    alloc: Global,
    heap: &'h Heap,
    mine: HeapPass,
    disk: MemDisk,
) -> LogEngine<'h, MemDisk>
    requires { mine.heap ≡ heap.now }
    ensures heap { (result.pass.heap ≡ heap.now) × (result.base.heap ≡ heap.now) }
    ensures none { (result.served ≡ []) × (result.finished ≡ []) }
{
    match Log::make(alloc, disk, 10) {
        Ok(log) => match LogEngine::make(alloc, log, heap, mine) {
            Ok(engine) => engine,
            Err((_log, _pass)) => panic!(rt; "no memory"),
        },
        Err((_disk, _refusal)) => panic!(rt; "no log"),
    }
}

fn port_at<N: Basis<LogBase>>(
    rt: &impl Abort,
    alloc: Global,
    engine: &LogEngine<MemDisk>,
) -> (Port<LogLaw>, PortPass<LogLaw>, DeviceSeat<LogLaw>)
    requires { N.base ≡ engine.now.base }
    ensures port { (result.0.key.base ≡ engine.now.base) × (result.0.tokens.slots ≡ 4) }
    ensures pass { IsNewPass result.0 0 result.1 }
    ensures seat { IsNewSeat result.0 1 result.2 }
{
    let _ = engine;
    let Ok((port, mut passes, seat)) = Port::<LogLaw>::make::<N>(alloc, 4, 1) else {
        panic!(rt; "no memory");
    };
    let pass = passes.pop().unwrap();
    (port, pass, seat)
}

// A port with four tokens and one pass on what the engine stands on.
pub(crate) fn port_on(
    rt: &impl Abort,
    alloc: Global,
    engine: &LogEngine<MemDisk>,
) -> (Port<LogLaw>, PortPass<LogLaw>, DeviceSeat<LogLaw>)
    ensures port { (result.0.key.base ≡ engine.now.base) × (result.0.tokens.slots ≡ 4) }
    ensures pass { IsNewPass result.0 0 result.1 }
    ensures seat { IsNewSeat result.0 1 result.2 }
{
    port_at::<Brand>(rt, alloc, engine)
}

// The engine at the port's device.
pub(crate) fn device_on<'h>(
    rt: &impl Abort,
    alloc: Global,
    engine: LogEngine<'h, MemDisk>,
    seat: DeviceSeat<LogLaw>,
) -> Device<LogEngine<'h, MemDisk>>
    requires base { engine.base ≡ seat.port.key.base }
    requires tokens { seat.port.tokens.slots ≡ 4 }
    requires fresh { IsFresh seat }
    requires none { (engine.served ≡ []) × (engine.finished ≡ []) }
    ensures { (result.seat ≡ seat) × (result.engine ≡ engine.entry) }
{
    match Device::make(alloc, engine, seat, 4) {
        Ok(device) => device,
        Err((engine, _seat)) => {
            let (_log, _pass) = engine.parts();
            panic!(rt; "no memory")
        }
    }
}

// An array of one segment with so many bytes, of which the last is this one.
fn segment(rt: &impl Abort, heap: &Heap, app: &mut HeapPass, bytes: u32, last: u8) -> AppSga
    requires { app.old.heap ≡ heap.now }
    ensures { AreOf heap.now result × (app.new.heap ≡ heap.now) }
{
    match sgaalloc(heap, app, bytes) {
        Ok(mut sga) => {
            if let Some(b) = sga.segment_mut(0).last_mut() {
                *b = last;
            }
            sga
        }
        Err(_) => panic!(rt; "no slot"),
    }
}

// A slot that is held by the caller.
pub(crate) fn hold(rt: &impl Abort, heap: &Heap, app: &mut HeapPass) -> AppSga
    requires { app.old.heap ≡ heap.now }
    ensures { AreOf heap.now result × (app.new.heap ≡ heap.now) }
{
    segment(rt, heap, app, 1, 0)
}

// Lends an array, and gives its own half up at once.
fn pushed(heap: &Heap, app: &mut HeapPass, sga: AppSga) -> LogOp
    requires { (app.old.heap ≡ heap.now) × AreOf heap.now sga }
    ensures proper { (base : LogBasis) → base.heap ≡ heap.now → IsProper base result }
    ensures app { app.new.heap ≡ heap.now }
{
    let (half, dev) = lend(heap, app, sga);
    free_lent(heap, app, half);
    LogOp::Push { sga: dev }
}

// The operation.
fn op_of(rt: &impl Abort, heap: &Heap, app: &mut HeapPass, ask: Ask) -> LogOp
    requires { app.old.heap ≡ heap.now }
    ensures proper { (base : LogBasis) → base.heap ≡ heap.now → IsProper base result }
    ensures app { app.new.heap ≡ heap.now }
{
    match ask {
        Ask::Push(byte) => {
            let sga = segment(rt, heap, app, 1, byte);
            pushed(heap, app, sga)
        }
        Ask::PushLong(more, last) => {
            let first = segment(rt, heap, app, 65_536, 0);
            let rest = segment(rt, heap, app, more, last);
            match AppSga::join(first, rest) {
                Ok(sga) => pushed(heap, app, sga),
                Err((_first, _rest)) => panic!(rt; "too many segments"),
            }
        }
        Ask::Pop => LogOp::Pop,
        Ask::Seek(index) => LogOp::Seek { index },
        Ask::Truncate(keep) => LogOp::Truncate { keep },
        Ask::Stop => LogOp::Stop,
    }
}

// Submits an operation.
fn submit(
    rt: &impl Abort,
    heap: &Heap,
    app: &mut HeapPass,
    port: &Port<LogLaw>,
    pass: &mut PortPass<LogLaw>,
    ask: Ask,
) -> Token
    requires port { (pass.old.port ≡ port.now) × (port.now.key.base.heap ≡ heap.now) }
    requires heap { app.old.heap ≡ heap.now }
    ensures app { app.new.heap ≡ heap.now }
    ensures same { (pass.new.port ≡ pass.old.port) × (pass.new.number ≡ pass.old.number) }
    ensures one { (length pass.new.submitted ≡ length pass.old.submitted + 1) × (pass.new.redeemed ≡ pass.old.redeemed) }
{
    match port.submit(pass, op_of(rt, heap, app, ask)) {
        Ok((token, _)) => token,
        Err(_) => panic!(rt; "no token is free"),
    }
}

fn seen(heap: &Heap, app: &mut HeapPass, sga: AppSga) -> Got
    requires { (app.old.heap ≡ heap.now) × AreOf heap.now sga }
    ensures { app.new.heap ≡ heap.now }
{
    let segments = sga.segments();
    let last = match sga.segment(segments - 1).last() {
        Some(b) => *b,
        None => 0,
    };
    let bytes = sga.len();
    free_app(heap, app, sga);
    Got::Item {
        segments,
        bytes,
        last,
    }
}

fn told(heap: &Heap, app: &mut HeapPass, out: LogOut) -> Got
    requires { (app.old.heap ≡ heap.now) × IsFrom heap.now out }
    ensures { app.new.heap ≡ heap.now }
{
    match out {
        LogOut::Appended(index) => Got::Appended(index),
        LogOut::BadSize => Got::BadSize,
        LogOut::LogFull => Got::LogFull,
        LogOut::Item(sga) => seen(heap, app, sga),
        LogOut::AtEnd => Got::AtEnd,
        LogOut::Sought => Got::Sought,
        LogOut::Cut => Got::Cut,
        LogOut::BadIndex => Got::BadIndex,
        LogOut::NoSlot => Got::NoSlot,
        LogOut::Fault => Got::Fault,
        LogOut::Broken(Place(at)) => Got::Broken(at),
        LogOut::Stopped(Place(at)) => Got::Stopped(at),
        LogOut::Halted => Got::Halted,
    }
}

// Redeems a token that is done.
fn answer(
    rt: &impl Abort,
    heap: &Heap,
    app: &mut HeapPass,
    port: &Port<LogLaw>,
    pass: &mut PortPass<LogLaw>,
    token: Token,
) -> Got
    requires port { (pass.old.port ≡ port.now) × (port.now.key.base.heap ≡ heap.now) }
    requires heap { app.old.heap ≡ heap.now }
    ensures app { app.new.heap ≡ heap.now }
    ensures same { (pass.new.port ≡ pass.old.port) × (pass.new.number ≡ pass.old.number) }
    ensures one { (pass.new.submitted ≡ pass.old.submitted) × (length pass.new.redeemed ≡ length pass.old.redeemed + 1) }
{
    match port.try_wait(pass, token) {
        Redeem::Ready(_, out) => told(heap, app, out),
        Redeem::NotYet | Redeem::Spent | Redeem::Unknown => panic!(rt; "it is not done"),
    }
}

// One turn, of which the tests need to know no more than what stays.
fn turn(device: &mut Device<LogEngine<MemDisk>>, port: &Port<LogLaw>)
    requires { device.old.seat.port ≡ port.now }
    ensures { (device.new.seat.port ≡ device.old.seat.port) × (device.new.seat.passes ≡ device.old.seat.passes) × (device.new.engine.base ≡ device.old.engine.base) }
{
    let _turn = device.turn(port);
}

// Asks for four operations, has the device serve them in one turn, and redeems their outcomes.
pub(crate) fn four(
    rt: &impl Abort,
    heap: &Heap,
    app: &mut HeapPass,
    port: &Port<LogLaw>,
    pass: &mut PortPass<LogLaw>,
    device: &mut Device<LogEngine<MemDisk>>,
    asks: [Ask; 4],
) -> [Got; 4]
    requires port { (pass.old.port ≡ port.now) × (port.now.key.base.heap ≡ heap.now) × (device.old.seat.port ≡ port.now) }
    requires heap { app.old.heap ≡ heap.now }
    requires even { length pass.old.submitted ≡ length pass.old.redeemed }
    ensures app { app.new.heap ≡ heap.now }
    ensures same { (pass.new.port ≡ pass.old.port) × (pass.new.number ≡ pass.old.number) }
    ensures even { length pass.new.submitted ≡ length pass.new.redeemed }
    ensures device { (device.new.seat.port ≡ device.old.seat.port) × (device.new.seat.passes ≡ device.old.seat.passes) × (device.new.engine.base ≡ device.old.engine.base) }
{
    let first = submit(rt, heap, app, port, pass, asks[0]);
    let second = submit(rt, heap, app, port, pass, asks[1]);
    let third = submit(rt, heap, app, port, pass, asks[2]);
    let fourth = submit(rt, heap, app, port, pass, asks[3]);
    turn(device, port);
    [
        answer(rt, heap, app, port, pass, first),
        answer(rt, heap, app, port, pass, second),
        answer(rt, heap, app, port, pass, third),
        answer(rt, heap, app, port, pass, fourth),
    ]
}

// The last turn, after a stop, and the close of the port. The engine's pass.
pub(crate) fn end<'h>(
    rt: &impl Abort,
    alloc: Global,
    heap: &'h Heap,
    port: Port<LogLaw>,
    mut device: Device<LogEngine<'h, MemDisk>>,
    pass: PortPass<LogLaw>,
) -> HeapPass
    requires port { (device.seat.port ≡ port) × (device.seat.passes ≡ 1) × (pass.port ≡ port) × (pass.number ≡ 0) }
    requires even { length pass.submitted ≡ length pass.redeemed }
    requires heap { device.engine.base.heap ≡ heap.now }
    ensures { result.heap ≡ heap.now }
{
    let _ = heap;
    if device.turn(&port) != Turn::Ended {
        panic!(rt; "it did not end");
    }
    let (engine, seat) = device.parts();
    let mut passes = Vec::new(alloc);
    let Ok(()) = passes.push(pass) else {
        panic!(rt; "no memory");
    };
    let _tickets = port.close(seat, passes).tickets();
    let (log, pass) = engine.parts();
    let _disk = log.disk();
    pass
}

// What eight operations on a new log come to, the last of which is a stop, four in each turn. Then each slot is free.
pub(crate) fn eight(
    rt: &impl Abort,
    alloc: Global,
    counts: Counts,
    disk: MemDisk,
    asks: [[Ask; 4]; 2],
) -> [[Got; 4]; 2]
    requires { (counts.small ≤ 4096) × (counts.page ≤ 4096) × (counts.large ≤ 4096) × (1 ≤ counts.small + counts.page + counts.large) }
{
    let all = counts.small + counts.page + counts.large;
    let (heap, mine, mut app) = two_passes(rt, alloc, counts);
    let engine = engine_on(rt, alloc, &heap, mine, disk);
    let (port, mut pass, seat) = port_on(rt, alloc, &engine);
    let mut device = device_on(rt, alloc, engine, seat);
    let [early, late] = asks;
    let first = four(rt, &heap, &mut app, &port, &mut pass, &mut device, early);
    let second = four(rt, &heap, &mut app, &port, &mut pass, &mut device, late);
    let mine = end(rt, alloc, &heap, port, device, pass);
    assert_eq!(rt; free_at_end(rt, alloc, heap, mine, app), all);
    [first, second]
}
