//! Rows of a sending port, over a sink in memory.
ghost use Rattle.std.specs.Prelude.{◌≡◌, length};
ghost use Rattle.demi_device.specs.Turning.{IsFresh};
ghost use Rattle.demi_port.specs.Seen.{IsNewSeat, NewFrom};
ghost use Rattle.demi_sga.specs.Arrays.{AreOf};
ghost use Rattle.demi_streamq.specs.InTests.{IsCalm};
ghost use Rattle.demi_streamq.specs.Sending.{IsProper};

use super::rows::{Ask, Row, Seen};
use super::served::{answer, close_heap, end, heap_of};
use crate::{StreamBase, TxEngine, TxLaw, TxOp, TxOut};
use demi_buf::Class;
use demi_core::MemSink;
use demi_device::Device;
use demi_heap::{AppBuf, Heap, HeapEnd, HeapPass, NoSlot};
use demi_port::{DeviceSeat, Port, PortPass};
use demi_port_core::Basis;
use demi_sga::{AppSga, free_app, free_lent, lend};
use std::alloc::Global;
use std::marker::Brand;
use std::process::Abort;
use std::test::Fail;

fn port_at<N: Basis<StreamBase>>(
    rt: &impl Abort,
    alloc: Global,
    heap: &Heap,
) -> (Port<TxLaw>, Vec<PortPass<TxLaw>>, DeviceSeat<TxLaw>)
    requires { N.base ≡ heap.now }
    ensures port { (result.0.key.base ≡ heap.now) × (result.0.tokens.slots ≡ 8) }
    ensures passes { (length result.1.items ≡ 1) × NewFrom result.0 0 result.1.items }
    ensures seat { IsNewSeat result.0 1 result.2 }
{
    let _ = heap;
    let Ok(made) = Port::<TxLaw>::make::<N>(alloc, 8, 1) else {
        panic!(rt; "no memory");
    };
    made
}

// A port with eight tokens on the heap.
fn port_on(
    rt: &impl Abort,
    alloc: Global,
    heap: &Heap,
) -> (Port<TxLaw>, Vec<PortPass<TxLaw>>, DeviceSeat<TxLaw>)
    ensures port { (result.0.key.base ≡ heap.now) × (result.0.tokens.slots ≡ 8) }
    ensures passes { (length result.1.items ≡ 1) × NewFrom result.0 0 result.1.items }
    ensures seat { IsNewSeat result.0 1 result.2 }
{
    port_at::<Brand>(rt, alloc, heap)
}

// An engine at the port's device.
fn device_on<'h>(
    rt: &impl Abort,
    alloc: Global,
    heap: &'h Heap,
    mine: HeapPass,
    sink: MemSink,
    seat: DeviceSeat<TxLaw>,
) -> Device<TxEngine<'h, MemSink>>
    requires heap { (mine.heap ≡ heap.now) × (seat.port.key.base ≡ heap.now) }
    requires tokens { seat.port.tokens.slots ≡ 8 }
    requires fresh { IsFresh seat }
    ensures seat { result.seat ≡ seat }
    ensures engine { result.engine.pass ≡ mine }
{
    let engine = TxEngine::make(sink, heap, mine);
    match Device::make(alloc, engine, seat, 8) {
        Ok(device) => device,
        Err((engine, _seat)) => {
            let _parts = engine.parts();
            panic!(rt; "no memory")
        }
    }
}

fn fill(room: &mut [u8], bytes: &[u8]) {
    for (to, from) in room.iter_mut().zip(bytes) {
        *to = *from;
    }
}

// A segment of these bytes, of which there are at most 256.
fn segment(rt: &impl Abort, heap: &Heap, app: &mut HeapPass, bytes: &[u8]) -> AppBuf
    requires { app.old.heap ≡ heap.now }
    ensures { (result.heap ≡ heap.now) × (app.new.heap ≡ heap.now) }
{
    match heap.claim(app, Class::Small) {
        Ok(mut buf) => {
            buf.set_len(bytes.len().min(256) as u32);
            fill(buf.bytes_mut(), bytes);
            buf
        }
        Err(NoSlot) => panic!(rt; "no slot"),
    }
}

fn joined(rt: &impl Abort, heap: &Heap, app: &mut HeapPass, first: AppSga, second: AppSga) -> AppSga
    requires { (app.old.heap ≡ heap.now) × AreOf heap.now first × AreOf heap.now second }
    ensures { AreOf heap.now result × (app.new.heap ≡ heap.now) }
{
    match AppSga::join(first, second) {
        Ok(all) => all,
        Err((first, second)) => {
            free_app(heap, app, first);
            free_app(heap, app, second);
            panic!(rt; "too many segments")
        }
    }
}

// An array of these three segments.
fn array(
    rt: &impl Abort,
    heap: &Heap,
    app: &mut HeapPass,
    first: &[u8],
    second: &[u8],
    third: &[u8],
) -> AppSga
    requires { app.old.heap ≡ heap.now }
    ensures { AreOf heap.now result × (app.new.heap ≡ heap.now) }
{
    let first = AppSga::of(segment(rt, heap, app, first));
    let second = AppSga::of(segment(rt, heap, app, second));
    let third = AppSga::of(segment(rt, heap, app, third));
    let front = joined(rt, heap, app, first, second);
    joined(rt, heap, app, front, third)
}

// The operation of a row. Of an array that is pushed, the half that stays here ends at once.
fn op_of(rt: &impl Abort, heap: &Heap, app: &mut HeapPass, ask: &Ask) -> TxOp
    requires { app.old.heap ≡ heap.now }
    ensures { IsProper heap.now result × (app.new.heap ≡ heap.now) }
{
    match ask {
        Ask::Push(first, second, third) => {
            let sga = array(rt, heap, app, first, second, third);
            let (half, dev) = lend(heap, app, sga);
            free_lent(heap, app, half);
            TxOp::Push { sga: dev }
        }
        Ask::Close => TxOp::Close,
        Ask::Stop => TxOp::Stop,
        _ => panic!(rt; "a sending port has no such operation"),
    }
}

// Whether the outcome is what was to be seen.
fn is_as_seen(out: TxOut, seen: &Seen) -> bool {
    match out {
        TxOut::Pushed => *seen == Seen::Pushed,
        TxOut::Fault(count) => *seen == Seen::Fault(count),
        TxOut::Broken(place) => *seen == Seen::Broken(place.0),
        TxOut::Shut => *seen == Seen::Shut,
        TxOut::Closed => *seen == Seen::Closed,
        TxOut::Stopped(place) => *seen == Seen::Stopped(place.0),
        TxOut::Halted => *seen == Seen::Halted,
    }
}

// The operations of a row, one after another. Whether each came to what was to be seen.
fn run<'h>(
    rt: &impl Abort,
    heap: &'h Heap,
    app: &mut HeapPass,
    port: &Port<TxLaw>,
    device: &mut Device<TxEngine<'h, MemSink>>,
    pass: &mut PortPass<TxLaw>,
    row: &Row,
) -> bool
    requires heap { (app.old.heap ≡ heap.now) × (port.now.key.base ≡ heap.now) }
    requires device { device.old.seat.port ≡ port.now }
    requires pass { IsCalm port.now pass.old }
    ensures heap { app.new.heap ≡ heap.now }
    ensures device { (device.new.seat.port ≡ device.old.seat.port) × (device.new.seat.passes ≡ device.old.seat.passes) }
    ensures engine { device.new.engine.pass.heap ≡ device.old.engine.pass.heap }
    ensures pass { IsCalm port.now pass.new }
{
    let mut same = true;
    'asking: for (ask, seen) in row.asks {
        let op = op_of(rt, heap, app, ask);
        let out = answer(rt, port, device, pass, op);
        same = is_as_seen(out, seen) && same;
    }
    same
}

/// A sink that takes at most two bytes a write, behind a port on a heap of eight small slots. Whether each operation of the row came
/// to what was to be seen and just the bytes of the row were written, and the counts of the heap at its end.
pub(crate) fn send(
    rt: &impl Abort,
    alloc: Global,
    fails: Vec<u64>,
    row: &Row,
) -> Result<(bool, HeapEnd), Fail> {
    let Ok(sink) = MemSink::make(alloc, 64, 2, fails) else {
        return Err(Fail::from("no memory"));
    };
    let (heap, mine, mut app) = heap_of(rt, alloc, 8, 0);
    let (port, mut passes, seat) = port_on(rt, alloc, &heap);
    let mut pass = passes.take_last();
    let mut device = device_on(rt, alloc, &heap, mine, sink, seat);
    let same = run(rt, &heap, &mut app, &port, &mut device, &mut pass, row);
    let halted = answer(rt, &port, &mut device, &mut pass, TxOp::Stop);
    let _last = is_as_seen(halted, &Seen::Halted);
    let (sink, mine) = end(rt, alloc, port, device, pass).parts();
    let written = sink.bytes() == row.moved;
    Ok((same && written, close_heap(rt, alloc, heap, mine, app)))
}
