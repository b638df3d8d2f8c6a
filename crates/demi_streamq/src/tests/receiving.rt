//! Rows of a receiving port, over a source in memory.
ghost use Rattle.std.specs.Prelude.{◌≡◌, IfSome, length};
ghost use Rattle.demi_device.specs.Turning.{IsFresh};
ghost use Rattle.demi_port.specs.Seen.{IsNewSeat, NewFrom};
ghost use Rattle.demi_streamq.specs.InTests.{IsCalm};
ghost use Rattle.demi_streamq.specs.Receiving.{IsFit, IsFrom};

use super::rows::{Ask, Row, Seen};
use super::served::{answer, close_heap, end, heap_of};
use crate::{RxEngine, RxLaw, RxOp, RxOut, StreamBase};
use demi_buf::Class;
use demi_core::MemSource;
use demi_device::Device;
use demi_heap::{AppBuf, Heap, HeapEnd, HeapPass, NoSlot};
use demi_port::{DeviceSeat, Port, PortPass};
use demi_port_core::Basis;
use std::alloc::Global;
use std::marker::Brand;
use std::process::Abort;
use std::test::Fail;

fn port_at<N: Basis<StreamBase>>(
    rt: &impl Abort,
    alloc: Global,
    heap: &Heap,
) -> (Port<RxLaw>, Vec<PortPass<RxLaw>>, DeviceSeat<RxLaw>)
    requires { N.base ≡ heap.now }
    ensures port { (result.0.key.base ≡ heap.now) × (result.0.tokens.slots ≡ 8) }
    ensures passes { (length result.1.items ≡ 1) × NewFrom result.0 0 result.1.items }
    ensures seat { IsNewSeat result.0 1 result.2 }
{
    let _ = heap;
    let Ok(made) = Port::<RxLaw>::make::<N>(alloc, 8, 1) else {
        panic!(rt; "no memory");
    };
    made
}

// A port with eight tokens on the heap.
fn port_on(
    rt: &impl Abort,
    alloc: Global,
    heap: &Heap,
) -> (Port<RxLaw>, Vec<PortPass<RxLaw>>, DeviceSeat<RxLaw>)
    ensures port { (result.0.key.base ≡ heap.now) × (result.0.tokens.slots ≡ 8) }
    ensures passes { (length result.1.items ≡ 1) × NewFrom result.0 0 result.1.items }
    ensures seat { IsNewSeat result.0 1 result.2 }
{
    port_at::<Brand>(rt, alloc, heap)
}

// An engine at the port's device.
fn device_on<'h>(
    rt: &impl Abort,
    alloc: Global,
    heap: &'h Heap,
    mine: HeapPass,
    source: MemSource,
    seat: DeviceSeat<RxLaw>,
) -> Device<RxEngine<'h, MemSource>>
    requires heap { (mine.heap ≡ heap.now) × (seat.port.key.base ≡ heap.now) }
    requires tokens { seat.port.tokens.slots ≡ 8 }
    requires fresh { IsFresh seat }
    ensures seat { result.seat ≡ seat }
    ensures engine { result.engine.pass ≡ mine }
{
    let engine = RxEngine::make(source, heap, mine);
    match Device::make(alloc, engine, seat, 8) {
        Ok(device) => device,
        Err((engine, _seat)) => {
            let _parts = engine.parts();
            panic!(rt; "no memory")
        }
    }
}

// The page that is held back, where one is.
fn hold(rt: &impl Abort, heap: &Heap, app: &mut HeapPass, held: bool) -> Option<AppBuf>
    requires { app.old.heap ≡ heap.now }
    ensures { IfSome result (λ b. b.heap ≡ heap.now) × (app.new.heap ≡ heap.now) }
{
    if !held {
        return None;
    }
    match heap.claim(app, Class::Page) {
        Ok(page) => Some(page),
        Err(NoSlot) => panic!(rt; "no slot"),
    }
}

fn free_held(heap: &Heap, app: &mut HeapPass, held: Option<AppBuf>)
    requires { IfSome held (λ b. b.heap ≡ heap.now) × (app.old.heap ≡ heap.now) }
    ensures { app.new.heap ≡ heap.now }
{
    match held {
        Some(page) => heap.free_app(app, page),
        None => {}
    }
}

// Whether the outcome is what was to be seen. A piece is freed.
fn is_as_seen(heap: &Heap, app: &mut HeapPass, out: RxOut, seen: &Seen) -> bool
    requires { (app.old.heap ≡ heap.now) × IsFrom heap.now out }
    ensures { app.new.heap ≡ heap.now }
{
    match out {
        RxOut::Piece(piece) => {
            let same = match seen {
                Seen::Piece(bytes) => piece.bytes() == *bytes,
                _ => false,
            };
            heap.free_app(app, piece);
            same
        }
        RxOut::End => *seen == Seen::End,
        RxOut::Fault(count) => *seen == Seen::Fault(count),
        RxOut::Broken(place) => *seen == Seen::Broken(place.0),
        RxOut::NoSlot => *seen == Seen::NoSlot,
        RxOut::Stopped(place) => *seen == Seen::Stopped(place.0),
        RxOut::Halted => *seen == Seen::Halted,
    }
}

// The operation of a row.
fn op_of(rt: &impl Abort, ask: &Ask) -> RxOp
    ensures { IsFit result }
{
    match ask {
        Ask::Pop(max) if 1 <= *max && *max <= 4096 => RxOp::Pop { max: *max },
        Ask::Stop => RxOp::Stop,
        _ => panic!(rt; "a receiving port has no such operation"),
    }
}

// The operations of a row, one after another. Whether each came to what was to be seen.
fn run<'h>(
    rt: &impl Abort,
    heap: &'h Heap,
    app: &mut HeapPass,
    port: &Port<RxLaw>,
    device: &mut Device<RxEngine<'h, MemSource>>,
    pass: &mut PortPass<RxLaw>,
    row: &Row,
) -> bool
    requires heap { (app.old.heap ≡ heap.now) × (port.now.key.base ≡ heap.now) }
    requires device { device.old.seat.port ≡ port.now }
    requires pass { IsCalm port.now pass.old }
    ensures heap { app.new.heap ≡ heap.now }
    ensures device { (device.new.seat.port ≡ device.old.seat.port) × (device.new.seat.passes ≡ device.old.seat.passes) }
    ensures engine { device.new.engine.pass.heap ≡ device.old.engine.pass.heap }
    ensures pass { IsCalm port.now pass.new }
{
    let mut held = hold(rt, heap, app, row.held);
    let mut same = true;
    'asking: for (ask, seen) in row.asks {
        match ask {
            Ask::Free => {
                free_held(heap, app, held);
                held = None;
            }
            _ => {
                let out = answer(rt, port, device, pass, op_of(rt, ask));
                same = is_as_seen(heap, app, out, seen) && same;
            }
        }
    }
    free_held(heap, app, held);
    same
}

/// A source of `abc` that gives at most two bytes a read, behind a port on a heap of one page. Whether each operation of the row came to
/// what was to be seen and just the bytes of the row were taken, and the counts of the heap at its end.
pub(crate) fn receive(
    rt: &impl Abort,
    alloc: Global,
    fails: Vec<u64>,
    row: &Row,
) -> Result<(bool, HeapEnd), Fail> {
    let source = MemSource::make(b"abc".to_vec(alloc)?, 2, fails);
    let (heap, mine, mut app) = heap_of(rt, alloc, 0, 1);
    let (port, mut passes, seat) = port_on(rt, alloc, &heap);
    let mut pass = passes.take_last();
    let mut device = device_on(rt, alloc, &heap, mine, source, seat);
    let same = run(rt, &heap, &mut app, &port, &mut device, &mut pass, row);
    let halted = answer(rt, &port, &mut device, &mut pass, RxOp::Stop);
    let _last = is_as_seen(&heap, &mut app, halted, &Seen::Halted);
    let (source, mine) = end(rt, alloc, port, device, pass).parts();
    let taken = source.bytes() == &b"abc"[row.moved.len().min(3)..];
    Ok((same && taken, close_heap(rt, alloc, heap, mine, app)))
}
