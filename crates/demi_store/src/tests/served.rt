// The store at a port's device, for one thread.
ghost use Rattle.std.specs.Prelude.{◌≡◌, ◌+◌, ◌≤◌, [], length};
ghost use Rattle.demi_buf.specs.declared.class.Class.TheVariants.{Large as large};
ghost use Rattle.demi_device.specs.Turning.{IsFresh};
ghost use Rattle.demi_port.specs.Seen.{IsNewPass, IsNewSeat};
ghost use Rattle.demi_store.specs.Laws.{IsProper, StoreBasis};

use super::key_a;
use crate::{Back, StoreAnswer, StoreAsk, StoreBase, StoreEngine, StoreLaw, StoreOp, StoreOut};
use demi_buf::Class;
use demi_core::MemDisk;
use demi_device::{Device, Turn};
use demi_heap::{Counts, Heap, HeapPass};
use demi_logq::Log;
use demi_port::{DeviceSeat, Port, PortPass, Redeem};
use demi_port_core::{Basis, Token};
use demi_sga::{free_lent, lend, sgaalloc};
use std::alloc::Global;
use std::marker::Brand;
use std::process::Abort;
use std::test::Fail;

// What the store said, and how many bytes came back with it, with the first of them.
#[derive(Debug, PartialEq, Eq, Drop)]
struct Got {
    answer: StoreAnswer,
    bytes: u32,
    first: u8,
}

// What is asked: a put of this one byte, a get, both of the same key, or a stop.
#[derive(Clone, Copy)]
enum Ask {
    Put(u8),
    Get,
    Stop,
}

fn new_heap(rt: &impl Abort, alloc: Global) -> (Heap, HeapPass)
    ensures { (result.1.heap ≡ result.0) × (result.0.shape.passes ≡ 1) }
{
    let counts = Counts {
        small: 2,
        page: 0,
        large: 1,
    };
    let Ok((heap, mut passes)) = Heap::make(alloc, counts, 1) else {
        panic!(rt; "no memory");
    };
    let pass = passes.pop().unwrap();
    (heap, pass)
}

// An engine over a new log, of at most one record.
fn engine_on(rt: &impl Abort, alloc: Global) -> StoreEngine<MemDisk>
    ensures { (result.served ≡ []) × (result.finished ≡ []) }
{
    let Ok(disk) = MemDisk::make(alloc, &[], 200, Vec::new(alloc)) else {
        panic!(rt; "no memory");
    };
    let Ok(log) = Log::make(alloc, disk, 10) else {
        panic!(rt; "an empty disk is a log");
    };
    match StoreEngine::make(alloc, log, 1) {
        Ok(engine) => engine,
        Err((log, _)) => {
            let _disk = log.disk();
            panic!(rt; "no records are records")
        }
    }
}

fn port_at<N: Basis<StoreBase>>(
    rt: &impl Abort,
    alloc: Global,
    engine: &StoreEngine<MemDisk>,
) -> (Port<StoreLaw>, PortPass<StoreLaw>, DeviceSeat<StoreLaw>)
    requires { N.base ≡ engine.now.base }
    ensures port { (result.0.key.base ≡ engine.now.base) × (result.0.tokens.slots ≡ 4) }
    ensures pass { IsNewPass result.0 0 result.1 }
    ensures seat { IsNewSeat result.0 1 result.2 }
{
    let _ = engine;
    let Ok((port, mut passes, seat)) = Port::<StoreLaw>::make::<N>(alloc, 4, 1) else {
        panic!(rt; "no memory");
    };
    let pass = passes.pop().unwrap();
    (port, pass, seat)
}

// A port with four tokens and one pass on what the engine stands on.
fn port_on(
    rt: &impl Abort,
    alloc: Global,
    engine: &StoreEngine<MemDisk>,
) -> (Port<StoreLaw>, PortPass<StoreLaw>, DeviceSeat<StoreLaw>)
    ensures port { (result.0.key.base ≡ engine.now.base) × (result.0.tokens.slots ≡ 4) }
    ensures pass { IsNewPass result.0 0 result.1 }
    ensures seat { IsNewSeat result.0 1 result.2 }
{
    port_at::<Brand>(rt, alloc, engine)
}

// The engine at the port's device.
fn device_on(
    rt: &impl Abort,
    alloc: Global,
    engine: StoreEngine<MemDisk>,
    seat: DeviceSeat<StoreLaw>,
) -> Device<StoreEngine<MemDisk>>
    requires base { engine.base ≡ seat.port.key.base }
    requires tokens { seat.port.tokens.slots ≡ 4 }
    requires fresh { IsFresh seat }
    requires none { (engine.served ≡ []) × (engine.finished ≡ []) }
    ensures { (result.seat ≡ seat) × (result.engine ≡ engine) }
{
    match Device::make(alloc, engine, seat, 4) {
        Ok(device) => device,
        Err((engine, _seat)) => {
            let _disk = engine.parts().disk();
            panic!(rt; "no memory")
        }
    }
}

// The operation. The application's own half of a value is given up at once.
fn op_of(rt: &impl Abort, heap: &Heap, app: &mut HeapPass, ask: Ask) -> StoreAsk
    requires { app.old.heap ≡ heap.now }
    ensures proper { (base : StoreBasis) → IsProper base result }
    ensures app { app.new.heap ≡ heap.now }
{
    let op = match ask {
        Ask::Put(byte) => match sgaalloc(heap, app, 1) {
            Ok(mut sga) => {
                if let Some(b) = sga.segment_mut(0).first_mut() {
                    *b = byte;
                }
                let (half, dev) = lend(heap, app, sga);
                free_lent(heap, app, half);
                StoreOp::Put {
                    link: 0,
                    index: 0,
                    key: key_a(),
                    value: Some(dev),
                }
            }
            Err(_) => panic!(rt; "no slot"),
        },
        Ask::Get => match heap.claim(app, Class::Large) {
            Ok(room) => StoreOp::Get { key: key_a(), room },
            Err(_) => panic!(rt; "no slot"),
        },
        Ask::Stop => StoreOp::Stop,
    };
    StoreAsk { sequence: 1, op }
}

// Submits an operation.
fn submit(
    rt: &impl Abort,
    heap: &Heap,
    app: &mut HeapPass,
    port: &Port<StoreLaw>,
    pass: &mut PortPass<StoreLaw>,
    ask: Ask,
) -> Token
    requires port { pass.old.port ≡ port.now }
    requires heap { app.old.heap ≡ heap.now }
    ensures app { app.new.heap ≡ heap.now }
    ensures same { (pass.new.port ≡ pass.old.port) × (pass.new.number ≡ pass.old.number) }
    ensures one { (length pass.new.submitted ≡ length pass.old.submitted + 1) × (pass.new.redeemed ≡ pass.old.redeemed) }
{
    match port.submit(pass, op_of(rt, heap, app, ask)) {
        Ok((token, _)) => token,
        Err(_) => panic!(rt; "no token is free"),
    }
}

// What an outcome says. What came back is given up for good.
fn told(out: StoreOut) -> Got {
    let StoreOut { answer, back } = out;
    match back {
        Back::Nothing => Got {
            answer,
            bytes: 0,
            first: 0,
        },
        Back::Value(sga) => {
            let bytes = sga.len();
            sga.lose();
            Got {
                answer,
                bytes,
                first: 0,
            }
        }
        Back::Room(room) => {
            let first = match room.bytes().first() {
                Some(b) => *b,
                None => 0,
            };
            let bytes = room.len();
            room.lose();
            Got {
                answer,
                bytes,
                first,
            }
        }
    }
}

// Redeems a token that is done.
fn answer(
    rt: &impl Abort,
    port: &Port<StoreLaw>,
    pass: &mut PortPass<StoreLaw>,
    token: Token,
) -> Got
    requires port { pass.old.port ≡ port.now }
    ensures same { (pass.new.port ≡ pass.old.port) × (pass.new.number ≡ pass.old.number) }
    ensures one { (pass.new.submitted ≡ pass.old.submitted) × (length pass.new.redeemed ≡ length pass.old.redeemed + 1) }
{
    match port.try_wait(pass, token) {
        Redeem::Ready(_, out) => told(out),
        Redeem::NotYet | Redeem::Spent | Redeem::Unknown => panic!(rt; "it is not done"),
    }
}

// The close of the port after the last turn. How many bytes the disk holds.
fn end(
    rt: &impl Abort,
    alloc: Global,
    port: Port<StoreLaw>,
    mut device: Device<StoreEngine<MemDisk>>,
    pass: PortPass<StoreLaw>,
) -> usize
    requires port { (device.seat.port ≡ port) × (device.seat.passes ≡ 1) × (pass.port ≡ port) × (pass.number ≡ 0) }
    requires even { length pass.submitted ≡ length pass.redeemed }
{
    if device.turn(&port) != Turn::Ended {
        panic!(rt; "it did not end");
    }
    let (engine, seat) = device.parts();
    let mut passes = Vec::new(alloc);
    let Ok(()) = passes.push(pass) else {
        panic!(rt; "no memory");
    };
    let _tickets = port.close(seat, passes).tickets();
    engine.parts().disk().bytes().len()
}

fn close_heap(rt: &impl Abort, alloc: Global, heap: Heap, app: HeapPass)
    requires { (app.heap ≡ heap) × (heap.shape.passes ≡ 1) }
{
    let mut passes = Vec::new(alloc);
    let Ok(()) = passes.push(app) else {
        panic!(rt; "no memory");
    };
    let _end = heap.close(passes);
}

#[test]
fn a_put_and_a_get_pass_through_a_port(rt: HostRuntime) -> Result<(), Fail> {
    let (heap, mut app) = new_heap(&rt, rt.alloc());
    let engine = engine_on(&rt, rt.alloc());
    let (port, mut pass, seat) = port_on(&rt, rt.alloc(), &engine);
    let mut device = device_on(&rt, rt.alloc(), engine, seat);
    let first = submit(&rt, &heap, &mut app, &port, &mut pass, Ask::Put(0x31));
    let second = submit(&rt, &heap, &mut app, &port, &mut pass, Ask::Get);
    let third = submit(&rt, &heap, &mut app, &port, &mut pass, Ask::Put(0x32));
    let fourth = submit(&rt, &heap, &mut app, &port, &mut pass, Ask::Stop);
    let _turn = device.turn(&port);
    let stored = answer(&rt, &port, &mut pass, first);
    let found = answer(&rt, &port, &mut pass, second);
    let full = answer(&rt, &port, &mut pass, third);
    let halted = answer(&rt, &port, &mut pass, fourth);
    let held = end(&rt, rt.alloc(), port, device, pass);
    close_heap(&rt, rt.alloc(), heap, app);
    assert_eq!(rt;
        stored,
        Got {
            answer: StoreAnswer::Stored(1),
            bytes: 1,
            first: 0
        }
    );
    assert_eq!(rt;
        found,
        Got {
            answer: StoreAnswer::Found(1),
            bytes: 1,
            first: 0x31
        }
    );
    assert_eq!(rt;
        full,
        Got {
            answer: StoreAnswer::Full(1),
            bytes: 1,
            first: 0
        }
    );
    assert_eq!(rt;
        halted,
        Got {
            answer: StoreAnswer::Halted,
            bytes: 0,
            first: 0
        }
    );
    assert_eq!(rt; held, 21);
    Ok(())
}
