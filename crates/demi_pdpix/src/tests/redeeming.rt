//! Waits for several tokens, where the device of the memory queues is turned by hand.
ghost use Rattle.std.specs.Prelude.{◌≡◌, Some, [], ◌∷◌};
ghost use Rattle.demi_pdpix.specs.declared.all.Halted.TheVariants.{Spent};
ghost use Rattle.demi_pdpix.specs.Owing.{Owes};
ghost use Rattle.demi_pdpix.specs.Seen.{IsNewPair};

use super::doubler::UntilZero;
use super::talking::{Came, came, opened, popped, stopped};
use crate::{AllEnd, Any, Caller, Demi, Halted, QResult, Qd};
use demi_device::{Device, Turn};
use demi_heap::HeapPass;
use demi_memq::{MemEngine, MemLaw, MemOut};
use demi_port::DeviceSeat;
use demi_port_core::QToken;
use std::alloc::Global;
use std::process::Abort;
use std::sync::Wait;

/// An engine at the device of the memory queues.
pub(super) fn device_on<'h>(
    rt: &impl Abort,
    alloc: Global,
    demi: &'h Demi<UntilZero>,
    pair: (DeviceSeat<MemLaw>, HeapPass),
) -> Device<MemEngine<'h>>
    requires seat { IsNewPair demi.now.heap 1 demi.now.memory pair }
    requires port { (demi.now.memory.key.base ≡ demi.now.heap) × (demi.now.memory.tokens.slots ≡ 4) }
    ensures seat { (result.seat.port ≡ demi.now.memory) × (result.seat.passes ≡ 1) }
    ensures pass { result.engine.pass.heap ≡ demi.now.heap }
{
    let (seat, pass) = pair;
    let Ok(engine) = MemEngine::make(alloc, demi.heap(), pass, 4) else {
        panic!(rt; "no memory");
    };
    match Device::make(alloc, engine, seat, 4) {
        Ok(device) => device,
        Err((engine, _seat)) => {
            let _pass = engine.parts();
            panic!(rt; "no memory")
        }
    }
}

// One turn, of which the test needs to know what stays.
fn turn(demi: &Demi<UntilZero>, device: &mut Device<MemEngine>) -> Turn
    requires { device.old.seat.port ≡ demi.now.memory }
    ensures { (device.new.seat.port ≡ demi.now.memory) × (device.new.seat.passes ≡ device.old.seat.passes) × (device.new.engine.pass.heap ≡ device.old.engine.pass.heap) }
{
    device.turn(demi.memory())
}

/// The seat and the pass, after the last turn.
pub(super) fn ended<'h>(
    rt: &impl Abort,
    demi: &'h Demi<UntilZero>,
    mut device: Device<MemEngine<'h>>,
) -> (DeviceSeat<MemLaw>, HeapPass)
    requires { device.seat.port ≡ demi.now.memory }
    ensures seat { (result.0.port ≡ demi.now.memory) × (result.0.passes ≡ device.entry.seat.passes) }
    ensures pass { result.1.heap ≡ device.entry.engine.pass.heap }
{
    let last = device.turn(demi.memory());
    if last != Turn::Ended {
        panic!(rt; "it did not end");
    }
    let (engine, seat) = device.parts();
    (seat, engine.parts())
}

// Opens a queue, and gives its number.
fn open<R: Wait + Abort>(
    rt: &R,
    demi: &Demi<UntilZero>,
    caller: &mut Caller<UntilZero>,
    device: &mut Device<MemEngine>,
) -> u32
    requires caller { Owes demi.now 0 [] caller.old }
    requires device { device.old.seat.port ≡ demi.now.memory }
    ensures caller { Owes demi.now 0 [] caller.new }
    ensures device { (device.new.seat.port ≡ demi.now.memory) × (device.new.seat.passes ≡ device.old.seat.passes) × (device.new.engine.pass.heap ≡ device.old.engine.pass.heap) }
{
    let token = opened(rt, demi, caller);
    let _one = turn(demi, device);
    match came(rt, demi, caller, token) {
        QResult::Mem(MemOut::Opened(q)) => q,
        _ => panic!(rt; "it is not opened"),
    }
}

// None of the tokens has an outcome.
fn none_has_come(
    rt: &impl Abort,
    demi: &Demi<UntilZero>,
    caller: &mut Caller<UntilZero>,
    tokens: &[QToken],
)
    requires { Owes demi.now 0 tokens.now caller.old }
    ensures { Owes demi.now 0 tokens.now caller.new }
{
    match demi.try_wait_any(caller, &[]) {
        Any::NoTokens => {}
        _ => panic!(rt; "there was no token"),
    }
    match demi.try_wait_any(caller, tokens) {
        Any::NotYet => {}
        _ => panic!(rt; "nothing was pushed"),
    }
}

// Stops the memory queues.
fn stop<R: Wait + Abort>(
    rt: &R,
    demi: &Demi<UntilZero>,
    caller: &mut Caller<UntilZero>,
    device: &mut Device<MemEngine>,
    tokens: &[QToken],
)
    requires caller { Owes demi.now 0 tokens.now caller.old }
    requires device { device.old.seat.port ≡ demi.now.memory }
    ensures caller { Owes demi.now 0 tokens.now caller.new }
    ensures device { (device.new.seat.port ≡ demi.now.memory) × (device.new.seat.passes ≡ device.old.seat.passes) × (device.new.engine.pass.heap ≡ device.old.engine.pass.heap) }
{
    let _ = tokens;
    let token = stopped(rt, demi, caller, 0);
    let _one = turn(demi, device);
    match came(rt, demi, caller, token) {
        QResult::Mem(MemOut::Halted) => {}
        _ => panic!(rt; "it is not the stop's"),
    }
}

// The place of the stop by which a pop has nothing.
fn stopped_at(rt: &impl Abort, came: QResult<UntilZero>) -> u64 {
    match came {
        QResult::Mem(MemOut::Stopped(place)) => place.0,
        _ => panic!(rt; "it is not stopped"),
    }
}

// The index of the token that ended a wait for all since it was spent.
fn spent_index(rt: &impl Abort, halted: Option<Halted>) -> usize
    ensures { halted ≡ Some (Spent result) }
{
    match halted {
        Some(Halted::Spent(index)) => index,
        _ => panic!(rt; "none was spent"),
    }
}

// Waits for a token, another, and the first again.
fn both_and_one_again<R: Wait + Abort>(
    rt: &R,
    alloc: Global,
    demi: &Demi<UntilZero>,
    caller: &mut Caller<UntilZero>,
    one: QToken,
    other: QToken,
) -> Came
    requires { Owes demi.now 0 (one ∷ other ∷ []) caller.old }
    ensures { Owes demi.now 0 [] caller.new }
{
    let tokens = [one, other, one];
    let Ok(AllEnd { results, halted }) = demi.wait_all(rt, alloc, caller, &tokens) else {
        panic!(rt; "no memory");
    };
    if spent_index(rt, halted) != 2 {
        panic!(rt; "another is spent");
    }
    results
}

// Each pop had nothing, for the stop at this place.
fn all_stopped(rt: &impl Abort, mut results: Came, place: u64) {
    while let Some((_, came)) = results.pop() {
        assert_eq!(rt; stopped_at(rt, came), place);
    }
    results.destroy_empty();
}

/// Pops on an empty queue, which a stop ends.
pub(super) fn pops_that_are_stopped<R: Wait + Abort>(
    rt: &R,
    alloc: Global,
    demi: &Demi<UntilZero>,
    caller: &mut Caller<UntilZero>,
    device: &mut Device<MemEngine>,
)
    requires caller { Owes demi.now 0 [] caller.old }
    requires device { device.old.seat.port ≡ demi.now.memory }
    ensures caller { Owes demi.now 0 [] caller.new }
    ensures device { (device.new.seat.port ≡ demi.now.memory) × (device.new.seat.passes ≡ device.old.seat.passes) × (device.new.engine.pass.heap ≡ device.old.engine.pass.heap) }
{
    let queue = open(rt, demi, caller, device);
    let qd = Qd { port: 0, queue };
    let first = popped(rt, demi, caller, qd);
    let second = popped(rt, demi, caller, qd);
    let _two = turn(demi, device);
    let tokens = [second, first];
    none_has_come(rt, demi, caller, &tokens);
    stop(rt, demi, caller, device, &tokens);
    let results = both_and_one_again(rt, alloc, demi, caller, second, first);
    assert_eq!(rt; results.len(), 2);
    all_stopped(rt, results, 3);
}
