//! Callers that each keep some operations in flight on one port, beside the device's thread.
ghost use Rattle.std.specs.Prelude.{◌≡◌, ℕ, ◌+◌, ◌*◌, ◌<◌, ◌≤◌, [], ◌∷◌, ◌++◌, length};
ghost use Rattle.std.specs.Thread.{IsSync};
ghost use Rattle.demi_port_core.specs.History.{Each};
ghost use Rattle.demi_port_core.specs.Twice.{IsTwice};
ghost use Rattle.demi_port.specs.Seen.{IsNewSeat, NewFrom};
ghost use Rattle.demi_bench.specs.Asking.{AllHaveAsked, HasAsked, IsEven};
ghost use Rattle.demi_bench.specs.Serving.{IsDone};

use crate::doubler;
use crate::doubler::{Doubler, TOKENS};
use crate::idling::Idling;
use demi_device::Device;
use demi_port::{DeviceSeat, Port, PortPass, Redeem};
use demi_port_core::{Doubles, Token};
use std::alloc::Global;
use std::io;
use std::marker::Brand;
use std::sync::Wait;
use std::sync::atomic::{AtomicU64, Ordering};
use std::thread::{Threads, for_each_mut, join_mut, yield_now};
use std::time::{Clock, Duration, Instant};

/// How many operations a caller keeps in flight.
pub const IN_FLIGHT: u32 = 8;

// Submits until a token is had. All callers together keep no more in flight than there are tokens.
pub(crate) fn submit<R: Wait>(
    rt: &R,
    port: &Port<Doubles>,
    pass: &mut PortPass<Doubles>,
    op: u32,
) -> Token
    requires { pass.old.port ≡ port.now }
    ensures same { (pass.new.port ≡ pass.old.port) × (pass.new.number ≡ pass.old.number) }
    ensures submitted { (p : ℕ) × (pass.new.submitted ≡ pass.old.submitted ++ (p, (result.0, op)) ∷ []) }
    ensures one { (length pass.new.submitted ≡ length pass.old.submitted + 1) × (pass.new.redeemed ≡ pass.old.redeemed) }
{
    for _ in rt.forever() {
        if let Ok((token, _)) = port.submit(pass, op) {
            return token;
        }
        yield_now();
    }
    unreachable!()
}

// Tries until the outcome is there. A pass's own token that it did not redeem is neither spent nor unknown.
pub(crate) fn redeem<R: Wait>(
    rt: &R,
    port: &Port<Doubles>,
    pass: &mut PortPass<Doubles>,
    idling: Idling,
    token: Token,
) -> u64
    requires { pass.old.port ≡ port.now }
    ensures same { (pass.new.port ≡ pass.old.port) × (pass.new.number ≡ pass.old.number) }
    ensures redeemed { (p : ℕ) × (pass.new.redeemed ≡ pass.old.redeemed ++ (p, token.0) ∷ []) × IsTwice pass.new.heard p result }
    ensures one { (pass.new.submitted ≡ pass.old.submitted) × (length pass.new.redeemed ≡ length pass.old.redeemed + 1) }
{
    for _ in rt.forever() {
        match port.try_wait(pass, token) {
            Redeem::Ready(_, out) => return out,
            Redeem::NotYet | Redeem::Spent | Redeem::Unknown => idling.park(rt, port, pass),
        }
    }
    unreachable!()
}

// How many outcomes were the doubles of what was asked.
fn call<R: Wait>(rt: &R, port: &Port<Doubles>, pass: &mut PortPass<Doubles>, operations: u32) -> u32
    requires { IsEven port.now pass.old }
    ensures even { IsEven port.now pass.new }
    ensures asked { HasAsked operations pass.old pass.new }
    ensures right { result ≤ operations }
{
    let mut tokens = [Token(0); IN_FLIGHT as usize];
    let mut right = 0;
    for op in 0..operations {
        let at = (op % IN_FLIGHT) as usize;
        if op >= IN_FLIGHT {
            let out = redeem(rt, port, pass, Idling::Sleeps, tokens[at]);
            right += u32::from(out == (op - IN_FLIGHT) as u64 * 2);
        }
        tokens[at] = submit(rt, port, pass, op);
    }
    for op in operations.saturating_sub(IN_FLIGHT)..operations {
        let out = redeem(
            rt,
            port,
            pass,
            Idling::Sleeps,
            tokens[(op % IN_FLIGHT) as usize],
        );
        right += u32::from(out == op as u64 * 2);
    }
    right
}

// Each caller in a thread of its own, with a pass of its own.
fn call_all<R: Threads + Wait + Sync>(
    rt: &R,
    port: &Port<Doubles>,
    operations: u32,
    right: &AtomicU64,
    passes: &mut [PortPass<Doubles>],
)
    requires { Each (IsEven port.now) passes.old }
    ensures even { Each (IsEven port.now) passes.new }
    ensures asked { AllHaveAsked operations passes.old passes.new }
{
    let callers = passes.len().max(1);
    for_each_mut(
        rt,
        passes,
        callers,
        &|_, pass: &mut PortPass<Doubles>|
            requires { IsEven port.now pass.now }
            ensures { IsEven port.entry.now pass.exit.now × HasAsked operations pass.entry.now pass.exit.now }
        {
            let one = call(rt, port, pass, operations);
            right.fetch_add(one as u64, Ordering::SeqCst);
        },
    );
}

// The callers, and the device that serves them. The answer is how many outcomes were right.
fn run_both<R: Threads + Wait + Sync>(
    rt: &R,
    port: &Port<Doubles>,
    operations: u32,
    device: &mut Device<Doubler>,
    passes: &mut [PortPass<Doubles>],
) -> u64
    requires port { device.old.seat.port ≡ port.now }
    requires passes { Each (IsEven port.now) passes.old × (length passes.old ≤ 64) }
    ensures even { Each (IsEven port.now) passes.new }
    ensures asked { AllHaveAsked operations passes.old passes.new }
    ensures device { IsDone device.old device.new }
{
    let all = operations as u64 * passes.len() as u64;
    let right = AtomicU64::new(0);
    let counted = &right;
    let mut callers = ||
        requires { IsSync R.row × Each (IsEven port.now) passes.now }
        ensures { Each (IsEven port.entry.now) passes.exit.now × AllHaveAsked operations passes.entry.now passes.exit.now }
    { call_all(rt, port, operations, counted, passes) };
    let mut serves = ||
        requires { device.now.seat.port ≡ port.now }
        ensures { IsDone device.entry.now device.exit.now }
    { doubler::run(rt, port, device, Idling::Sleeps, all) };
    join_mut(rt, &mut callers, &mut serves);
    right.load(Ordering::SeqCst)
}

// Closes a port of which nothing was asked.
pub(crate) fn close_unused(
    port: Port<Doubles>,
    seat: DeviceSeat<Doubles>,
    passes: Vec<PortPass<Doubles>>,
)
    requires seat { IsNewSeat port (length passes.items) seat }
    requires passes { NewFrom port 0 passes.items }
{
    let _ended = port.close(seat, passes);
}

/// How many outcomes were right, and how long it took. `None` is want of memory.
/// With more callers, each could wait for a token while it holds some itself.
pub fn run<R: Threads + Clock + Wait + Sync>(
    rt: &R,
    alloc: Global,
    callers: u32,
    operations: u32,
) -> io::Result<Option<(u64, Duration)>>
    requires { (1 ≤ callers) × (callers * IN_FLIGHT ≤ TOKENS) }
{
    let started = Instant::now(rt)?;
    let Ok((port, mut passes, seat)) = Port::<Doubles>::make::<Brand>(alloc, TOKENS, callers) else {
        return Ok(None);
    };
    let mut device = match Device::make(alloc, Doubler::new(), seat, TOKENS) {
        Ok(device) => device,
        Err((_engine, seat)) => {
            close_unused(port, seat, passes);
            return Ok(None);
        }
    };
    let right = run_both(rt, &port, operations, &mut device, &mut passes);
    let (_engine, seat) = device.parts();
    let _ended = port.close(seat, passes);
    Ok(Some((right, started.elapsed(rt)?)))
}
