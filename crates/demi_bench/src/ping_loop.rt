//! Callers that ask one operation at a time with a pause before each, beside the device's thread, and how long each answer took.
ghost use Rattle.std.specs.Prelude.{◌≡◌, ℕ, ◌+◌, ◌*◌, ◌<◌, ◌≤◌, [], ◌∷◌, ◌++◌, length};
ghost use Rattle.std.specs.Thread.{IsSync};
ghost use Rattle.demi_port_core.specs.History.{Each};
ghost use Rattle.demi_bench.specs.Asking.{AllHaveAsked, HasAsked, IsEven};
ghost use Rattle.demi_bench.specs.Serving.{IsDone};
ghost use Rattle.demi_bench.specs.declared.doubler.TheConstants.{TOKENS};

use crate::doubler;
use crate::doubler::{Doubler, TOKENS};
use crate::idling::Idling;
use crate::port_loop::{close_unused, redeem, submit};
use demi_device::Device;
use demi_port::{Port, PortPass};
use demi_port_core::Doubles;
use std::alloc::Global;
use std::io;
use std::marker::Brand;
use std::sync::Wait;
use std::sync::atomic::{AtomicU64, Ordering};
use std::thread::{Threads, for_each_mut, join_mut, sleep};
use std::time::{Clock, Duration, Instant};

/// Times from here on, in microseconds, are counted as one.
pub const LONGEST: usize = 10_000;

// Counts one operation more that took so many microseconds.
fn note_time(times: &[AtomicU64], micros: usize) {
    if let Some(count) = times.get(micros.min(LONGEST - 1)) {
        count.fetch_add(1, Ordering::SeqCst);
    }
}

// The microseconds since then. A clock that cannot be read counts as the longest time.
fn micros_since<R: Clock>(rt: &R, started: Option<Instant>) -> usize {
    let took = started.and_then(|at| at.elapsed(rt).ok());
    took.map_or(LONGEST, |time| {
        usize::try_from(time.as_micros()).unwrap_or(LONGEST)
    })
}

// One operation at a time, with a pause before each. How many outcomes were the doubles of what was asked.
fn call<R: Wait + Clock>(
    rt: &R,
    port: &Port<Doubles>,
    pass: &mut PortPass<Doubles>,
    operations: u32,
    pause: Duration,
    times: &[AtomicU64],
) -> u32
    requires { IsEven port.now pass.old }
    ensures even { IsEven port.now pass.new }
    ensures asked { HasAsked operations pass.old pass.new }
    ensures right { result ≤ operations }
{
    let mut right = 0;
    for op in 0..operations {
        sleep(rt, pause);
        let started = Instant::now(rt).ok();
        let token = submit(rt, port, pass, op);
        let out = redeem(rt, port, pass, Idling::Sleeps, token);
        note_time(times, micros_since(rt, started));
        right += u32::from(out == op as u64 * 2);
    }
    right
}

// Each caller in a thread of its own, with a pass of its own.
fn call_all<R: Threads + Wait + Clock + Sync>(
    rt: &R,
    port: &Port<Doubles>,
    operations: u32,
    pause: Duration,
    times: &[AtomicU64],
    right: &AtomicU64,
    passes: &mut [PortPass<Doubles>],
)
    requires { Each (IsEven port.now) passes.old }
    ensures even { Each (IsEven port.now) passes.new }
    ensures asked { AllHaveAsked operations passes.old passes.new }
{
    let callers = passes.len().max(1);
    for_each_mut(
        rt,
        passes,
        callers,
        &|_, pass: &mut PortPass<Doubles>|
            requires { IsEven port.now pass.now }
            ensures { IsEven port.entry.now pass.exit.now × HasAsked operations pass.entry.now pass.exit.now }
        {
            let one = call(rt, port, pass, operations, pause, times);
            right.fetch_add(one as u64, Ordering::SeqCst);
        },
    );
}

// The callers, and the device that serves them. The answer is how many outcomes were right.
fn run_both<R: Threads + Wait + Clock + Sync>(
    rt: &R,
    port: &Port<Doubles>,
    operations: u32,
    pause: Duration,
    times: &[AtomicU64],
    device: &mut Device<Doubler>,
    passes: &mut [PortPass<Doubles>],
) -> u64
    requires port { device.old.seat.port ≡ port.now }
    requires passes { Each (IsEven port.now) passes.old × (length passes.old ≤ 64) }
    ensures even { Each (IsEven port.now) passes.new }
    ensures asked { AllHaveAsked operations passes.old passes.new }
    ensures device { IsDone device.old device.new }
{
    let all = operations as u64 * passes.len() as u64;
    let right = AtomicU64::new(0);
    let counted = &right;
    let mut callers = ||
        requires { IsSync R.row × Each (IsEven port.now) passes.now }
        ensures { Each (IsEven port.entry.now) passes.exit.now × AllHaveAsked operations passes.entry.now passes.exit.now }
    { call_all(rt, port, operations, pause, times, counted, passes) };
    let mut serves = ||
        requires { device.now.seat.port ≡ port.now }
        ensures { IsDone device.entry.now device.exit.now }
    { doubler::run(rt, port, device, Idling::Sleeps, all) };
    join_mut(rt, &mut callers, &mut serves);
    right.load(Ordering::SeqCst)
}

/// How many outcomes were right. `times` has a count for each number of microseconds, of the operations that took so long.
/// `None` is want of memory.
pub fn run<R: Threads + Clock + Wait + Sync>(
    rt: &R,
    alloc: Global,
    callers: u32,
    operations: u32,
    pause: Duration,
    times: &[AtomicU64],
) -> io::Result<Option<u64>>
    requires { (1 ≤ callers) × (callers ≤ TOKENS) }
{
    let Ok((port, mut passes, seat)) = Port::<Doubles>::make::<Brand>(alloc, TOKENS, callers) else {
        return Ok(None);
    };
    let mut device = match Device::make(alloc, Doubler::new(), seat, TOKENS) {
        Ok(device) => device,
        Err((_engine, seat)) => {
            close_unused(port, seat, passes);
            return Ok(None);
        }
    };
    let right = run_both(
        rt,
        &port,
        operations,
        pause,
        times,
        &mut device,
        &mut passes,
    );
    let (_engine, seat) = device.parts();
    let _ended = port.close(seat, passes);
    Ok(Some(right))
}
