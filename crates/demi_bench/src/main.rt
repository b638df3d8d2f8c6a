//! Claims and frees of the guarded heap, beside the same loop over a free list behind a mutex; operations through one port,
//! from submit to redeem, beside the same through channels; a pop and a push of one memory queue, while items wait in others;
//! how long a caller waits that asks one at a time; links that are each served through three ports; links that share workers
//! and a store; and rounds of a scheduler in which none is woken, beside the scans that they make.
//!
//! With no word it runs a small fixed case of each and prints counts alone. With a number of rounds it prints the rates of the
//! first three, as in `demi_bench 2000000`. `demi_bench wait CALLERS OPERATIONS PAUSE` says how long an operation took after a
//! pause of so many milliseconds, and `demi_bench chain LINKS REQUESTS SILENCE` how many requests the links served, after so
//! many milliseconds in which all their threads slept, beside the same where threads only yield. `demi_bench session LINKS
//! WORKERS REQUESTS` says how many requests a second the links served that so many workers share, beside the same where threads
//! only yield. `demi_bench round COROUTINES ROUNDS` says how long a round took, with at most 16 coroutines, and how long its
//! scans alone. A rate is one of this run and this machine: compare those of one line.
#![tactic(auto)]

mod asked;
mod chain_loop;
mod channel_loop;
mod channels;
mod doubler;
mod heap_loop;
mod idling;
mod line;
mod list_loop;
mod memq_loop;
mod ping_loop;
mod port_loop;
mod round_loop;
mod session_loop;
mod session_work;
mod team;
mod way;

ghost use Rattle.std.specs.Prelude.{◌*◌, ◌≤◌};
ghost use Rattle.demi_bench.specs.declared.doubler.TheConstants.{TOKENS};
ghost use Rattle.demi_bench.specs.declared.port_loop.TheConstants.{IN_FLIGHT};
ghost use Rattle.demi_bench.specs.declared.round_loop.TheConstants.{MOST};

use crate::asked::{Asked, Case, Shared, read_words};
use crate::chain_loop::Load;
use crate::doubler::TOKENS;
use crate::idling::Idling;
use crate::session_loop::Plan;
use std::alloc::Global;
use std::fmt::{Display, Formatter, Write};
use std::sync::Wait;
use std::sync::atomic::{AtomicU64, Ordering};
use std::thread::Threads;
use std::time::{Clock, Duration};
use std::{fmt, io};

/// Rounds of each thread in the fixed case.
const FIXED_ROUNDS: u32 = 500;

/// Slots that another pass holds, in the case that has some.
const HELD: u32 = 1000;

/// Rounds a millisecond, of all threads.
fn rate(rounds: u32, threads: u32, took: Duration) -> u64 {
    let all = rounds as u64 * threads as u64;
    let millis = u64::try_from(took.as_millis()).unwrap_or(u64::MAX);
    all / millis.max(1)
}

/// Rounds a second, of all threads.
fn rate_a_second(rounds: u32, threads: u32, took: Duration) -> u64 {
    let all = rounds as u64 * threads as u64;
    let micros = u64::try_from(took.as_micros()).unwrap_or(u64::MAX);
    all.saturating_mul(1_000_000) / micros.max(1)
}

/// One rate over another, in hundredths.
#[derive(Clone, Copy)]
struct Ratio(u64);

impl Ratio {
    fn of(rate: u64, other: u64) -> Ratio {
        Ratio(rate.saturating_mul(100) / other.max(1))
    }
}

impl Display for Ratio {
    fn fmt<W: Write>(&self, f: &mut Formatter<W>) -> fmt::Result {
        write!(f, "{}.{:02}", self.0 / 100, self.0 % 100)
    }
}

/// Whether there was memory for it.
fn measure_heap<R: Threads + Clock + Wait + Print + Sync>(
    rt: &R,
    alloc: Global,
    threads: u32,
    rounds: u32,
    with_rates: bool,
) -> io::Result<bool> {
    let Some((heap_free, heap_took)) = heap_loop::run(rt, alloc, threads, rounds, 0)? else {
        return Ok(false);
    };
    let Some((list_free, list_took)) = list_loop::run(rt, alloc, threads, rounds)? else {
        return Ok(false);
    };
    println!(rt;
        "threads {threads}, rounds {rounds}: free at the end {heap_free} and {list_free}"
    )?;
    if with_rates {
        let heap_rate = rate(rounds, threads, heap_took);
        let list_rate = rate(rounds, threads, list_took);
        let ratio = Ratio::of(heap_rate, list_rate);
        println!(rt; "  rounds a millisecond: heap {heap_rate}, list {list_rate} (ratio {ratio})")?;
    }
    Ok(true)
}

/// Whether there was memory for it.
fn measure_held<R: Threads + Clock + Print + Sync>(
    rt: &R,
    alloc: Global,
    rounds: u32,
    with_rates: bool,
) -> io::Result<bool> {
    let Some((none_free, none_took)) = heap_loop::run(rt, alloc, 1, rounds, 0)? else {
        return Ok(false);
    };
    let Some((held_free, held_took)) = heap_loop::run(rt, alloc, 1, rounds, HELD)? else {
        return Ok(false);
    };
    println!(rt;
        "held 0 and {HELD}, rounds {rounds}: free at the end {none_free} and {held_free}"
    )?;
    if with_rates {
        let none_rate = rate(rounds, 1, none_took);
        let held_rate = rate(rounds, 1, held_took);
        let ratio = Ratio::of(held_rate, none_rate);
        println!(rt;
            "  rounds a millisecond: with none held {none_rate}, with {HELD} {held_rate} (ratio {ratio})"
        )?;
    }
    Ok(true)
}

/// Whether there was memory for it. An outcome that is not the double of what was asked is an error.
fn measure_port<R: Threads + Clock + Wait + Print + Sync>(
    rt: &R,
    alloc: Global,
    callers: u32,
    rounds: u32,
    with_rates: bool,
) -> io::Result<bool>
    requires { (1 ≤ callers) × (callers * IN_FLIGHT ≤ TOKENS) }
{
    let Some((port, port_took)) = port_loop::run(rt, alloc, callers, rounds)? else {
        return Ok(false);
    };
    let Some((channel, channel_took)) = channel_loop::run_locked(rt, alloc, callers, rounds)? else {
        return Ok(false);
    };
    let Some((ring, ring_took)) = channel_loop::run_rings(rt, alloc, callers, rounds)? else {
        return Ok(false);
    };
    let all = rounds as u64 * callers as u64;
    if port != all || channel != all || ring != all {
        return Err(io::Error::from(io::ErrorKind::InvalidData));
    }
    println!(rt; "callers {callers}, operations {rounds}: doubled {port}, {channel} and {ring}")?;
    if with_rates {
        let port_rate = rate(rounds, callers, port_took);
        let channel_rate = rate(rounds, callers, channel_took);
        let ring_rate = rate(rounds, callers, ring_took);
        let channel_ratio = Ratio::of(port_rate, channel_rate);
        let ring_ratio = Ratio::of(port_rate, ring_rate);
        println!(rt;
            "  operations a millisecond: port {port_rate}, channels {channel_rate} (ratio {channel_ratio}), channels with no lock {ring_rate} (ratio {ring_ratio})"
        )?;
    }
    Ok(true)
}

/// Whether there was memory for it. A round of which the pop or the push was refused is an error.
fn measure_memq<R: Clock + Wait + Print>(
    rt: &R,
    alloc: Global,
    waiting: u32,
    rounds: u32,
    with_rates: bool,
) -> io::Result<bool>
    requires { waiting ≤ 1000 }
{
    let Some(measured) = memq_loop::run(rt, alloc, waiting, rounds)? else {
        return Ok(false);
    };
    if measured.waited != waiting || measured.rounds != rounds {
        return Err(io::Error::from(io::ErrorKind::InvalidData));
    }
    println!(rt;
        "waiting in other queues {waiting}: pops and pushes {}",
        measured.rounds
    )?;
    if with_rates {
        let queue_rate = rate(rounds, 1, measured.took);
        println!(rt; "  pops and pushes a millisecond: {queue_rate}")?;
    }
    Ok(true)
}

/// The time in microseconds within which so many of a hundred operations were answered.
fn hundredth(times: &[AtomicU64], part: u64, all: u64) -> usize {
    let mut seen: u64 = 0;
    for (micros, count) in times.iter().enumerate() {
        seen = seen.saturating_add(count.load(Ordering::SeqCst));
        if seen.saturating_mul(100) >= all.saturating_mul(part) {
            return micros;
        }
    }
    times.len()
}

/// Whether there was memory for it, and there are as many tokens as callers.
fn measure_waits<R: Threads + Clock + Wait + Print + Sync>(
    rt: &R,
    alloc: Global,
    asked: Case,
    with_times: bool,
) -> io::Result<bool> {
    let callers = asked.count.clamp(1, TOKENS);
    let pause = Duration::from_millis(asked.millis as u64);
    let mut times = Vec::with_capacity(alloc, ping_loop::LONGEST)?;
    for _ in 0..ping_loop::LONGEST {
        times.push(AtomicU64::new(0))?;
    }
    let Some(right) = ping_loop::run(rt, alloc, callers, asked.rounds, pause, &times)? else {
        return Ok(false);
    };
    println!(rt;
        "callers {callers}, one at a time {}: doubled {right}",
        asked.rounds
    )?;
    if with_times {
        let half = hundredth(&times, 50, right);
        let most = hundredth(&times, 90, right);
        let late = hundredth(&times, 99, right);
        println!(rt;
            "  microseconds after {} milliseconds: p50 {half}, p90 {most}, p99 {late}",
            asked.millis
        )?;
    }
    Ok(true)
}

/// Whether there was memory for it.
fn measure_chains<R: Threads + Clock + Wait + Print + Sync>(
    rt: &R,
    alloc: Global,
    asked: Case,
    with_rates: bool,
) -> io::Result<bool> {
    let load = Load {
        requests: asked.rounds,
        silence: Duration::from_millis(asked.millis as u64),
        idling: Idling::Sleeps,
    };
    let Some(slept) = chain_loop::run(rt, alloc, asked.count, load)? else {
        return Ok(false);
    };
    let yields = Load {
        silence: Duration::from_millis(0),
        idling: Idling::Yields,
        ..load
    };
    let Some(yielded) = chain_loop::run(rt, alloc, asked.count, yields)? else {
        return Ok(false);
    };
    println!(rt;
        "links {}, requests {}: served twice",
        asked.count, asked.rounds
    )?;
    if with_rates {
        let sleeping = rate(asked.rounds, asked.count, slept);
        let yielding = rate(asked.rounds, asked.count, yielded);
        let ratio = Ratio::of(sleeping, yielding);
        println!(rt;
            "  requests a millisecond: where threads sleep {sleeping}, where they yield alone {yielding} (ratio {ratio})"
        )?;
    }
    Ok(true)
}

/// Whether there was memory for it.
fn measure_sessions<R: Threads + Clock + Wait + Print + Sync>(
    rt: &R,
    alloc: Global,
    asked: Shared,
    with_rates: bool,
) -> io::Result<bool> {
    let Shared {
        links,
        requests,
        ..
    } = asked;
    let workers = asked.workers.clamp(1, session_loop::MOST_WORKERS);
    let sleeps = Plan {
        links,
        workers,
        requests,
        idling: Idling::Sleeps,
    };
    let Some(slept) = session_loop::run(rt, alloc, sleeps)? else {
        return Ok(false);
    };
    let yields = Plan {
        idling: Idling::Yields,
        ..sleeps
    };
    let Some(yielded) = session_loop::run(rt, alloc, yields)? else {
        return Ok(false);
    };
    println!(rt; "links {links}, workers {workers}, requests {requests}: served twice")?;
    if with_rates {
        let sleeping = rate_a_second(requests, links, slept);
        let yielding = rate_a_second(requests, links, yielded);
        let ratio = Ratio::of(sleeping, yielding);
        println!(rt;
            "  requests a second: where threads sleep {sleeping}, where they yield alone {yielding} (ratio {ratio})"
        )?;
    }
    Ok(true)
}

/// A time in tenths of a nanosecond, of each of so many.
fn tenths(took: Duration, rounds: u32) -> u64 {
    let nanos = u64::try_from(took.as_nanos()).unwrap_or(u64::MAX);
    nanos.saturating_mul(10) / (rounds as u64).max(1)
}

/// Whether there was memory for it. A round that polled one, or a scan that found something, is an error.
fn measure_rounds<R: Clock + Print>(
    rt: &R,
    alloc: Global,
    asked: u32,
    rounds: u32,
    with_times: bool,
) -> io::Result<bool> {
    let coroutines = asked.min(round_loop::MOST);
    let Some(measured) = round_loop::run(rt, alloc, coroutines, rounds)? else {
        return Ok(false);
    };
    if measured.polled != 0 || measured.found != 0 {
        return Err(io::Error::from(io::ErrorKind::InvalidData));
    }
    println!(rt;
        "coroutines {coroutines}, rounds {rounds}: scans {}",
        measured.scans
    )?;
    if with_times {
        let round = tenths(measured.rounds_took, rounds);
        let scans = tenths(measured.scans_took, rounds);
        let ratio = Ratio::of(round, scans);
        println!(rt;
            "  tenths of a nanosecond: a round {round}, its scans alone {scans} (ratio {ratio})"
        )?;
    }
    Ok(true)
}

/// Heaps and ports with 1, 2 and 4 threads, and a queue while few and many items wait in others. Whether there was memory for it.
fn measure_loops<R: Threads + Clock + Wait + Print + Sync>(
    rt: &R,
    alloc: Global,
    rounds: u32,
    with_rates: bool,
) -> io::Result<bool> {
    for threads in [1, 2, 4] {
        if !measure_heap(rt, alloc, threads, rounds, with_rates)? {
            return Ok(false);
        }
    }
    if !measure_held(rt, alloc, rounds, with_rates)? {
        return Ok(false);
    }
    for callers in [1, 2, 4] {
        if !measure_port(rt, alloc, callers, rounds, with_rates)? {
            return Ok(false);
        }
    }
    for waiting in [0, 100, 1000] {
        if !measure_memq(rt, alloc, waiting, rounds, with_rates)? {
            return Ok(false);
        }
    }
    Ok(true)
}

/// The small fixed case of each. Whether there was memory for it.
fn measure_fixed<R: Threads + Clock + Wait + Print + Sync>(
    rt: &R,
    alloc: Global,
) -> io::Result<bool> {
    let waits = Case {
        count: 3,
        rounds: 40,
        millis: 1,
    };
    let chains = Case {
        count: 2,
        rounds: 200,
        millis: 1,
    };
    let shared = Shared {
        links: 3,
        workers: 2,
        requests: 100,
    };
    Ok(
        measure_loops(rt, alloc, FIXED_ROUNDS, false)?
            && measure_waits(rt, alloc, waits, false)?
            && measure_chains(rt, alloc, chains, false)?
            && measure_sessions(rt, alloc, shared, false)?
            && measure_rounds(rt, alloc, round_loop::MOST, FIXED_ROUNDS, false)?,
    )
}

fn main(rt: HostRuntime) -> io::Result<()> {
    let alloc = rt.alloc();
    let found_memory = match read_words(&rt)? {
        None => return Err(io::Error::from(io::ErrorKind::InvalidInput)),
        Some(Asked::Fixed) => measure_fixed(&rt, alloc)?,
        Some(Asked::Rates(rounds)) => measure_loops(&rt, alloc, rounds, true)?,
        Some(Asked::Waits(case)) => measure_waits(&rt, alloc, case, true)?,
        Some(Asked::Chains(case)) => measure_chains(&rt, alloc, case, true)?,
        Some(Asked::Sessions(shared)) => measure_sessions(&rt, alloc, shared, true)?,
        Some(Asked::Rounds(coroutines, rounds)) => {
            measure_rounds(&rt, alloc, coroutines, rounds, true)?
        }
    };
    if found_memory {
        Ok(())
    } else {
        Err(io::Error::from(io::ErrorKind::OutOfMemory))
    }
}
