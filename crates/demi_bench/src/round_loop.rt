//! Rounds of a scheduler whose coroutines wait at ports of which none is done, beside the scans that such rounds make.
ghost use Rattle.std.specs.Prelude.{◌≡◌, ◌+◌, ◌++◌, ◌≤◌, ◌<◌, [], ◌∷◌, IfSome};
ghost use Rattle.demi_port_core.specs.History.{Each};
ghost use Rattle.demi_sched.specs.Going.{names_of};
ghost use Rattle.demi_sched.specs.Scanning.{IsWithin};
ghost use Rattle.demi_sched.specs.declared.seen.Seen.{Seen};
ghost use Rattle.demi_bench.specs.declared.round_loop.TheConstants.{MOST};

use crate::way::Way;
use arrayvec::ArrayVec;
use demi_device::Mark;
use demi_port_core::{Bits, Mask, QToken, Token};
use demi_sched::{Coroutine, Next, Scanner, Scheduler, Seen};
use std::alloc::Global;
use std::collections::LinkedList;
use std::io;
use std::time::{Clock, Duration, Instant};

/// As many ports as a scheduler can have.
const PORTS: u32 = 35;

/// The most coroutines, each of which waits at a port of its own: the receiving ones of so many links.
pub const MOST: u32 = 16;

// The port of a coroutine with this name.
fn port_of(name: u32) -> u16
    requires { name < 16 }
    ensures { result < 35 }
{
    (3 + 2 * name) as u16
}

// Ports, as the context of coroutines.
struct Ways {
    ways: Vec<Way>,
    begun: u64,
    scans: u64,
    seen: Mark<LinkedList<Seen>>,
}

fn nothing_seen() -> Mark<LinkedList<Seen>>
    ensures { result.value ≡ [] }
{
    Mark::from(&(), &())
}

fn seen_more(before: &Mark<LinkedList<Seen>>, one: &Seen) -> Mark<LinkedList<Seen>>
    ensures { result.value ≡ before.now.value ++ one.now ∷ [] }
{
    Mark::from(before, one)
}

// What is found at a port. At one that is not there nothing is.
fn scan_way(ways: &mut Vec<Way>, port: u16, mask: &Mask) -> Bits
    ensures { IsWithin result.words mask.now.words }
{
    match ways.get_mut(port as usize) {
        Some(way) => way.scan(mask),
        None => Bits { words: [0; 16] },
    }
}

impl Scanner for Ways {
    ghost use Rattle.std.specs.Prelude.{refl};

    ghost seen = { λ s. s.seen.value };

    ghost begun = { λ s. s.begun };

    ghost ports = { λ _. 35 };

    ghost goes = { λ _ _ _. Unit {0} };

    fn begin(&mut self) {
        self.begun = self.begun.saturating_add(1);
        self.seen = nothing_seen();
    }

    fn scan(&mut self, port: u16, mask: &Mask) -> Bits {
        let bits = scan_way(&mut self.ways, port, mask);
        self.scans = self.scans.wrapping_add(1);
        let one = Seen {
            port,
            mask: *mask,
            bits,
        };
        self.seen = seen_more(&self.seen, &one);
        bits
    }

    ghost goes_self = { λ _ _. tt };

    ghost goes_on = { λ _ _ _ _ _ _. tt };

    ghost goes_ports = { λ _ _ _ _. refl };
}

// Waits for the first token of its port. It is about as large as one that serves a link.
#[derive(Drop)]
struct Sleeper {
    name: u32,
    port: u16,
    polls: u64,
    room: [u64; 64],
    ghost small: { port < 35 },
}

impl Sleeper {
    fn new(name: u32) -> Sleeper
        requires { name < 16 }
        ensures { result.name ≡ name }
    {
        Sleeper {
            name,
            port: port_of(name),
            polls: 0,
            room: [0; 64],
        }
    }
}

impl Coroutine<Ways> for Sleeper {
    ghost use Rattle.std.specs.Prelude.{[], ◌∷◌};
    ghost use Rattle.demi_sched.specs.declared.next.Next.TheVariants.{Wait};

    ghost name = { λ k. k.name };

    ghost polls = { λ k. k.polls };

    ghost last = { λ k. Wait (record { items = record { port = k.port; token = record { 0 = 0 } } ∷ [] }) };

    ghost fits = { λ k c. Unit {0} };

    fn poll(&mut self, _ways: &mut Ways) -> Next {
        self.polls = self.polls.saturating_add(1);
        let mut tokens = ArrayVec::new();
        tokens.push(QToken {
            port: self.port,
            token: Token(0),
        });
        Next::Wait(tokens)
    }

    ghost fits_on = { λ _ _ _ _ _ _ _. tt };
}

fn close_all(mut ways: Vec<Way>) {
    'closing: while let Some(way) = ways.pop() {
        way.close();
    }
    ways.destroy_empty();
}

// A port for each number below `PORTS`, or none for want of memory.
fn open_all(alloc: Global) -> Option<Vec<Way>> {
    let Ok(mut ways) = Vec::with_capacity(alloc, PORTS as usize) else {
        return None;
    };
    for _ in 0..PORTS {
        match Way::open(alloc) {
            Some(way) => ways.push_reserved(way),
            None => {
                close_all(ways);
                return None;
            }
        }
    }
    Some(ways)
}

// Adds the coroutine with this name, behind those with lower ones.
fn add_one(scheduler: &mut Scheduler<Ways, Sleeper>, name: u32)
    requires small { (name < 16) × (scheduler.old.added ≤ name) }
    requires names { Each (λ n. n < name) (names_of (λ k. k.name) scheduler.old.held) }
    ensures ports { scheduler.new.ports ≡ scheduler.old.ports }
    ensures added { scheduler.new.added ≤ name + 1 }
    ensures names { Each (λ n. n < name + 1) (names_of (λ k. k.name) scheduler.new.held) }
{
    let _number = scheduler.add(Sleeper::new(name));
}

// A scheduler that holds so many. `None` is want of memory.
fn sleepers(alloc: Global, coroutines: u32) -> Option<Scheduler<Ways, Sleeper>>
    requires { coroutines ≤ 16 }
    ensures { IfSome result (λ s. s.ports ≡ 35) }
{
    let Ok(mut scheduler) = Scheduler::make(alloc, MOST, PORTS) else {
        return None;
    };
    for name in 0..coroutines {
        add_one(&mut scheduler, name);
    }
    Some(scheduler)
}

// A round. How many it polled.
fn round(scheduler: &mut Scheduler<Ways, Sleeper>, ways: &mut Ways) -> u64
    requires { scheduler.old.ports ≡ 35 }
    ensures { scheduler.new.ports ≡ 35 }
{
    scheduler.round(ways).polled.len() as u64
}

// How many were polled in so many rounds.
fn rounds_of(scheduler: &mut Scheduler<Ways, Sleeper>, ways: &mut Ways, rounds: u32) -> u64
    requires { scheduler.old.ports ≡ 35 }
    ensures { scheduler.new.ports ≡ 35 }
{
    let mut polled: u64 = 0;
    for _ in 0..rounds {
        polled = polled.wrapping_add(round(scheduler, ways));
    }
    polled
}

// The scans of one round. In how many something was found.
fn scan_each(ways: &mut Ways, coroutines: u32, mask: &Mask) -> u64
    requires { coroutines ≤ 16 }
{
    let mut found: u64 = 0;
    ways.begin();
    for name in 0..coroutines {
        let bits = ways.scan(port_of(name), mask);
        found = found.wrapping_add(u64::from(bits.words[0] != 0));
    }
    found
}

// The scans of so many rounds. In how many something was found.
fn scans_of(ways: &mut Ways, coroutines: u32, rounds: u32) -> u64
    requires { coroutines ≤ 16 }
{
    let mut mask = Mask::none();
    mask.add(0);
    let mut found: u64 = 0;
    for _ in 0..rounds {
        found = found.wrapping_add(scan_each(ways, coroutines, &mask));
    }
    found
}

/// What a measurement came to.
#[derive(Clone, Copy)]
pub struct Measured {
    /// How many coroutines the rounds polled: none of them was woken.
    pub polled: u64,
    /// How many scans the rounds made.
    pub scans: u64,
    /// How long the rounds took.
    pub rounds_took: Duration,
    /// In how many of the scans alone something was found.
    pub found: u64,
    /// How long the scans alone took.
    pub scans_took: Duration,
}

// The rounds, and then as many scans.
fn measure<R: Clock>(
    rt: &R,
    scheduler: &mut Scheduler<Ways, Sleeper>,
    ways: &mut Ways,
    coroutines: u32,
    rounds: u32,
) -> io::Result<Measured>
    requires { (scheduler.old.ports ≡ 35) × (coroutines ≤ 16) }
{
    let _all = round(scheduler, ways);
    ways.scans = 0;
    let started = Instant::now(rt)?;
    let polled = rounds_of(scheduler, ways, rounds);
    let rounds_took = started.elapsed(rt)?;
    let scans = ways.scans;
    let started = Instant::now(rt)?;
    let found = scans_of(ways, coroutines, rounds);
    let scans_took = started.elapsed(rt)?;
    Ok(Measured {
        polled,
        scans,
        rounds_took,
        found,
        scans_took,
    })
}

/// So many rounds of so many coroutines, and the scans that they make. `None` is want of memory.
pub fn run<R: Clock>(
    rt: &R,
    alloc: Global,
    coroutines: u32,
    rounds: u32,
) -> io::Result<Option<Measured>>
    requires { coroutines ≤ MOST }
{
    let Some(mut scheduler) = sleepers(alloc, coroutines) else {
        return Ok(None);
    };
    let Some(opened) = open_all(alloc) else {
        return Ok(None);
    };
    let mut ways = Ways {
        ways: opened,
        begun: 0,
        scans: 0,
        seen: nothing_seen(),
    };
    let measured = measure(rt, &mut scheduler, &mut ways, coroutines, rounds);
    let Ways {
        ways,
        begun: _,
        scans: _,
        seen: _,
    } = ways;
    close_all(ways);
    match measured {
        Ok(measured) => Ok(Some(measured)),
        Err(error) => Err(error),
    }
}
