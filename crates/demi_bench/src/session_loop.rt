//! Links as a session serves them: shared by some workers, with two ports of their own each, beside one port of the store that
//! all workers have. Each port has a device in a thread of its own.
ghost use Rattle.std.specs.Prelude.{◌≡◌, ℕ, ◌+◌, ◌++◌, ◌<◌, ◌≤◌, length, reverse, vec_capacity, vec_len};
ghost use Rattle.std.specs.Thread.{IsSync};
ghost use Rattle.demi_port.specs.Seen.{IsNewSeat, NewFrom};
ghost use Rattle.demi_port_core.specs.History.{AnyOf, Each};
ghost use Rattle.demi_bench.specs.Asking.{IsEven};
ghost use Rattle.demi_bench.specs.Linking.{StayEven};
ghost use Rattle.demi_bench.specs.Serving.{IsDone};

use crate::doubler;
use crate::doubler::{Doubler, TOKENS};
use crate::idling::Idling;
use crate::port_loop::close_unused;
use crate::session_work::Duty;
use crate::team::Team;
use demi_bell::Bells;
use demi_core::NoMemory;
use demi_device::Device;
use demi_port::{DEVICE_YIELDS, Port, PortPass};
use demi_port_core::Doubles;
use std::alloc::Global;
use std::io;
use std::marker::Brand;
use std::sync::{Arc, Wait};
use std::thread::{Threads, for_each_mut, join_mut};
use std::time::{Clock, Duration, Instant};

/// The most workers.
pub const MOST_WORKERS: u32 = 64;

/// What is asked of a session.
#[derive(Clone, Copy)]
pub struct Plan {
    /// How many links.
    pub links: u32,
    /// How many workers, at least 1 and at most 64.
    pub workers: u32,
    /// How many requests of each link.
    pub requests: u32,
    /// How the threads wait.
    pub idling: Idling,
}

impl Plan {
    // How many links the worker with this number serves.
    fn links_of(self, number: u32) -> u32
        requires { 1 ≤ self.workers }
    {
        let more = u32::from(number < self.links % self.workers);
        (self.links / self.workers).saturating_add(more)
    }
}

// A team for each pass. Whether there was memory for all.
fn open_teams(
    alloc: Global,
    bells: &Arc<Bells, Global>,
    plan: Plan,
    passes: &mut Vec<PortPass<Doubles>>,
    teams: &mut Vec<Team>,
) -> bool
    requires workers { 1 ≤ plan.workers }
    requires few { length passes.old.items ≤ 64 }
    requires room { (vec_len teams.old ≡ 0) × (length passes.old.items ≤ vec_capacity teams.old) }
    ensures all { passes.old.items ≡ passes.new.items ++ reverse teams.new.items }
    ensures room { vec_capacity passes.new ≡ vec_capacity passes.old }
{
    while let Some(pass) = passes.pop() {
        let number = passes.len() as u32;
        let duty = Duty {
            number,
            requests: plan.requests,
            idling: plan.idling,
        };
        match Team::open(alloc, bells, duty, pass, plan.links_of(number)) {
            Ok(team) => teams.push_reserved(team),
            Err(pass) => {
                passes.push_reserved(pass);
                return false;
            }
        }
    }
    true
}

// The passes come back.
fn close_teams(mut teams: Vec<Team>, passes: &mut Vec<PortPass<Doubles>>)
    requires { length passes.old.items + length teams.items ≤ vec_capacity passes.old }
    ensures { passes.new.items ≡ passes.old.items ++ reverse teams.items }
{
    'closing: while let Some(team) = teams.pop() {
        passes.push_reserved(team.close());
    }
    teams.destroy_empty();
}

// Each team in threads of its own.
fn serve_each<R: Threads + Wait + Sync>(rt: &R, store: &Port<Doubles>, teams: &mut [Team])
    requires { Each (IsEven store.now) teams.old }
    ensures { StayEven store.now teams.old teams.new }
{
    let threads = teams.len().max(1);
    for_each_mut(
        rt,
        teams,
        threads,
        &|_, team: &mut Team|
            requires { IsSync R.row × IsEven store.now team.now }
            ensures { IsEven store.entry.now team.exit.now × (team.exit.now.number ≡ team.entry.now.number) }
        { team.serve(rt, store) },
    );
}

// The teams, and the device of the store.
fn serve_all<R: Threads + Wait + Sync>(
    rt: &R,
    plan: Plan,
    store: &Port<Doubles>,
    device: &mut Device<Doubler>,
    teams: &mut [Team],
)
    requires device { device.old.seat.port ≡ store.now }
    requires teams { Each (IsEven store.now) teams.old }
    ensures device { IsDone device.old device.new }
    ensures teams { StayEven store.now teams.old teams.new }
{
    let operations = plan.requests as u64 * plan.links as u64;
    let mut serving = ||
        requires { IsSync R.row × Each (IsEven store.now) teams.now }
        ensures { StayEven store.entry.now teams.entry.now teams.exit.now }
    { serve_each(rt, store, teams) };
    let mut keeping = ||
        requires { device.now.seat.port ≡ store.now }
        ensures { IsDone device.entry.now device.exit.now }
    { doubler::run(rt, store, device, plan.idling, operations) };
    join_mut(rt, &mut serving, &mut keeping);
}

// The links from their opening to their closing. How long they were served, or `None` for want of memory.
fn run_teams<R: Threads + Clock + Wait + Sync>(
    rt: &R,
    alloc: Global,
    bells: &Arc<Bells, Global>,
    plan: Plan,
    store: &Port<Doubles>,
    device: &mut Device<Doubler>,
    passes: &mut Vec<PortPass<Doubles>>,
    mut teams: Vec<Team>,
) -> Option<io::Result<Duration>>
    requires workers { 1 ≤ plan.workers }
    requires passes { Each (IsEven store.now) passes.old.items × (length passes.old.items ≤ 64) }
    requires room { (vec_len teams ≡ 0) × (length passes.old.items ≤ vec_capacity teams) }
    requires device { (device.old.seat.port ≡ store.now) × IsDone device.old device.old }
    ensures device { IsDone device.old device.new }
    ensures even { Each (IsEven store.now) passes.new.items }
    ensures all { (n : ℕ) → AnyOf (λ p. p.number ≡ n) passes.old.items → AnyOf (λ p. p.number ≡ n) passes.new.items }
{
    if !open_teams(alloc, bells, plan, passes, &mut teams) {
        close_teams(teams, passes);
        return None;
    }
    let started = Instant::now(rt);
    serve_all(rt, plan, store, device, &mut teams);
    let took = started.and_then(|at| at.elapsed(rt));
    close_teams(teams, passes);
    Some(took)
}

// Bells that all ports of a session share.
fn shared_bells(alloc: Global, workers: u32) -> Result<Arc<Bells, Global>, NoMemory>
    requires { workers ≤ 64 }
{
    Ok(Arc::new(alloc, Bells::make(alloc, workers)?)?)
}

/// How long it took to serve all requests. `None` is want of memory.
pub fn run<R: Threads + Clock + Wait + Sync>(
    rt: &R,
    alloc: Global,
    plan: Plan,
) -> io::Result<Option<Duration>>
    requires { (1 ≤ plan.workers) × (plan.workers ≤ 64) }
{
    let Ok(bells) = shared_bells(alloc, plan.workers) else {
        return Ok(None);
    };
    let Ok(heard) = Arc::try_clone(&bells) else {
        return Ok(None);
    };
    let Ok(teams) = Vec::with_capacity(alloc, plan.workers as usize) else {
        return Ok(None);
    };
    let Ok((mut port, mut passes, seat)) = Port::<Doubles>::make::<Brand>(
        alloc,
        TOKENS,
        plan.workers,
    ) else {
        teams.destroy_empty();
        return Ok(None);
    };
    port.hear(heard, DEVICE_YIELDS);
    let mut device = match Device::make(alloc, Doubler::new(), seat, TOKENS) {
        Ok(device) => device,
        Err((_engine, seat)) => {
            teams.destroy_empty();
            close_unused(port, seat, passes);
            return Ok(None);
        }
    };
    let took = run_teams(
        rt,
        alloc,
        &bells,
        plan,
        &port,
        &mut device,
        &mut passes,
        teams,
    );
    let (_engine, seat) = device.parts();
    let _ended = port.close(seat, passes);
    match took {
        Some(Ok(took)) => Ok(Some(took)),
        Some(Err(error)) => Err(error),
        None => Ok(None),
    }
}
