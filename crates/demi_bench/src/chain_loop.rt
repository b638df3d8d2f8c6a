//! Links that are each served through three ports, as a session serves them: a pop now and then, and an ask and a push for each
//! request. Each link has a worker, and each port a device, in threads of their own, so a link has four threads.
ghost use Rattle.std.specs.Prelude.{◌≡◌};
ghost use Rattle.std.specs.Thread.{IsSync};
ghost use Rattle.demi_bench.specs.Asking.{IsFirst};
ghost use Rattle.demi_bench.specs.Serving.{IsDone};

use crate::doubler;
use crate::doubler::Doubler;
use crate::idling::Idling;
use crate::port_loop::{redeem, submit};
use crate::way::Way;
use demi_device::Device;
use demi_port::{Port, PortPass};
use demi_port_core::Doubles;
use std::alloc::Global;
use std::io;
use std::sync::Wait;
use std::thread::{Threads, for_each_mut, join_mut, sleep};
use std::time::{Clock, Duration, Instant};

/// How many requests come with one pop.
pub(crate) const BATCH: u32 = 64;

/// What each link is asked.
#[derive(Clone, Copy)]
pub struct Load {
    /// How many requests.
    pub requests: u32,
    /// How long its source is silent before the first.
    pub silence: Duration,
    /// How its threads wait.
    pub idling: Idling,
}

// Asks once and waits for the answer.
fn ask<R: Wait>(
    rt: &R,
    port: &Port<Doubles>,
    pass: &mut PortPass<Doubles>,
    idling: Idling,
    op: u32,
) -> u64
    requires { IsFirst port.now pass.old }
    ensures { IsFirst port.now pass.new }
{
    let token = submit(rt, port, pass, op);
    redeem(rt, port, pass, idling, token)
}

// The worker's part of a link: how many answers were right.
fn work<R: Wait>(
    rt: &R,
    load: Load,
    rx: &Port<Doubles>,
    rx_pass: &mut PortPass<Doubles>,
    store: &Port<Doubles>,
    store_pass: &mut PortPass<Doubles>,
    tx: &Port<Doubles>,
    tx_pass: &mut PortPass<Doubles>,
)
    requires rx { IsFirst rx.now rx_pass.old }
    requires store { IsFirst store.now store_pass.old }
    requires tx { IsFirst tx.now tx_pass.old }
    ensures rx { IsFirst rx.now rx_pass.new }
    ensures store { IsFirst store.now store_pass.new }
    ensures tx { IsFirst tx.now tx_pass.new }
{
    let Load {
        requests,
        silence: _,
        idling,
    } = load;
    for op in 0..requests {
        if op % BATCH == 0 {
            ask(rt, rx, rx_pass, idling, op);
        }
        ask(rt, store, store_pass, idling, op);
        ask(rt, tx, tx_pass, idling, op);
    }
}

// The device that receives, whose source has nothing to give for a while.
fn receive<R: Wait + Clock>(rt: &R, load: Load, port: &Port<Doubles>, device: &mut Device<Doubler>)
    requires { device.old.seat.port ≡ port.now }
    ensures { IsDone device.old device.new }
{
    sleep(rt, load.silence);
    let pops = load.requests.div_ceil(BATCH) as u64;
    doubler::run(rt, port, device, load.idling, pops);
}

// The worker, and the device that receives.
fn work_and_receive<R: Threads + Wait + Clock + Sync>(
    rt: &R,
    load: Load,
    rx: &Port<Doubles>,
    rx_device: &mut Device<Doubler>,
    rx_pass: &mut PortPass<Doubles>,
    store: &Port<Doubles>,
    store_pass: &mut PortPass<Doubles>,
    tx: &Port<Doubles>,
    tx_pass: &mut PortPass<Doubles>,
)
    requires passes { IsFirst rx.now rx_pass.old × IsFirst store.now store_pass.old × IsFirst tx.now tx_pass.old }
    requires device { rx_device.old.seat.port ≡ rx.now }
    ensures passes { IsFirst rx.now rx_pass.new × IsFirst store.now store_pass.new × IsFirst tx.now tx_pass.new }
    ensures device { IsDone rx_device.old rx_device.new }
{
    let mut working = ||
        requires { IsFirst rx.now rx_pass.now × IsFirst store.now store_pass.now × IsFirst tx.now tx_pass.now }
        ensures { IsFirst rx.entry.now rx_pass.exit.now × IsFirst store.entry.now store_pass.exit.now × IsFirst tx.entry.now tx_pass.exit.now }
    { work(rt, load, rx, rx_pass, store, store_pass, tx, tx_pass) };
    let mut receiving = ||
        requires { rx_device.now.seat.port ≡ rx.now }
        ensures { IsDone rx_device.entry.now rx_device.exit.now }
    { receive(rt, load, rx, rx_device) };
    join_mut(rt, &mut working, &mut receiving);
}

// The device of the store, and the one that sends.
fn keep_and_send<R: Threads + Wait + Sync>(
    rt: &R,
    load: Load,
    store: &Port<Doubles>,
    store_device: &mut Device<Doubler>,
    tx: &Port<Doubles>,
    tx_device: &mut Device<Doubler>,
)
    requires { (store_device.old.seat.port ≡ store.now) × (tx_device.old.seat.port ≡ tx.now) }
    ensures { IsDone store_device.old store_device.new × IsDone tx_device.old tx_device.new }
{
    let mut keeping = ||
        requires { store_device.now.seat.port ≡ store.now }
        ensures { IsDone store_device.entry.now store_device.exit.now }
    { doubler::run(rt, store, store_device, load.idling, load.requests as u64) };
    let mut sending = ||
        requires { tx_device.now.seat.port ≡ tx.now }
        ensures { IsDone tx_device.entry.now tx_device.exit.now }
    { doubler::run(rt, tx, tx_device, load.idling, load.requests as u64) };
    join_mut(rt, &mut keeping, &mut sending);
}

// All four threads of a link.
fn serve_link<R: Threads + Wait + Clock + Sync>(
    rt: &R,
    load: Load,
    rx: &Port<Doubles>,
    rx_device: &mut Device<Doubler>,
    rx_pass: &mut PortPass<Doubles>,
    store: &Port<Doubles>,
    store_device: &mut Device<Doubler>,
    store_pass: &mut PortPass<Doubles>,
    tx: &Port<Doubles>,
    tx_device: &mut Device<Doubler>,
    tx_pass: &mut PortPass<Doubles>,
)
    requires passes { IsFirst rx.now rx_pass.old × IsFirst store.now store_pass.old × IsFirst tx.now tx_pass.old }
    requires devices { (rx_device.old.seat.port ≡ rx.now) × (store_device.old.seat.port ≡ store.now) × (tx_device.old.seat.port ≡ tx.now) }
    ensures passes { IsFirst rx.now rx_pass.new × IsFirst store.now store_pass.new × IsFirst tx.now tx_pass.new }
    ensures devices { IsDone rx_device.old rx_device.new × IsDone store_device.old store_device.new × IsDone tx_device.old tx_device.new }
{
    let mut front = ||
        requires { IsSync R.row × IsFirst rx.now rx_pass.now × IsFirst store.now store_pass.now × IsFirst tx.now tx_pass.now × (rx_device.now.seat.port ≡ rx.now) }
        ensures { IsFirst rx.entry.now rx_pass.exit.now × IsFirst store.entry.now store_pass.exit.now × IsFirst tx.entry.now tx_pass.exit.now × IsDone rx_device.entry.now rx_device.exit.now }
    {
        work_and_receive(
            rt, load, rx, rx_device, rx_pass, store, store_pass, tx, tx_pass,
        )
    };
    let mut back = ||
        requires { IsSync R.row × (store_device.now.seat.port ≡ store.now) × (tx_device.now.seat.port ≡ tx.now) }
        ensures { IsDone store_device.entry.now store_device.exit.now × IsDone tx_device.entry.now tx_device.exit.now }
    { keep_and_send(rt, load, store, store_device, tx, tx_device) };
    join_mut(rt, &mut front, &mut back);
}

// The three ports of a link.
struct Link {
    rx: Way,
    store: Way,
    tx: Way,
}

impl Link {
    fn open(alloc: Global) -> Option<Link> {
        let rx = Way::open(alloc)?;
        let Some(store) = Way::open(alloc) else {
            rx.close();
            return None;
        };
        let Some(tx) = Way::open(alloc) else {
            rx.close();
            store.close();
            return None;
        };
        Some(Link { rx, store, tx })
    }

    fn close(self) {
        let Link { rx, store, tx } = self;
        rx.close();
        store.close();
        tx.close();
    }

    fn serve<R: Threads + Wait + Clock + Sync>(&mut self, rt: &R, load: Load) {
        let Link { rx, store, tx } = self;
        serve_link(
            rt,
            load,
            &rx.port,
            &mut rx.device,
            &mut rx.pass,
            &store.port,
            &mut store.device,
            &mut store.pass,
            &tx.port,
            &mut tx.device,
            &mut tx.pass,
        );
    }
}

fn close_all(mut links: Vec<Link>) {
    'closing: while let Some(link) = links.pop() {
        link.close();
    }
    links.destroy_empty();
}

// So many links, or none for want of memory.
fn open_all(alloc: Global, count: u32) -> Option<Vec<Link>> {
    let Ok(mut links) = Vec::with_capacity(alloc, count as usize) else {
        return None;
    };
    for _ in 0..count {
        match Link::open(alloc) {
            Some(link) => links.push_reserved(link),
            None => {
                close_all(links);
                return None;
            }
        }
    }
    Some(links)
}

/// How long it took to serve so many links, all at once. Each source is silent for a while first,
/// in which all threads of the links sleep. `None` is want of memory.
pub fn run<R: Threads + Clock + Wait + Sync>(
    rt: &R,
    alloc: Global,
    count: u32,
    load: Load,
) -> io::Result<Option<Duration>> {
    let Some(mut links) = open_all(alloc, count) else {
        return Ok(None);
    };
    let started = Instant::now(rt);
    let threads = links.len().max(1);
    for_each_mut(
        rt,
        &mut links,
        threads,
        &|_, link: &mut Link|
            requires { IsSync R.row }
        { link.serve(rt, load) },
    );
    let took = started.and_then(|at| at.elapsed(rt));
    close_all(links);
    Ok(Some(took?.saturating_sub(load.silence)))
}
