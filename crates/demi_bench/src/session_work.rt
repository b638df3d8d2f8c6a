//! What the threads of a session do: a worker that serves its links in turn, and the devices of those links.
ghost use Rattle.std.specs.Prelude.{◌≡◌, ◌<◌, true};
ghost use Rattle.std.specs.Thread.{IsSync};
ghost use Rattle.demi_bench.specs.Asking.{IsEven};
ghost use Rattle.demi_bench.specs.Linking.{ArePaired, AreOver, IsLineOf, IsPairAt, IsPairOf, IsStationOf, OwesAll};

use crate::chain_loop::BATCH;
use crate::doubler;
use crate::idling::Idling;
use crate::line::{Line, Pair, Wire};
use crate::way::Station;
use demi_bell::Patience;
use demi_port::{Port, PortPass};
use demi_port_core::Doubles;
use std::sync::Wait;
use std::thread::{Threads, for_each_mut, join_mut};

/// What the threads that serve some links are asked.
#[derive(Clone, Copy)]
pub(crate) struct Duty {
    /// The number of the worker.
    pub(crate) number: u32,
    /// How many requests of each link.
    pub(crate) requests: u32,
    /// How they wait.
    pub(crate) idling: Idling,
}

// Looks once at each link. Whether one of them went on.
fn walk<R: Wait>(
    rt: &R,
    requests: u32,
    wires: &[Wire],
    store: &Port<Doubles>,
    pass: &mut PortPass<Doubles>,
    lines: &mut [Line],
) -> bool
    requires lines { ArePaired (IsLineOf requests) wires.now lines.old }
    requires store { OwesAll store.now lines.old pass.old }
    ensures lines { ArePaired (IsLineOf requests) wires.now lines.new }
    ensures store { OwesAll store.now lines.new pass.new }
    ensures number { pass.new.number ≡ pass.old.number }
{
    let mut went_on = false;
    for i in 0..wires.len() {
        went_on |= lines[i].look(rt, requests, &wires[i], store, pass);
    }
    went_on
}

// Whether each request of each link was served.
fn are_over(requests: u32, lines: &[Line]) -> bool
    ensures { result ≡ true → AreOver requests lines.now }
{
    for i in 0..lines.len() {
        if !lines[i].is_over(requests) {
            return false;
        }
    }
    true
}

// Serves the links in turn, one token of each at a time, until all their requests were served. It waits for none of them while
// another has something.
fn work<R: Wait>(
    rt: &R,
    duty: Duty,
    wires: &[Wire],
    store: &Port<Doubles>,
    pass: &mut PortPass<Doubles>,
    lines: &mut [Line],
)
    requires number { duty.number < 64 }
    requires lines { ArePaired (IsLineOf duty.requests) wires.now lines.old }
    requires store { OwesAll store.now lines.old pass.old }
    ensures lines { ArePaired (IsLineOf duty.requests) wires.now lines.new }
    ensures over { AreOver duty.requests lines.new }
    ensures store { IsEven store.now pass.new × (pass.new.number ≡ pass.old.number) }
{
    let mut patience = Patience::of(duty.number);
    for _ in rt.forever() {
        if walk(rt, duty.requests, wires, store, pass, lines) {
            patience.busy(store.bells());
        } else if are_over(duty.requests, lines) {
            return;
        } else {
            duty.idling.idle(rt, store.bells(), &mut patience);
        }
    }
    unreachable!()
}

// The device serves so many operations.
fn run_station<R: Wait>(
    rt: &R,
    idling: Idling,
    port: &Port<Doubles>,
    station: &mut Station,
    operations: u32,
)
    requires { IsStationOf port.now station.old }
    ensures { IsStationOf port.now station.new }
{
    doubler::run(rt, port, &mut station.device, idling, operations as u64);
}

// Both devices of a link.
fn run_both<R: Threads + Wait + Sync>(
    rt: &R,
    duty: Duty,
    rx: &Port<Doubles>,
    rx_station: &mut Station,
    tx: &Port<Doubles>,
    tx_station: &mut Station,
)
    requires { IsStationOf rx.now rx_station.old × IsStationOf tx.now tx_station.old }
    ensures { IsStationOf rx.now rx_station.new × IsStationOf tx.now tx_station.new }
{
    let Duty {
        number: _,
        requests,
        idling,
    } = duty;
    let mut receiving = ||
        requires { IsStationOf rx.now rx_station.now }
        ensures { IsStationOf rx.entry.now rx_station.exit.now }
    { run_station(rt, idling, rx, rx_station, requests.div_ceil(BATCH)) };
    let mut sending = ||
        requires { IsStationOf tx.now tx_station.now }
        ensures { IsStationOf tx.entry.now tx_station.exit.now }
    { run_station(rt, idling, tx, tx_station, requests) };
    join_mut(rt, &mut receiving, &mut sending);
}

// Both devices of the link at this place.
fn run_pair<R: Threads + Wait + Sync>(rt: &R, duty: Duty, wires: &[Wire], i: usize, pair: &mut Pair)
    requires { IsPairAt wires.now i pair.old }
    ensures { IsPairAt wires.now i pair.new }
{
    let Wire { rx, tx } = &wires[i];
    let Pair {
        rx: rx_station,
        tx: tx_station,
    } = pair;
    run_both(rt, duty, rx, rx_station, tx, tx_station);
}

// The devices of all links.
fn run_pairs<R: Threads + Wait + Sync>(rt: &R, duty: Duty, wires: &[Wire], pairs: &mut [Pair])
    requires { ArePaired IsPairOf wires.now pairs.old }
    ensures { ArePaired IsPairOf wires.now pairs.new }
{
    let threads = pairs.len().max(1);
    for_each_mut(
        rt,
        pairs,
        threads,
        &|i, pair: &mut Pair|
            requires { IsSync R.row × IsPairAt wires.now i pair.now }
            ensures { IsPairAt wires.entry.now i pair.exit.now }
        { run_pair(rt, duty, wires, i, pair) },
    );
}

/// A worker beside the devices of its links.
pub(crate) fn serve<R: Threads + Wait + Sync>(
    rt: &R,
    duty: Duty,
    wires: &[Wire],
    store: &Port<Doubles>,
    pass: &mut PortPass<Doubles>,
    lines: &mut [Line],
    pairs: &mut [Pair],
)
    requires number { duty.number < 64 }
    requires lines { ArePaired (IsLineOf duty.requests) wires.now lines.old }
    requires pairs { ArePaired IsPairOf wires.now pairs.old }
    requires store { OwesAll store.now lines.old pass.old }
    ensures lines { ArePaired (IsLineOf duty.requests) wires.now lines.new }
    ensures over { AreOver duty.requests lines.new }
    ensures pairs { ArePaired IsPairOf wires.now pairs.new }
    ensures store { IsEven store.now pass.new × (pass.new.number ≡ pass.old.number) }
{
    let mut working = ||
        requires { (duty.number < 64) × ArePaired (IsLineOf duty.requests) wires.now lines.now × OwesAll store.now lines.now pass.now }
        ensures { ArePaired (IsLineOf duty.requests) wires.entry.now lines.exit.now × AreOver duty.requests lines.exit.now × IsEven store.entry.now pass.exit.now × (pass.exit.now.number ≡ pass.entry.now.number) }
    { work(rt, duty, wires, store, pass, lines) };
    let mut running = ||
        requires { IsSync R.row × ArePaired IsPairOf wires.now pairs.now }
        ensures { ArePaired IsPairOf wires.entry.now pairs.exit.now }
    { run_pairs(rt, duty, wires, pairs) };
    join_mut(rt, &mut working, &mut running);
}
