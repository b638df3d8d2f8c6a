//! A whole run in threads: two callers beside the devices of memory queues, a service, a log and a link.
ghost use Rattle.std.specs.Prelude.{◌≡◌, ◌≤◌, [], ◌∷◌, length, vec_capacity};
ghost use Rattle.demi_heap.specs.Seen.{HeapId};
ghost use Rattle.demi_logq.specs.Engine.{basis_of};
ghost use Rattle.demi_logq.specs.Logged.{IsSound};
ghost use Rattle.demi_pdpix.specs.Home.{IsHome};
ghost use Rattle.demi_pdpix.specs.InTests.{AreFit};
ghost use Rattle.demi_pdpix.specs.Making.{log_on};
ghost use Rattle.demi_pdpix.specs.Owing.{AreCalm, Owes};

use super::callers::{First, Second};
use super::crew::seven;
use super::devices::{
    journal_home, journal_station, memory_home, memory_station, rx_home, rx_station, service_home,
    service_station, tx_home, tx_station,
};
use super::doubler::UntilZero;
use super::talking::{asked, opened};
use crate::{Caller, Demi, DemiEnd, DemiPlan, Seats};
use demi_core::{Disk, MemDisk, MemSink, MemSource};
use demi_heap::Counts;
use demi_logq::{Log, LogBase};
use demi_port_core::Basis;
use std::alloc::{AllocError, Global};
use std::marker::Brand;
use std::process::Abort;
use std::sync::Wait;
use std::test::Fail;
use std::thread::Threads;

const PLAN: DemiPlan = DemiPlan {
    callers: 2,
    tokens: 4,
    links: 1,
    log: true,
    counts: Counts {
        small: 2,
        page: 1,
        large: 0,
    },
};

// What the devices serve.
struct Outside {
    source: MemSource,
    sink: MemSink,
    log: Log<MemDisk>,
}

fn in_memory(rt: &impl Abort, alloc: Global, given: &[u8]) -> Outside
    requires { length given.now ≤ 16 }
    ensures { IsSound result.log × (result.log.staged ≡ []) }
{
    let Ok(bytes) = given.to_vec(alloc) else {
        panic!(rt; "no memory");
    };
    let Ok(sink) = MemSink::make(alloc, 16, 16, Vec::new(alloc)) else {
        panic!(rt; "no memory");
    };
    let Ok(disk) = MemDisk::make(alloc, &[], 64, Vec::new(alloc)) else {
        panic!(rt; "no memory");
    };
    let Ok(log) = Log::make(alloc, disk, 4) else {
        panic!(rt; "no log");
    };
    Outside {
        source: MemSource::make(bytes, 16, Vec::new(alloc)),
        sink,
        log,
    }
}

type Made = (Demi<UntilZero>, Vec<Caller<UntilZero>>, Seats<UntilZero>);

fn made_on<J: Basis<LogBase>>(rt: &impl Abort, alloc: Global, log: &Log<MemDisk>) -> Made
    requires log { (heap : HeapId) → log_on J.base heap ≡ basis_of ⟦<MemDisk as Disk>⟧.bytes log.now heap }
    ensures callers { (result.0.callers ≡ 2) × (length result.1.items ≡ 2) × AreCalm result.0 0 result.1.items }
    ensures seats { AreFit tt (basis_of ⟦<MemDisk as Disk>⟧.bytes log.now) result.0 result.2 }
{
    let _ = log;
    match Demi::<UntilZero>::make::<Brand, J>(alloc, PLAN) {
        Ok(made) => made,
        Err(_) => panic!(rt; "no memory"),
    }
}

// A whole whose port for a log stands on this one.
fn made(rt: &impl Abort, alloc: Global, log: &Log<MemDisk>) -> Made
    ensures callers { (result.0.callers ≡ 2) × (length result.1.items ≡ 2) × AreCalm result.0 0 result.1.items }
    ensures seats { AreFit tt (basis_of ⟦<MemDisk as Disk>⟧.bytes log.now) result.0 result.2 }
{
    made_on::<Brand>(rt, alloc, log)
}

// Both callers.
fn both(
    rt: &impl Abort,
    demi: &Demi<UntilZero>,
    callers: &mut Vec<Caller<UntilZero>>,
) -> (Caller<UntilZero>, Caller<UntilZero>)
    requires { (length callers.old.items ≡ 2) × AreCalm demi.now 0 callers.old.items }
    ensures none { (callers.new.items ≡ []) × (2 ≤ vec_capacity callers.new) }
    ensures calm { Owes demi.now 0 [] result.0 × Owes demi.now 1 [] result.1 }
{
    let _ = demi;
    let Some(second) = callers.pop() else {
        panic!(rt; "a caller is missing");
    };
    let Some(first) = callers.pop() else {
        panic!(rt; "a caller is missing");
    };
    (first, second)
}

// The first asks for a queue and of the service, and the second learns of it.
fn begun<'d>(
    rt: &impl Abort,
    alloc: Global,
    demi: &'d Demi<UntilZero>,
    first: Caller<UntilZero>,
    second: Caller<UntilZero>,
) -> (First<'d>, Second<'d>)
    requires { Owes demi.now 0 [] first × Owes demi.now 1 [] second }
    ensures first { (result.0.demi.now ≡ demi.now) × Owes demi.now 0 (result.0.asked ∷ result.0.opened ∷ []) result.0.caller }
    ensures second { (result.1.demi.now ≡ demi.now) × Owes demi.now 1 [] result.1.caller }
{
    let mut first = first;
    let mut second = second;
    let opened = opened(rt, demi, &mut first);
    let asked = asked(rt, demi, &mut first, 7);
    demi.learn(&mut second, &mut first);
    let first = First {
        alloc,
        demi,
        caller: first,
        opened,
        asked,
    };
    let second = Second {
        alloc,
        demi,
        caller: second,
    };
    (first, second)
}

// Makes the devices, runs them beside the callers, and takes them apart.
fn ran<R: Threads + Wait + Abort + Sync>(
    rt: &R,
    alloc: Global,
    demi: &Demi<UntilZero>,
    mut callers: Vec<Caller<UntilZero>>,
    seats: Seats<UntilZero>,
    outside: Outside,
) -> (Vec<Caller<UntilZero>>, Seats<UntilZero>, Outside)
    requires callers { (demi.now.callers ≡ 2) × (length callers.items ≡ 2) × AreCalm demi.now 0 callers.items }
    requires log { IsSound outside.log × (outside.log.staged ≡ []) }
    requires seats { AreFit tt (basis_of ⟦<MemDisk as Disk>⟧.bytes outside.log) demi.now seats }
    ensures { IsHome demi.now result.0.items result.1 }
{
    let Seats {
        memory,
        service: (service_seat, service_pass),
        journal,
        rx: mut rx_seats,
        tx: mut tx_seats,
    } = seats;
    let Outside { source, sink, log } = outside;
    let (Some(journal_port), Some(journal)) = (demi.journal(), journal) else {
        panic!(rt; "the log's port is missing");
    };
    let Some(rx) = rx_seats.pop() else {
        panic!(rt; "a link's port is missing");
    };
    let Some(tx) = tx_seats.pop() else {
        panic!(rt; "a link's port is missing");
    };
    let heap = demi.heap();
    let (memory_port, service_port) = (demi.memory(), demi.service());
    let (rx_port, tx_port) = (demi.rx(0), demi.tx(0));
    let mut memory = memory_station(rt, alloc, heap, memory_port, memory);
    let mut service = service_station(rt, alloc, service_port, service_seat);
    let mut journal = journal_station(rt, alloc, heap, journal_port, journal, log);
    let mut rx = rx_station(rt, alloc, heap, rx_port, rx, source);
    let mut tx = tx_station(rt, alloc, heap, tx_port, tx, sink);
    let (first, second) = both(rt, demi, &mut callers);
    let (mut first, mut second) = begun(rt, alloc, demi, first, second);
    seven(
        rt,
        &mut memory,
        &mut service,
        &mut journal,
        &mut rx,
        &mut tx,
        &mut first,
        &mut second,
    );
    callers.push_reserved(first.caller());
    callers.push_reserved(second.caller());
    let memory = memory_home(heap, memory_port, memory);
    let service_seat = service_home(service_port, service);
    let (journal, log) = journal_home(heap, journal_port, journal);
    let (rx, source) = rx_home(heap, rx_port, rx);
    let (tx, sink) = tx_home(heap, tx_port, tx);
    rx_seats.push_reserved(rx);
    tx_seats.push_reserved(tx);
    let seats = Seats {
        memory,
        service: (service_seat, service_pass),
        journal: Some(journal),
        rx: rx_seats,
        tx: tx_seats,
    };
    (callers, seats, Outside { source, sink, log })
}

fn closed(
    demi: Demi<UntilZero>,
    callers: Vec<Caller<UntilZero>>,
    seats: Seats<UntilZero>,
) -> DemiEnd<UntilZero>
    requires { IsHome demi callers.items seats }
{
    demi.close(callers, seats)
}

#[test]
fn two_callers_beside_five_devices(rt: HostRuntime) -> Result<(), Fail> {
    let alloc = rt.alloc();
    let outside = in_memory(&rt, alloc, b"over the link");
    let (demi, callers, seats) = made(&rt, alloc, &outside.log);
    let (callers, seats, outside) = ran(&rt, alloc, &demi, callers, seats, outside);
    let end = closed(demi, callers, seats);
    assert_eq!(rt; end.memory.tickets(), 4);
    assert_eq!(rt; end.service.tickets(), 3);
    assert_eq!(rt; end.journal.map(|end| end.tickets()), Some(2));
    assert_eq!(rt; end.rx.first().map(|end| end.tickets()), Some(2));
    assert_eq!(rt; end.tx.first().map(|end| end.tickets()), Some(2));
    assert_eq!(rt; end.heap.free, 3);
    let Outside { source, sink, log } = outside;
    let disk = log.disk();
    assert_eq!(rt; source.bytes(), b"".as_slice());
    assert_eq!(rt; sink.bytes(), b"over the link".as_slice());
    assert_eq!(rt; disk.bytes(), b"DEMILOG1\x00\x00\x00\x01\x06".as_slice());
    Ok(())
}
