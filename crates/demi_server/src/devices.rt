//! All devices of a session, from their parts and back.
ghost use Rattle.std.specs.Prelude.{◌≡◌, ◌≤◌, [], All, IfErr, IfOk, length, map};
ghost use Rattle.demi_server.specs.Building.{AreSeated, HasRoom, IsEven, IsLinkNew, IsSeated, IsSpent, ends_of, new_memory, rx_of, tx_of};
ghost use Rattle.demi_server.specs.Gathering.{AreFor, AreSameParts, AreSpent, AreUnused, Have};
ghost use Rattle.demi_memq.specs.Said.{is_stop as stops_memory};
ghost use Rattle.demi_store.specs.Laws.{is_stop as stops_store};

use crate::home::Home;
use crate::linking::LinkStations;
use crate::parts::{MemSeat, Parts, TOKENS};
use crate::station::Station;
use demi_core::{Disk, NoMemory, Sink, Source};
use demi_heap::{Heap, HeapPass};
use demi_logq::LogLaw;
use demi_memq::{MemEngine, MemLaw};
use demi_pdpix::{Demi, Seats};
use demi_port::{DeviceSeat, Port};
use demi_store::{StoreEngine, StoreLaw};
use std::alloc::Global;
use std::marker::Model;

// The station of the memory queues, or its parts.
fn memory_station<'h>(
    alloc: Global,
    heap: &'h Heap,
    port: &'h Port<MemLaw>,
    seat: MemSeat,
) -> Result<Station<'h, MemEngine<'h>>, MemSeat>
    requires { IsSeated heap.now port.now TOKENS seat }
    ensures made { IfOk result (λ d. d ≡ new_memory seat TOKENS) }
    ensures back { IfErr result (λ r. r ≡ seat) }
{
    let (seat, pass) = seat;
    match MemEngine::make(alloc, heap, pass, TOKENS) {
        Err(pass) => Err((seat, pass)),
        Ok(engine) => match Station::make(alloc, engine, seat, port, TOKENS) {
            Ok(station) => Ok(station),
            Err((engine, seat)) => Err((seat, engine.parts())),
        },
    }
}

// The parts of the memory queues' station. No array waits there.
fn memory_parts(station: Station<MemEngine>) -> MemSeat
    requires { IsSpent stops_memory (λ e. e.served) station }
    ensures seat { result ≡ (station.entry.seat, station.entry.engine.pass) }
    ensures none_wait { station.entry.engine.waits ≡ [] }
{
    let (engine, seat) = station.parts();
    (seat, engine.parts())
}

// What no device has: the emptied vectors of links and seats, the store's pass of the heap, and what there is for a log's queue.
pub(crate) struct Waiting<I, O> {
    home: Home<I, O>,
    service_pass: HeapPass,
    journal: Option<(DeviceSeat<LogLaw>, HeapPass)>,
}

/// All devices of a session at their ports.
pub(crate) struct Devices<'h, I: Source, O: Sink, D: Disk> {
    pub(crate) memory: Station<'h, MemEngine<'h>>,
    pub(crate) store: Station<'h, StoreEngine<D>>,
    pub(crate) links: Vec<LinkStations<'h, I, O>>,
    pub(crate) waiting: Waiting<I, O>,
}

impl<'h, I: Source, O: Sink, D: Disk> Model for Devices<'h, I, O, D> {
    ghost use Rattle.std.specs.Prelude.{length};
    ghost use Rattle.demi_server.specs.Building.{HasRoom, IsEmptyHome};
    ghost use Rattle.demi_server.specs.Gathering.{AllDevices};

    ghost Value = { AllDevices I O D };

    ghost view = { λ d. record { memory = d.memory; store = d.store; links = d.links.items; service_pass = d.waiting.service_pass; journal = d.waiting.journal } };

    ghost invariant = { λ d. IsEmptyHome d.waiting.home × HasRoom (length d.links.items) d.waiting.home };
}

// All parts of a session's devices.
fn together<I, O, D: Disk>(
    home: Home<I, O>,
    store: StoreEngine<D>,
    memory: MemSeat,
    service: (DeviceSeat<StoreLaw>, HeapPass),
    journal: Option<(DeviceSeat<LogLaw>, HeapPass)>,
) -> Parts<I, O, D>
    ensures links { (result.links ≡ home.links) × (result.seats.rx ≡ home.rx) × (result.seats.tx ≡ home.tx) }
    ensures store { (result.store ≡ store) × (result.seats.service ≡ service) }
    ensures others { (result.seats.memory ≡ memory) × (result.seats.journal ≡ journal) }
{
    let Home { links, rx, tx } = home;
    let seats = Seats {
        memory,
        service,
        journal,
        rx,
        tx,
    };
    Parts {
        links,
        store,
        seats,
    }
}

// The devices of the links beside the others, or all parts.
fn with_links<'h, I: Source, O: Sink, D: Disk>(
    alloc: Global,
    demi: &'h Demi<StoreLaw>,
    memory: Station<'h, MemEngine<'h>>,
    store: Station<'h, StoreEngine<D>>,
    waiting: Waiting<I, O>,
) -> Result<Devices<'h, I, O, D>, Parts<I, O, D>>
    requires even { IsEven waiting.home × HasRoom (length waiting.home.links.items) waiting.home }
    requires few { (length demi.now.rx ≡ length waiting.home.links.items) × (length demi.now.tx ≡ length waiting.home.links.items) × (length waiting.home.links.items ≤ 16) }
    requires seated { AreSeated demi.now.heap demi.now.rx 64 waiting.home.rx.items × AreSeated demi.now.heap demi.now.tx 64 waiting.home.tx.items }
    requires spent { IsSpent stops_memory (λ e. e.served) memory × IsSpent stops_store (λ e. e.served) store }
    ensures made { IfOk result (λ d. (d.memory ≡ memory.entry) × (d.store ≡ store.entry) × (d.service_pass ≡ waiting.service_pass) × (d.journal ≡ waiting.journal)) }
    ensures links { IfOk result (λ d. (map ends_of d.links ≡ waiting.home.links.items) × (map rx_of d.links ≡ waiting.home.rx.items) × (map tx_of d.links ≡ waiting.home.tx.items) × All IsLinkNew d.links) }
    ensures back { IfErr result (λ p. (p.links.items ≡ waiting.home.links.items) × (p.seats.rx.items ≡ waiting.home.rx.items) × (p.seats.tx.items ≡ waiting.home.tx.items)) }
    ensures others_back { IfErr result (λ p. (p.seats.memory ≡ (memory.entry.seat, memory.entry.engine.pass)) × (p.store ≡ store.entry.engine) × (p.seats.service ≡ (store.entry.seat, waiting.service_pass)) × (p.seats.journal ≡ waiting.journal)) }
{
    let Waiting {
        mut home,
        service_pass,
        journal,
    } = waiting;
    match home.stations(alloc, demi) {
        Ok(links) => Ok(Devices {
            memory,
            store,
            links,
            waiting: Waiting {
                home,
                service_pass,
                journal,
            },
        }),
        Err(NoMemory) => {
            let (store, seat) = store.parts();
            let memory = memory_parts(memory);
            Err(together(home, store, memory, (seat, service_pass), journal))
        }
    }
}

impl<'h, I: Source, O: Sink, D: Disk> Devices<'h, I, O, D> {
    /// A device at each port of the whole. All parts come back as they were where memory was refused, and for no other cause.
    pub(crate) fn make(
        alloc: Global,
        demi: &'h Demi<StoreLaw>,
        parts: Parts<I, O, D>,
    ) -> Result<Devices<'h, I, O, D>, Parts<I, O, D>>
        requires { AreFor demi.now parts }
        ensures made { IfOk result (λ d. Have d parts) }
        ensures unused { IfOk result (λ d. AreUnused d) }
        ensures back { IfErr result (λ p. AreSameParts parts p) }
    {
        let Parts {
            links,
            store,
            seats,
        } = parts;
        let Seats {
            memory,
            service,
            journal,
            rx,
            tx,
        } = seats;
        let home = Home { links, rx, tx };
        match memory_station(alloc, demi.heap(), demi.memory(), memory) {
            Err(memory) => Err(together(home, store, memory, service, journal)),
            Ok(memory) => {
                let (seat, service_pass) = service;
                match Station::make(alloc, store, seat, demi.service(), TOKENS) {
                    Ok(store) => {
                        let waiting = Waiting {
                            home,
                            service_pass,
                            journal,
                        };
                        with_links(alloc, demi, memory, store, waiting)
                    }
                    Err((store, seat)) => {
                        let memory = memory_parts(memory);
                        Err(together(home, store, memory, (seat, service_pass), journal))
                    }
                }
            }
        }
    }

    /// All parts, each link's in its place, where each device served all that it fetched: before the devices run, and after. No array
    /// waits in the memory queues then.
    pub(crate) fn parts(self) -> Parts<I, O, D>
        requires { AreSpent self }
        ensures parts { Have self.entry result }
        ensures none_wait { self.entry.memory.engine.waits ≡ [] }
    {
        let Devices {
            memory,
            store,
            mut links,
            waiting,
        } = self;
        let Waiting {
            mut home,
            service_pass,
            journal,
        } = waiting;
        links.reverse();
        home.give_all(links);
        let (store, seat) = store.parts();
        let memory = memory_parts(memory);
        together(home, store, memory, (seat, service_pass), journal)
    }
}
