//! How the whole is made.
ghost use Rattle.std.specs.Prelude.{◌≡◌, ◌+◌, ◌*◌, ◌≤◌, [], All, IfOk, length, map, vec_capacity};
ghost use Rattle.demi_heap.specs.Seen.{IsShape};
ghost use Rattle.demi_pdpix.specs.Making.{AreAsMany, AreNewPorts, log_on, logs};
ghost use Rattle.demi_pdpix.specs.Lanes.{AreNewLanes};
ghost use Rattle.demi_pdpix.specs.Seen.{AreNewCallers, AreNewPairs, IsNewPair, as_list};

use crate::caller::Caller;
use crate::dealing::{deal_all, rooms_for};
use crate::demi::Demi;
use crate::lane::Lane;
use crate::opening::{Fit, end_all, journal_on, memory_on, receiving_on, sending_on};
use crate::pairing::{PairRoom, pair_up};
use crate::plan::DemiPlan;
use crate::ports::{PortSeats, Ports};
use crate::seats::Seats;
use demi_bell::Bells;
use demi_core::NoMemory;
use demi_heap::Heap;
use demi_logq::{LogBase, LogLaw};
use demi_memq::MemLaw;
use demi_port::{DEVICE_YIELDS, DeviceSeat};
use demi_port_core::{Basis, Law};
use demi_streamq::{RxLaw, TxLaw};
use std::alloc::Global;
use std::sync::Arc;

// The ports of links and of a log, and the seats of their devices.
pub(crate) struct Sides {
    pub(crate) journal: Vec<Lane<LogLaw>>,
    pub(crate) journal_seats: Vec<DeviceSeat<LogLaw>>,
    pub(crate) rx: Vec<Lane<RxLaw>>,
    pub(crate) rx_seats: Vec<DeviceSeat<RxLaw>>,
    pub(crate) tx: Vec<Lane<TxLaw>>,
    pub(crate) tx_seats: Vec<DeviceSeat<TxLaw>>,
}

fn open_sides<J: Basis<LogBase>>(
    alloc: Global,
    heap: &Heap,
    fit: &Fit,
    journals: u32,
    links: u32,
) -> Result<Sides, NoMemory>
    requires { (1 ≤ fit.now.tokens) × (fit.now.tokens ≤ 64) × (1 ≤ fit.now.callers) × (fit.now.callers ≤ 64) }
    ensures journal { IfOk result (λ s. AreNewLanes (log_on J.base heap.now) fit.now.tokens fit.now.callers s.journal.items s.journal_seats.items) }
    ensures rx { IfOk result (λ s. AreNewLanes heap.now fit.now.tokens fit.now.callers s.rx.items s.rx_seats.items) }
    ensures tx { IfOk result (λ s. AreNewLanes heap.now fit.now.tokens fit.now.callers s.tx.items s.tx_seats.items) }
    ensures lens { IfOk result (λ s. (length s.journal.items ≡ journals) × (length s.journal_seats.items ≡ journals) × (length s.rx.items ≡ links) × (length s.rx_seats.items ≡ links) × (length s.tx.items ≡ links) × (length s.tx_seats.items ≡ links)) }
{
    let (journal, journal_seats) = journal_on::<J>(alloc, heap, fit, journals)?;
    match receiving_on(alloc, heap, fit, links) {
        Ok((rx, rx_seats)) => match sending_on(alloc, heap, fit, links) {
            Ok((tx, tx_seats)) => Ok(Sides {
                journal,
                journal_seats,
                rx,
                rx_seats,
                tx,
                tx_seats,
            }),
            Err(NoMemory) => {
                end_all(rx, rx_seats);
                end_all(journal, journal_seats);
                Err(NoMemory)
            }
        },
        Err(NoMemory) => {
            end_all(journal, journal_seats);
            Err(NoMemory)
        }
    }
}

// The queues with the ports of links and of a log.
fn with_sides<X: Law>(
    memory: Lane<MemLaw>,
    memory_seat: DeviceSeat<MemLaw>,
    service: Lane<X>,
    service_seat: DeviceSeat<X>,
    sides: Sides,
) -> (Ports<X>, PortSeats<X>)
    ensures queues { (result.0.memory ≡ memory) × (result.1.memory ≡ memory_seat) × (result.0.service ≡ service) × (result.1.service ≡ service_seat) }
    ensures journal { (result.0.journal ≡ sides.journal) × (result.1.journal ≡ sides.journal_seats) }
    ensures links { (result.0.rx ≡ sides.rx) × (result.1.rx ≡ sides.rx_seats) × (result.0.tx ≡ sides.tx) × (result.1.tx ≡ sides.tx_seats) }
{
    let Sides {
        journal,
        journal_seats,
        rx,
        rx_seats,
        tx,
        tx_seats,
    } = sides;
    let ports = Ports {
        memory,
        service,
        journal,
        rx,
        tx,
    };
    let seats = PortSeats {
        memory: memory_seat,
        service: service_seat,
        journal: journal_seats,
        rx: rx_seats,
        tx: tx_seats,
    };
    (ports, seats)
}

fn open_ports<X: Law, N: Basis<X::Base>, J: Basis<LogBase>>(
    alloc: Global,
    heap: &Heap,
    fit: &Fit,
    journals: u32,
    links: u32,
) -> Result<(Ports<X>, PortSeats<X>), NoMemory>
    requires { (1 ≤ fit.now.tokens) × (fit.now.tokens ≤ 64) × (1 ≤ fit.now.callers) × (fit.now.callers ≤ 64) }
    ensures new { IfOk result (λ r. AreNewPorts heap.now N.base J.base fit.now.tokens fit.now.callers r.0 r.1) }
    ensures lanes { IfOk result (λ r. AreAsMany journals links r.0) }
    ensures seats { IfOk result (λ r. (length r.1.journal.items ≡ journals) × (length r.1.rx.items ≡ links) × (length r.1.tx.items ≡ links)) }
{
    let (memory, memory_seat) = memory_on(alloc, heap, fit)?;
    match Lane::<X>::make::<N>(alloc, fit.bells, fit.yields, fit.tokens, fit.callers) {
        Ok((service, service_seat)) => match open_sides::<J>(alloc, heap, fit, journals, links) {
            Ok(sides) => Ok(with_sides(memory, memory_seat, service, service_seat, sides)),
            Err(NoMemory) => {
                service.end_new(service_seat);
                memory.end_new(memory_seat);
                Err(NoMemory)
            }
        },
        Err(NoMemory) => {
            memory.end_new(memory_seat);
            Err(NoMemory)
        }
    }
}

// Up to so many links the devices are about as many as processors.
const FEW_LINKS: u32 = 2;

// How often a device yields before it sleeps where links are few: some hundred microseconds, several times what a wake takes.
const YIELDS_OF_FEW: u32 = 600;

fn yields_for(links: u32) -> u32 {
    if links <= FEW_LINKS {
        YIELDS_OF_FEW
    } else {
        DEVICE_YIELDS
    }
}

// How many ports there are for a log.
fn how_many_logs(log: bool) -> u32
    ensures is { result ≡ logs log }
    ensures few { result ≤ 1 }
{
    if log { 1 } else { 0 }
}

fn pair_room_for(alloc: Global, links: u32) -> Result<PairRoom, NoMemory>
    ensures rx { IfOk result (λ r. (r.rx.items ≡ []) × (links ≤ vec_capacity r.rx)) }
    ensures tx { IfOk result (λ r. (r.tx.items ≡ []) × (links ≤ vec_capacity r.tx)) }
{
    Ok(PairRoom {
        rx: Vec::with_capacity(alloc, links as usize)?,
        tx: Vec::with_capacity(alloc, links as usize)?,
    })
}

impl<X: Law> Demi<X> {
    /// A heap and ports by the plan, with a caller for each thread and a seat for each device. Caller i has the pass with the number
    /// i of each port. The base of the service is `N`'s, and that of the log's queue is `J`'s on this heap; contracts alone see them,
    /// and a call at `Brand` picks them. Each other port stands on this heap. Refused for want of memory alone.
    pub fn make<N: Basis<X::Base>, J: Basis<LogBase>>(
        alloc: Global,
        plan: DemiPlan,
    ) -> Result<(Demi<X>, Vec<Caller<X>>, Seats<X>), NoMemory>
        requires plan { (1 ≤ plan.callers) × (plan.callers ≤ 16) × (1 ≤ plan.tokens) × (plan.tokens ≤ 64) × (plan.links ≤ 16) }
        requires counts { (plan.counts.small ≤ 4096) × (plan.counts.page ≤ 4096) × (plan.counts.large ≤ 4096) × (1 ≤ plan.counts.small + plan.counts.page + plan.counts.large) }
        ensures heap { IfOk result (λ r. IsShape r.0.heap.shape plan.counts (plan.callers + 2 + logs plan.log + plan.links + plan.links)) }
        ensures bases { IfOk result (λ r. (r.0.memory.key.base ≡ r.0.heap) × (r.0.service.key.base ≡ N.base) × All (λ p. p.key.base ≡ log_on J.base r.0.heap) r.0.journal × All (λ p. p.key.base ≡ r.0.heap) r.0.rx × All (λ p. p.key.base ≡ r.0.heap) r.0.tx) }
        ensures tokens { IfOk result (λ r. (r.0.memory.tokens.slots ≡ plan.tokens) × (r.0.service.tokens.slots ≡ plan.tokens) × All (λ p. p.tokens.slots ≡ plan.tokens) r.0.journal × All (λ p. p.tokens.slots ≡ plan.tokens) r.0.rx × All (λ p. p.tokens.slots ≡ plan.tokens) r.0.tx) }
        ensures ports { IfOk result (λ r. (length r.0.journal ≡ logs plan.log) × (length r.0.rx ≡ plan.links) × (length r.0.tx ≡ plan.links)) }
        ensures callers { IfOk result (λ r. (r.0.callers ≡ plan.callers) × (length r.1.items ≡ plan.callers) × AreNewCallers r.0 0 r.1.items) }
        ensures memory_seat { IfOk result (λ r. IsNewPair r.0.heap plan.callers r.0.memory r.2.memory) }
        ensures service_seat { IfOk result (λ r. IsNewPair r.0.heap plan.callers r.0.service r.2.service) }
        ensures journal_seat { IfOk result (λ r. AreNewPairs r.0.heap plan.callers r.0.journal (as_list r.2.journal)) }
        ensures rx_seats { IfOk result (λ r. AreNewPairs r.0.heap plan.callers r.0.rx r.2.rx.items) }
        ensures tx_seats { IfOk result (λ r. AreNewPairs r.0.heap plan.callers r.0.tx r.2.tx.items) }
    {
        let journals = how_many_logs(plan.log);
        let mut callers = Vec::with_capacity(alloc, plan.callers as usize)?;
        let rooms = rooms_for(alloc, plan.callers, journals, plan.links)?;
        let rx_ends = Vec::with_capacity(alloc, plan.links as usize)?;
        let tx_ends = Vec::with_capacity(alloc, plan.links as usize)?;
        let room = pair_room_for(alloc, plan.links)?;
        let bells = Arc::new(alloc, Bells::make(alloc, plan.callers)?)?;
        let passes = plan.callers + 2 + journals + plan.links + plan.links;
        let (heap, mut passes) = Heap::make(alloc, plan.counts, passes)?;
        let fit = Fit {
            bells: &bells,
            yields: yields_for(plan.links),
            tokens: plan.tokens,
            callers: plan.callers,
        };
        match open_ports::<X, N, J>(alloc, &heap, &fit, journals, plan.links) {
            Ok((mut ports, seats)) => {
                deal_all(
                    &heap,
                    &mut ports,
                    &mut passes,
                    rooms,
                    &mut callers,
                    plan.callers,
                );
                let seats = pair_up(&heap, seats, &mut passes, room);
                let demi = Demi {
                    heap,
                    ports,
                    bells,
                    passes,
                    rx_ends,
                    tx_ends,
                    callers: plan.callers,
                };
                Ok((demi, callers, seats))
            }
            Err(NoMemory) => {
                let _end = heap.close(passes);
                Err(NoMemory)
            }
        }
    }
}
