//! How ports are made, each on its base.
ghost use Rattle.std.specs.Prelude.{◌≡◌, ◌≤◌, IfOk, length};
ghost use Rattle.demi_pdpix.specs.Lanes.{AreNewLanes, AreUnused, IsNewLane};
ghost use Rattle.demi_pdpix.specs.Making.{log_on};

use crate::lane::Lane;
use demi_bell::Bells;
use demi_core::NoMemory;
use demi_heap::Heap;
use demi_logq::{LogBase, LogLaw};
use demi_memq::{MemBase, MemLaw};
use demi_port::DeviceSeat;
use demi_port_core::{Basis, Law};
use demi_streamq::{RxLaw, StreamBase, TxLaw};
use std::alloc::Global;
use std::marker::Brand;
use std::sync::Arc;

// How ports are made: the bells that they ring, how often a device yields before it sleeps, and how many tokens and passes each has.
#[derive(Clone, Copy)]
pub(crate) struct Fit<'b> {
    pub(crate) bells: &'b Arc<Bells, Global>,
    pub(crate) yields: u32,
    pub(crate) tokens: u32,
    pub(crate) callers: u32,
}

// Some new ports of one law, and the seats of their devices.
type Opened<L> = (Vec<Lane<L>>, Vec<DeviceSeat<L>>);

// Ends ports that nobody has used.
pub(crate) fn end_all<L: Law>(mut lanes: Vec<Lane<L>>, mut seats: Vec<DeviceSeat<L>>)
    requires { AreUnused lanes.items seats.items }
{
    while let Some(lane) = lanes.pop() {
        match seats.pop() {
            Some(seat) => lane.end_new(seat),
            None => unreachable!(),
        }
    }
    lanes.destroy_empty();
}

// So many ports of one law.
fn open_each<L: Law, N: Basis<L::Base>>(
    alloc: Global,
    fit: &Fit,
    count: u32,
) -> Result<Opened<L>, NoMemory>
    requires { (1 ≤ fit.now.tokens) × (fit.now.tokens ≤ 64) × (1 ≤ fit.now.callers) × (fit.now.callers ≤ 64) }
    ensures new { IfOk result (λ r. AreNewLanes N.base fit.now.tokens fit.now.callers r.0.items r.1.items) }
    ensures lens { IfOk result (λ r. (length r.0.items ≡ count) × (length r.1.items ≡ count)) }
{
    let Ok(mut seats) = Vec::with_capacity(alloc, count as usize) else {
        return Err(NoMemory);
    };
    let Ok(mut lanes) = Vec::with_capacity(alloc, count as usize) else {
        return Err(NoMemory);
    };
    for _ in 0..count {
        match Lane::<L>::make::<N>(alloc, fit.bells, fit.yields, fit.tokens, fit.callers) {
            Ok((lane, seat)) => {
                lanes.push_reserved(lane);
                seats.push_reserved(seat);
            }
            Err(NoMemory) => {
                end_all(lanes, seats);
                return Err(NoMemory);
            }
        }
    }
    Ok((lanes, seats))
}

fn memory_at<N: Basis<MemBase>>(
    alloc: Global,
    heap: &Heap,
    fit: &Fit,
) -> Result<(Lane<MemLaw>, DeviceSeat<MemLaw>), NoMemory>
    requires base { N.base ≡ heap.now }
    requires counts { (1 ≤ fit.now.tokens) × (fit.now.tokens ≤ 64) × (1 ≤ fit.now.callers) × (fit.now.callers ≤ 64) }
    ensures { IfOk result (λ r. IsNewLane heap.now fit.now.tokens fit.now.callers r.0 r.1) }
{
    let _ = heap;
    Lane::<MemLaw>::make::<N>(alloc, fit.bells, fit.yields, fit.tokens, fit.callers)
}

// The port of memory queues, on this heap.
pub(crate) fn memory_on(
    alloc: Global,
    heap: &Heap,
    fit: &Fit,
) -> Result<(Lane<MemLaw>, DeviceSeat<MemLaw>), NoMemory>
    requires counts { (1 ≤ fit.now.tokens) × (fit.now.tokens ≤ 64) × (1 ≤ fit.now.callers) × (fit.now.callers ≤ 64) }
    ensures { IfOk result (λ r. IsNewLane heap.now fit.now.tokens fit.now.callers r.0 r.1) }
{
    memory_at::<Brand>(alloc, heap, fit)
}

fn journal_at<N: Basis<LogBase>, J: Basis<LogBase>>(
    alloc: Global,
    heap: &Heap,
    fit: &Fit,
    count: u32,
) -> Result<Opened<LogLaw>, NoMemory>
    requires base { N.base ≡ log_on J.base heap.now }
    requires counts { (1 ≤ fit.now.tokens) × (fit.now.tokens ≤ 64) × (1 ≤ fit.now.callers) × (fit.now.callers ≤ 64) }
    ensures new { IfOk result (λ r. AreNewLanes (log_on J.base heap.now) fit.now.tokens fit.now.callers r.0.items r.1.items) }
    ensures lens { IfOk result (λ r. (length r.0.items ≡ count) × (length r.1.items ≡ count)) }
{
    let _ = heap;
    open_each::<LogLaw, N>(alloc, fit, count)
}

// The port for a log, of the base `J`, but on this heap, or none.
pub(crate) fn journal_on<J: Basis<LogBase>>(
    alloc: Global,
    heap: &Heap,
    fit: &Fit,
    count: u32,
) -> Result<Opened<LogLaw>, NoMemory>
    requires counts { (1 ≤ fit.now.tokens) × (fit.now.tokens ≤ 64) × (1 ≤ fit.now.callers) × (fit.now.callers ≤ 64) }
    ensures new { IfOk result (λ r. AreNewLanes (log_on J.base heap.now) fit.now.tokens fit.now.callers r.0.items r.1.items) }
    ensures lens { IfOk result (λ r. (length r.0.items ≡ count) × (length r.1.items ≡ count)) }
{
    journal_at::<Brand, J>(alloc, heap, fit, count)
}

fn receiving_at<N: Basis<StreamBase>>(
    alloc: Global,
    heap: &Heap,
    fit: &Fit,
    links: u32,
) -> Result<Opened<RxLaw>, NoMemory>
    requires base { N.base ≡ heap.now }
    requires counts { (1 ≤ fit.now.tokens) × (fit.now.tokens ≤ 64) × (1 ≤ fit.now.callers) × (fit.now.callers ≤ 64) }
    ensures new { IfOk result (λ r. AreNewLanes heap.now fit.now.tokens fit.now.callers r.0.items r.1.items) }
    ensures lens { IfOk result (λ r. (length r.0.items ≡ links) × (length r.1.items ≡ links)) }
{
    let _ = heap;
    open_each::<RxLaw, N>(alloc, fit, links)
}

// The ports that receive, on this heap.
pub(crate) fn receiving_on(
    alloc: Global,
    heap: &Heap,
    fit: &Fit,
    links: u32,
) -> Result<Opened<RxLaw>, NoMemory>
    requires counts { (1 ≤ fit.now.tokens) × (fit.now.tokens ≤ 64) × (1 ≤ fit.now.callers) × (fit.now.callers ≤ 64) }
    ensures new { IfOk result (λ r. AreNewLanes heap.now fit.now.tokens fit.now.callers r.0.items r.1.items) }
    ensures lens { IfOk result (λ r. (length r.0.items ≡ links) × (length r.1.items ≡ links)) }
{
    receiving_at::<Brand>(alloc, heap, fit, links)
}

fn sending_at<N: Basis<StreamBase>>(
    alloc: Global,
    heap: &Heap,
    fit: &Fit,
    links: u32,
) -> Result<Opened<TxLaw>, NoMemory>
    requires base { N.base ≡ heap.now }
    requires counts { (1 ≤ fit.now.tokens) × (fit.now.tokens ≤ 64) × (1 ≤ fit.now.callers) × (fit.now.callers ≤ 64) }
    ensures new { IfOk result (λ r. AreNewLanes heap.now fit.now.tokens fit.now.callers r.0.items r.1.items) }
    ensures lens { IfOk result (λ r. (length r.0.items ≡ links) × (length r.1.items ≡ links)) }
{
    let _ = heap;
    open_each::<TxLaw, N>(alloc, fit, links)
}

// The ports that send, on this heap.
pub(crate) fn sending_on(
    alloc: Global,
    heap: &Heap,
    fit: &Fit,
    links: u32,
) -> Result<Opened<TxLaw>, NoMemory>
    requires counts { (1 ≤ fit.now.tokens) × (fit.now.tokens ≤ 64) × (1 ≤ fit.now.callers) × (fit.now.callers ≤ 64) }
    ensures new { IfOk result (λ r. AreNewLanes heap.now fit.now.tokens fit.now.callers r.0.items r.1.items) }
    ensures lens { IfOk result (λ r. (length r.0.items ≡ links) × (length r.1.items ≡ links)) }
{
    sending_at::<Brand>(alloc, heap, fit, links)
}
