//! How callers get their passes.
ghost use Rattle.std.specs.Prelude.{◌≡◌, ◌+◌, ◌<◌, ◌≤◌, [], ◌∷◌, ◌++◌, All, IfOk, length, map, vec_capacity};
ghost use Rattle.demi_heap.specs.Seen.{new_pass};
ghost use Rattle.demi_pdpix.specs.Lanes.{HasLeft, port_of};
ghost use Rattle.demi_pdpix.specs.Making.{AreNewPasses, AreSamePorts, HaveLeft, IsRoom, outline, whole_of};
ghost use Rattle.demi_pdpix.specs.Seen.{AreNewAt, AreNewCallers};

use crate::caller::Caller;
use crate::lane::Lane;
use crate::ports::Ports;
use demi_bell::Patience;
use demi_core::NoMemory;
use demi_heap::{Heap, HeapPass};
use demi_logq::LogLaw;
use demi_port::PortPass;
use demi_port_core::Law;
use demi_streamq::{RxLaw, TxLaw};
use std::alloc::Global;

// Room for those passes of a caller of which there may be several.
#[derive(Drop)]
pub(crate) struct Room {
    pub(crate) journal: Vec<PortPass<LogLaw>>,
    pub(crate) rx: Vec<PortPass<RxLaw>>,
    pub(crate) tx: Vec<PortPass<TxLaw>>,
}

fn room_for(alloc: Global, journals: u32, links: u32) -> Result<Room, NoMemory>
    ensures { IfOk result (IsRoom journals links) }
{
    Ok(Room {
        journal: Vec::with_capacity(alloc, journals as usize)?,
        rx: Vec::with_capacity(alloc, links as usize)?,
        tx: Vec::with_capacity(alloc, links as usize)?,
    })
}

// Room for each caller.
pub(crate) fn rooms_for(
    alloc: Global,
    callers: u32,
    journals: u32,
    links: u32,
) -> Result<Vec<Room>, NoMemory>
    ensures len { IfOk result (λ r. length r.items ≡ callers) }
    ensures room { IfOk result (λ r. All (IsRoom journals links) r.items) }
{
    let mut rooms = Vec::with_capacity(alloc, callers as usize)?;
    for _ in 0..callers {
        rooms.push_reserved(room_for(alloc, journals, links)?);
    }
    Ok(rooms)
}

// A pass of each port, with the greatest number that is left.
fn deal_each<L: Law>(lanes: &mut Vec<Lane<L>>, passes: &mut Vec<PortPass<L>>, number: u32)
    requires left { All (HasLeft (number + 1)) lanes.old.items }
    requires room { (passes.old.items ≡ []) × (length lanes.old.items ≤ vec_capacity passes.old) }
    ensures left { All (HasLeft number) lanes.new.items }
    ensures same { map outline lanes.new.items ≡ map outline lanes.old.items }
    ensures passes { AreNewAt number passes.new.items (map port_of lanes.old.items) }
{
    for i in 0..lanes.len() {
        let pass = lanes[i].deal();
        passes.push_reserved(pass);
    }
}

// The caller with the greatest number that is left.
fn deal_one<X: Law>(ports: &mut Ports<X>, heap: HeapPass, room: Room, number: u32) -> Caller<X>
    requires few { number < 64 }
    requires left { HaveLeft (number + 1) ports.old }
    requires room { (length ports.old.tx.items ≡ length ports.old.rx.items) × IsRoom (length ports.old.journal.items) (length ports.old.rx.items) room }
    ensures left { HaveLeft number ports.new }
    ensures same { AreSamePorts ports.old ports.new }
    ensures heap { result.heap ≡ heap }
    ensures caller { AreNewPasses ports.old number result }
{
    let Room {
        mut journal,
        mut rx,
        mut tx,
    } = room;
    let memory = ports.memory.deal();
    let service = ports.service.deal();
    deal_each(&mut ports.journal, &mut journal, number);
    deal_each(&mut ports.rx, &mut rx, number);
    deal_each(&mut ports.tx, &mut tx, number);
    Caller {
        heap,
        memory,
        service,
        journal,
        rx,
        tx,
        patience: Patience::of(number),
    }
}

// The callers with the numbers from 0.
pub(crate) fn deal_all<X: Law>(
    heap: &Heap,
    ports: &mut Ports<X>,
    passes: &mut Vec<HeapPass>,
    mut rooms: Vec<Room>,
    callers: &mut Vec<Caller<X>>,
    count: u32,
)
    requires count { (length rooms.items ≡ count) × (count ≤ 64) }
    requires left { HaveLeft count ports.old }
    requires rooms { (length ports.old.tx.items ≡ length ports.old.rx.items) × All (IsRoom (length ports.old.journal.items) (length ports.old.rx.items)) rooms.items }
    requires passes { (count ≤ length passes.old.items) × All (λ p. p ≡ new_pass heap.now) passes.old.items }
    requires callers { (callers.old.items ≡ []) × (count ≤ vec_capacity callers.old) }
    ensures left { HaveLeft 0 ports.new }
    ensures same { AreSamePorts ports.old ports.new }
    ensures passes { (length passes.new.items + count ≡ length passes.old.items) × All (λ p. p ≡ new_pass heap.now) passes.new.items × (vec_capacity passes.new ≡ vec_capacity passes.old) }
    ensures callers { (length callers.new.items ≡ count) × AreNewCallers (whole_of heap.now ports.old count) 0 callers.new.items }
{
    let _ = heap;
    let _ = count;
    while let Some(room) = rooms.pop() {
        let number = rooms.len() as u32;
        match passes.pop() {
            Some(heap) => callers.push_reserved(deal_one(ports, heap, room, number)),
            None => unreachable!(),
        }
    }
    callers.reverse();
}
