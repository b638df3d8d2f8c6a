//! The heap and all ports.
ghost use Rattle.std.specs.Prelude.{◌≡◌, ◌-◌, ◌%◌, ◌/◌, ◌<◌, ◌≤◌, IfNone, IfSome, [], ◌∷◌, length, slice_index_or};
ghost use Rattle.demi_pdpix.specs.Kinds.{kind_of, side_of};

use crate::kind::PortKind;
use crate::ports::Ports;
use demi_bell::Bells;
use demi_heap::{Heap, HeapPass};
use demi_logq::LogLaw;
use demi_memq::MemLaw;
use demi_port::{Port, PortEnd};
use demi_port_core::Law;
use demi_streamq::{RxLaw, TxLaw};
use std::alloc::Global;
use std::marker::Model;
use std::sync::Arc;

/// A heap, a port of memory queues, a service of the law `X`, a port for the queue of a log where the plan has one, and for
/// each link a port that receives and one that sends. Threads share it, each with a caller of its own.
///
/// A contract sees the heap, the ports and the number of callers. All of it stays as it is from `make` to `close`.
pub struct Demi<X: Law> {
    pub(crate) heap: Heap,
    pub(crate) ports: Ports<X>,
    // What a finish at any of the ports rings.
    pub(crate) bells: Arc<Bells, Global>,
    // Room for what comes back at the end.
    pub(crate) passes: Vec<HeapPass>,
    pub(crate) rx_ends: Vec<PortEnd<RxLaw>>,
    pub(crate) tx_ends: Vec<PortEnd<TxLaw>>,
    pub(crate) callers: u32,
}

impl<X: Law> Model for Demi<X> {
    ghost use Rattle.std.specs.Prelude.{◌≡◌, ◌≤◌, [], map, length, vec_capacity};
    ghost use Rattle.demi_pdpix.specs.Seen.{DemiId};
    ghost use Rattle.demi_pdpix.specs.Lanes.{port_of};
    ghost use Rattle.demi_pdpix.specs.Making.{AreDealt};

    ghost Value = { DemiId X.Base };

    ghost view = { λ d. record { heap = d.heap; memory = d.ports.memory.port; service = d.ports.service.port; journal = map port_of d.ports.journal.items; rx = map port_of d.ports.rx.items; tx = map port_of d.ports.tx.items; callers = d.callers } };

    ghost invariant = { λ d. AreDealt d.heap d.callers d.ports × (d.passes.items ≡ []) × (d.heap.shape.passes ≤ vec_capacity d.passes)
        × (d.rx_ends.items ≡ []) × (length d.ports.rx.items ≤ vec_capacity d.rx_ends) × (d.tx_ends.items ≡ []) × (length d.ports.tx.items ≤ vec_capacity d.tx_ends) };
}

impl<X: Law> Demi<X> {
    /// The heap of all arrays.
    pub fn heap(&self) -> &Heap
        ensures { result.now ≡ self.now.heap }
    {
        &self.heap
    }

    /// The port of the memory queues, with the number 0.
    pub fn memory(&self) -> &Port<MemLaw>
        ensures { result.now ≡ self.now.memory }
    {
        &self.ports.memory.port
    }

    /// The service, with the number 1.
    pub fn service(&self) -> &Port<X>
        ensures { result.now ≡ self.now.service }
    {
        &self.ports.service.port
    }

    /// The port of the log's queue, with the number 2, where the plan has a log.
    pub fn journal(&self) -> Option<&Port<LogLaw>>
        ensures some { IfSome result (λ p. self.now.journal ≡ p.now ∷ []) }
        ensures none { IfNone result (self.now.journal ≡ []) }
    {
        match self.ports.journal.get(0) {
            Some(lane) => Some(&lane.port),
            None => None,
        }
    }

    /// The port that receives from link k, with the number `3 + 2k`.
    pub fn rx(&self, k: u32) -> &Port<RxLaw>
        requires { k < length self.now.rx }
        ensures { result.now ≡ slice_index_or self.now.rx k result.now }
    {
        &self.ports.rx[k as usize].port
    }

    /// The port that sends to link k, with the number `4 + 2k`.
    pub fn tx(&self, k: u32) -> &Port<TxLaw>
        requires { k < length self.now.tx }
        ensures { result.now ≡ slice_index_or self.now.tx k result.now }
    {
        &self.ports.tx[k as usize].port
    }

    /// What the port with this number is.
    pub fn kind(&self, port: u16) -> PortKind
        ensures { result ≡ kind_of self.now port }
    {
        if port == 0 {
            return PortKind::Memory;
        }
        if port == 1 {
            return PortKind::Service;
        }
        if port == 2 {
            return self.journal_kind();
        }
        self.link_kind(port)
    }

    // Whether there is a port for a log.
    fn journal_kind(&self) -> PortKind
        ensures { result ≡ kind_of self.now 2 }
    {
        if self.ports.journal.len() > 0 {
            PortKind::Journal
        } else {
            PortKind::Nowhere
        }
    }

    // Which side of which link a port from 3 on is.
    fn link_kind(&self, port: u16) -> PortKind
        requires { 3 ≤ port }
        ensures { result ≡ side_of self.now ((port - 3) % 2) ((port - 3) / 2) }
    {
        let k = (port as u32 - 3) / 2;
        if (port as u32 - 3) % 2 == 0 {
            if (k as usize) < self.ports.rx.len() {
                PortKind::Receiving(k)
            } else {
                PortKind::Nowhere
            }
        } else if (k as usize) < self.ports.tx.len() {
            PortKind::Sending(k)
        } else {
            PortKind::Nowhere
        }
    }
}
