//! What the devices get, and what is left.
use demi_heap::{HeapEnd, HeapPass};
use demi_logq::LogLaw;
use demi_memq::MemLaw;
use demi_port::{DeviceSeat, PortEnd};
use demi_port_core::Law;
use demi_streamq::{RxLaw, TxLaw};

/// For the device of each port its seat and a pass of the heap. They are given back at `Demi::close`.
pub struct Seats<X: Law> {
    pub memory: (DeviceSeat<MemLaw>, HeapPass),
    pub service: (DeviceSeat<X>, HeapPass),
    pub journal: Option<(DeviceSeat<LogLaw>, HeapPass)>,
    pub rx: Vec<(DeviceSeat<RxLaw>, HeapPass)>,
    pub tx: Vec<(DeviceSeat<TxLaw>, HeapPass)>,
}

/// The ends of all ports and of the heap.
#[derive(Drop)]
pub struct DemiEnd<X: Law> {
    pub memory: PortEnd<MemLaw>,
    pub service: PortEnd<X>,
    pub journal: Option<PortEnd<LogLaw>>,
    pub rx: Vec<PortEnd<RxLaw>>,
    pub tx: Vec<PortEnd<TxLaw>>,
    pub heap: HeapEnd,
}
