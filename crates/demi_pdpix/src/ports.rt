//! All ports of a whole.
use crate::lane::Lane;
use demi_logq::LogLaw;
use demi_memq::MemLaw;
use demi_port::DeviceSeat;
use demi_port_core::Law;
use demi_streamq::{RxLaw, TxLaw};

// The ports. There is one for a log or none, and one of each kind for each link.
pub(crate) struct Ports<X: Law> {
    pub(crate) memory: Lane<MemLaw>,
    pub(crate) service: Lane<X>,
    pub(crate) journal: Vec<Lane<LogLaw>>,
    pub(crate) rx: Vec<Lane<RxLaw>>,
    pub(crate) tx: Vec<Lane<TxLaw>>,
}

// The seats of their devices.
pub(crate) struct PortSeats<X: Law> {
    pub(crate) memory: DeviceSeat<MemLaw>,
    pub(crate) service: DeviceSeat<X>,
    pub(crate) journal: Vec<DeviceSeat<LogLaw>>,
    pub(crate) rx: Vec<DeviceSeat<RxLaw>>,
    pub(crate) tx: Vec<DeviceSeat<TxLaw>>,
}
