//! What the devices of a session are made of.
use demi_core::Disk;
use demi_heap::HeapPass;
use demi_memq::MemLaw;
use demi_pdpix::Seats;
use demi_port::DeviceSeat;
use demi_store::{StoreEngine, StoreLaw};
use demi_streamq::{RxLaw, TxLaw};

/// How many tokens each port of a session has.
pub(crate) const TOKENS: u32 = 64;

// The seat of a port's device with its pass of the heap.
pub(crate) type MemSeat = (DeviceSeat<MemLaw>, HeapPass);

pub(crate) type RxSeat = (DeviceSeat<RxLaw>, HeapPass);

pub(crate) type TxSeat = (DeviceSeat<TxLaw>, HeapPass);

/// What the devices are made of: the links by place, the store, and the seats of all ports.
pub(crate) struct Parts<I, O, D: Disk> {
    pub(crate) links: Vec<(I, O)>,
    pub(crate) store: StoreEngine<D>,
    pub(crate) seats: Seats<StoreLaw>,
}

/// What the two devices of one link are made of.
pub(crate) struct LinkParts<I, O> {
    pub(crate) input: I,
    pub(crate) output: O,
    pub(crate) rx: RxSeat,
    pub(crate) tx: TxSeat,
}
