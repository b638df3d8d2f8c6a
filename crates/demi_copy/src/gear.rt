//! All that a copy has beside its ports and its heap.
use crate::carrier::Carrier;
use demi_core::{Sink, Source};
use demi_heap::HeapPass;
use demi_port::DeviceSeat;
use demi_streamq::{RxLaw, TxLaw};

// The source and the sink, what their devices need, and what the thread that carries has.
pub(crate) struct Gear<S: Source, T: Sink> {
    pub(crate) source: S,
    pub(crate) reads: HeapPass,
    pub(crate) seat_in: DeviceSeat<RxLaw>,
    pub(crate) sink: T,
    pub(crate) writes: HeapPass,
    pub(crate) seat_out: DeviceSeat<TxLaw>,
    pub(crate) carrier: Carrier,
}
