//! What a thread calls with.
use demi_bell::Patience;
use demi_heap::HeapPass;
use demi_logq::LogLaw;
use demi_memq::MemLaw;
use demi_port::PortPass;
use demi_port_core::Law;
use demi_streamq::{RxLaw, TxLaw};
use std::marker::Model;

/// A pass of each port and of the heap. It is given back at `Demi::close`.
#[derive(Drop)]
pub struct Caller<X: Law> {
    pub(crate) heap: HeapPass,
    pub(crate) memory: PortPass<MemLaw>,
    pub(crate) service: PortPass<X>,
    // One where there is a log, and else none.
    pub(crate) journal: Vec<PortPass<LogLaw>>,
    pub(crate) rx: Vec<PortPass<RxLaw>>,
    pub(crate) tx: Vec<PortPass<TxLaw>>,
    // How long it has waited at the bells that all ports ring.
    pub(crate) patience: Patience,
}

impl<X: Law> Model for Caller<X> {
    ghost use Rattle.std.specs.Prelude.{◌≡◌, length, vec_len};
    ghost use Rattle.demi_pdpix.specs.Seen.{CallerValue};

    ghost Value = { CallerValue X.Said X.Told X.Base };

    ghost view = { λ c. record { heap = c.heap; memory = c.memory; service = c.service; journal = c.journal.items; rx = c.rx.items; tx = c.tx.items } };

    ghost invariant = { λ c. (vec_len c.journal ≡ length c.journal.items) × (vec_len c.rx ≡ length c.rx.items) × (vec_len c.tx ≡ length c.tx.items) };
}
