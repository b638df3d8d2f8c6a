//! A port.
use crate::tables::Tables;
use demi_bell::{Bell, Bells};
use demi_port_core::Law;
use std::alloc::Global;
use std::marker::Model;
use std::sync::Arc;

/// Tokens for operations, 1 to 64 of them. The operations stand in one history. Any number of threads may share it, each with a pass of its own.
pub struct Port<L: Law> {
    pub(crate) tables: Tables<L>,
    // Where the device sleeps, which a submit rings.
    pub(crate) device: Bell,
    // Where callers sleep, which a finish rings.
    pub(crate) callers: Arc<Bells, Global>,
    // How often the device lets other threads run before it sleeps.
    pub(crate) yields: u32,
}

impl<L: Law> Model for Port<L> {
    ghost use Rattle.demi_port.specs.Seen.{PortId};

    ghost Value = { PortId L.Base };

    ghost view = { λ p. record { tokens = p.tables.table.shared.table_id; key = p.tables.table.shared.key } };
}
