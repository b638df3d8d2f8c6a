use demi_port_core::Basis;
use std::marker::{Brand, Model};

/// What a port of the store stands on: the records that its log had at the making of its engine, how many there may be, and whether
/// the disk tells its bytes. No value of it is made.
pub struct StoreBase {}

impl Model for StoreBase {
    ghost use Rattle.demi_store.specs.Laws.{StoreBasis, no_store};

    ghost Value = { StoreBasis };

    ghost view = { λ _. no_store };
}

/// A call at `Brand` picks the base of one of its arguments.
impl Basis<StoreBase> for Brand {
    ghost use Rattle.demi_store.specs.Laws.{no_store};

    ghost base = { no_store };
}
