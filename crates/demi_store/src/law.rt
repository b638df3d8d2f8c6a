ghost use Rattle.demi_store.specs.Laws.{Admits, IsProper, is_stop, told_of};

use crate::base::StoreBase;
use crate::told::StoreTold;
use crate::{StoreAsk, StoreOut};
use demi_port_core::Law;

/// The law of the store.
///
/// An operation says itself. A port of this law stands on the records that the log had, on how many there may be, and on whether the
/// disk tells its bytes; where it does not, the bytes of a value that is found are free, but not their number. An outcome tells that
/// the disk failed, or that memory was refused; all else is what the one-thread store answers after the operations below its place.
/// Nothing pends.
pub struct StoreLaw;

impl Law for StoreLaw {
    type Op = StoreAsk;

    type Out = StoreOut;

    type Said = StoreAsk;

    type Told = StoreTold;

    type Base = StoreBase;

    ghost said = { λ ask. ask };

    ghost proper = { IsProper };

    ghost told = { told_of };

    ghost admits = { Admits };

    ghost may_pend = { λ _ _. ⊥ };

    ghost stops = { is_stop };

    ghost use Rattle.demi_store.specs.Steady.{admits_steady};

    ghost steady = { admits_steady };
}
