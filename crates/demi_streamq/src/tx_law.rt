ghost use Rattle.demi_streamq.specs.Sending.{IsProper, TxAdmits, is_stop, told};

use crate::base::StreamBase;
use crate::{TxOp, TxOut};
use demi_port_core::Law;

/// The law of a sending port.
///
/// A port of this law stands on the heap of its arrays. A fault tells how many bytes of its push were written; what is admitted is
/// counted from the history and from what was told at lower places. No place may pend.
pub struct TxLaw;

impl Law for TxLaw {
    type Op = TxOp;

    type Out = TxOut;

    type Said = TxOp;

    type Told = u64;

    type Base = StreamBase;

    ghost said = { λ op. op };

    ghost proper = { IsProper };

    ghost told = { told };

    ghost admits = { λ _ h t p o. TxAdmits h t p o };

    ghost may_pend = { λ _ _. ⊥ };

    ghost stops = { is_stop };

    ghost use Rattle.demi_streamq.specs.TxSteady.{tx_steady};

    ghost steady = { λ b h more t later p o x is above. tx_steady h more t later p o x is above };
}
