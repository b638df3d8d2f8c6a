ghost use Rattle.demi_streamq.specs.Receiving.{IsFit, IsFrom, RxAdmits, is_stop, told};

use crate::base::StreamBase;
use crate::{RxOp, RxOut, RxTold};
use demi_port_core::Law;

/// The law of a receiving port.
///
/// A port of this law stands on the heap of its pieces. An outcome tells the bytes of a piece, an end, a fault with its number, or
/// that no page was free; what is admitted is counted from the history and from what was told at lower places. No place may
/// pend.
pub struct RxLaw;

impl Law for RxLaw {
    type Op = RxOp;

    type Out = RxOut;

    type Said = RxOp;

    type Told = RxTold;

    type Base = StreamBase;

    ghost said = { λ op. op };

    ghost proper = { λ _ op. IsFit op };

    ghost told = { told };

    ghost admits = { λ b h t p o. RxAdmits h t p o × IsFrom b o };

    ghost may_pend = { λ _ _. ⊥ };

    ghost stops = { is_stop };

    ghost use Rattle.demi_streamq.specs.RxSteady.{steady_on};

    ghost steady = { λ b h more t later p o x is above. steady_on b h more t later p o x is above };
}
