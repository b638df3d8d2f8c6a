ghost use Rattle.std.specs.Prelude.{◌≡◌, None, Some};
ghost use Rattle.demi_memq.specs.Counting.{result_at};
ghost use Rattle.demi_memq.specs.Said.{IsFrom, IsProper, is_stop, op_said, out_said};

use crate::base::MemBase;
use crate::op::MemOp;
use crate::out::MemOut;
use demi_port_core::Law;

/// The law of memory queues.
///
/// An operation says what it is, and of an array the heap, slot, class and bytes of each half. A port of this law stands on the
/// heap of its arrays, and each array that comes out is of it. Nothing is told of the outside: what is admitted is counted from the history alone.
pub struct MemLaw;

impl Law for MemLaw {
    type Op = MemOp;

    type Out = MemOut;

    type Said = MemOp;

    type Told = ();

    type Base = MemBase;

    ghost said = { op_said };

    ghost proper = { IsProper };

    ghost told = { λ _. None };

    ghost admits = { λ b h _ p o. (result_at 1024 h p ≡ Some (out_said o)) × IsFrom b o };

    ghost may_pend = { λ h p. result_at 1024 h p ≡ None };

    ghost stops = { is_stop };

    ghost use Rattle.demi_memq.specs.Steady.{admits_steady};

    ghost steady = { λ b h more t later p o x is above. admits_steady (IsFrom b o) (IsFrom b x) 1024 h more p (out_said o) (out_said x) is };
}
