ghost use Rattle.demi_logq.specs.Answers.{Admits, IsProper, is_stop, told_by};

use crate::base::LogBase;
use crate::op::LogOp;
use crate::out::LogOut;
use crate::told::LogTold;
use demi_port_core::Law;

/// The law of a log's queue.
///
/// An operation says itself. A port of this law stands on the payloads that the log had, its limit, its heap, and whether its disk
/// tells its bytes; where it does not, the bytes of an item are free, but not their number. An outcome tells that the disk failed, or
/// that no slot was found; all else is bound by the operations below its place. Nothing pends.
pub struct LogLaw;

impl Law for LogLaw {
    type Op = LogOp;

    type Out = LogOut;

    type Said = LogOp;

    type Told = LogTold;

    type Base = LogBase;

    ghost said = { λ op. op };

    ghost proper = { IsProper };

    ghost told = { told_by };

    ghost admits = { Admits };

    ghost may_pend = { λ _ _. ⊥ };

    ghost stops = { is_stop };

    ghost use Rattle.demi_logq.specs.Steady.{admits_steady};

    ghost steady = { admits_steady };
}
