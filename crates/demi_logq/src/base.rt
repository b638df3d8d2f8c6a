use demi_port_core::Basis;
use std::marker::{Brand, Model};

/// What a port of a log's queue stands on: the payloads of the log's entries at the making of its engine, the log's limit, the heap
/// of its arrays, and whether the disk tells its bytes. No value of it is made.
pub struct LogBase {}

impl Model for LogBase {
    ghost use Rattle.demi_logq.specs.Answers.{LogBasis, no_log};

    ghost Value = { LogBasis };

    ghost view = { λ _. no_log };
}

/// A call at `Brand` picks the base of one of its arguments.
impl Basis<LogBase> for Brand {
    ghost use Rattle.demi_logq.specs.Answers.{no_log};

    ghost base = { no_log };
}
