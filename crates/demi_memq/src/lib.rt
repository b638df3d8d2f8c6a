//! Queues of arrays in memory: the k-th pop that a queue accepts gets the k-th push that it accepts.
//!
//! `MemOp` and `MemOut` are the operations and what they come to, and `MemLaw` is the law of a port that serves them: which
//! outcome an operation has is counted from the operations before it, and for a pop also from those after it.
//! The layer above may rely on this: each place has at most one outcome that is admitted, and it never changes once it is
//! there. A pop may wait; nothing else does. `MemEngine` serves a port of this law: its outcomes are exactly those, and no device
//! half gets lost in it.
//! Not promised: when a pop that waits is answered, and the time that serving takes. It does not grow with what waits: each queue
//! has a chain of its own.
#![tactic(auto)]

mod base;
mod chains;
mod emptying;
mod engine;
mod heard;
mod law;
mod nodes;
mod op;
mod out;
mod queues;
mod serving;
#[cfg(test)]
mod tests;

pub use base::MemBase;
pub use engine::MemEngine;
pub use law::MemLaw;
pub use op::MemOp;
pub use out::MemOut;
