//! How far a worker's work has come.
use crate::bench::Bench;
use arrayvec::ArrayVec;
use demi_pdpix::Caller;
use demi_port_core::QToken;
use demi_store::StoreLaw;
use demi_worker::Ended;

/// How far a worker's work has come.
pub(crate) enum Stage<'h> {
    /// It has not begun: the caller, with the token by which it asked for the queue of the links' numbers, if it did.
    Ready(Caller<StoreLaw>, Option<QToken>, Bench<'h>),
    /// It is done: the caller is there again, with what became of its links.
    Done(Caller<StoreLaw>, ArrayVec<Ended, 64>),
    /// It goes on.
    Between,
}
