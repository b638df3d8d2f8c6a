//! How far a worker's work has come.
use arrayvec::ArrayVec;
use demi_context::Context;
use demi_pdpix::Caller;
use demi_store::StoreLaw;
use demi_worker::{Ended, Worker};

/// How far a worker's work has come.
pub(crate) enum Stage<'h> {
    /// It has not begun.
    Ready(Worker<Context<'h>>),
    /// It is done: the caller is there again, with what became of its links.
    Done(Caller<StoreLaw>, ArrayVec<Ended, 64>),
    /// It goes on.
    Between,
}
