//! What the coroutines of one worker of a session are polled with.
//!
//! [`Context`] makes the calls of a worker's links at the library's face, with the worker's own caller, and keeps for contracts what
//! each of them came to, link by link: it is the `Calls`, the `Scanner` and the `Serves` of a worker whose service is the store.
//! [`stop_shared`] stops what all workers share; [`hold`] is for what never comes.
//! The layer above may rely on this: a call is the one of its link that it says, at that link's ports alone; the sequence numbers
//! of a worker are 1, 2 and so on in the order of its draws; once no token of any link is due, the caller can go back to its whole.
//! Not promised: that a refused call is ever taken, and that anything that waits goes on.
#![tactic(auto)]

mod context;
mod holding;
mod stopping;

pub use context::{Context, Ledger};
pub use holding::hold;
pub use stopping::stop_shared;
