//! Scatter-gather arrays: 1 to 8 segments of a heap, in three forms that contracts see as the same list of halves.
//!
//! An application's array is lent as a `LentSga` and a `DevSga`, and comes back by `rejoin` or `reclaim`. The layer above
//! may rely on this: the list of segments, with their slots and bytes, is the same in all three forms, each says that it
//! has 1 to 8, and parts and wholes are of the heap that the array was of. The numbers of the pass rise once per segment,
//! and a refused call has the cause that `demi_heap` gives it, at steps of that very call. No call takes memory, and none
//! waits.
#![tactic(auto)]

mod app;
mod dev;
mod lent;
mod moves;
mod row;
#[cfg(test)]
mod tests;

pub use app::AppSga;
pub use dev::DevSga;
pub use lent::{LentSga, StillHeld};
pub use moves::{SgaRefusal, free_app, free_lent, lend, reclaim, rejoin, release, sgaalloc};
