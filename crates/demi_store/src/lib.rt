//! The store: what was put under each key, and the log that has every put.
//!
//! [`StoreCore`] stands on a log: it reads the entries that are there as records, appends each put as one more, and keeps in memory
//! which entry has the last record of each key. The values stay on the disk: a get is one look-up and one read of just the value,
//! straight into the caller's room. It answers as the one-thread store over lists does.
//! [`StoreAsk`] and [`StoreOut`] are the operations of the store and what they come to, and [`StoreLaw`] is the law of a port that
//! serves them. [`StoreEngine`] serves such a port: each operation is answered in its own call, and what came with it goes back.
//! The layer above may rely on exact answers, on one append for each record, and on a refused put changing nothing but,
//! where the disk failed, the end of the disk.
//! Not promised: of a value that a disk which does not tell its bytes gives back, anything but its length; and that memory is found.
#![tactic(auto)]

mod answer;
mod ask;
mod back;
mod base;
mod desk;
mod drafting;
mod engine;
mod index;
mod law;
mod marks;
mod op;
mod opening;
mod out;
mod records;
mod shelf;
mod store_core;
#[cfg(test)]
mod tests;
mod told;

pub use answer::StoreAnswer;
pub use ask::StoreAsk;
pub use back::Back;
pub use base::StoreBase;
pub use engine::StoreEngine;
pub use law::StoreLaw;
pub use op::StoreOp;
pub use out::StoreOut;
pub use store_core::StoreCore;
pub use told::StoreTold;
