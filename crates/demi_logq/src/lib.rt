//! A log: entries that are appended to a disk, read back and cut.
//!
//! `Log` reads any disk as a log text, or gives an empty one its header, and then appends, reads and cuts entries by
//! their number. Its clauses say what the disk holds, where it tells its bytes, and which calls of the disk were made:
//! an entry is appended by one append, and a cut is one cut.
//! `LogOp` and `LogOut` are the operations of a log's queue and what they come to, and `LogLaw` is the law of a port that serves
//! them: a fold over the payloads and a cursor. `LogEngine` serves such a port: each operation is answered in its own call, its clauses
//! say which calls of the disk each one made, and no device half gets lost in it.
//! Not promised: that a disk keeps what was appended to it once the program has ended.
#![tactic(auto)]

mod ahead;
mod appending;
mod base;
mod engine;
mod find;
mod item;
mod law;
mod log;
mod marks;
mod op;
mod opening;
mod out;
mod queue;
mod reading;
mod refusal;
mod sizes;
mod staging;
#[cfg(test)]
mod tests;
mod told;

pub use ahead::Ahead;
pub use base::LogBase;
pub use engine::LogEngine;
pub use law::LogLaw;
pub use log::Log;
pub use op::LogOp;
pub use out::LogOut;
pub use refusal::LogRefusal;
pub use sizes::MAX_PAYLOAD_BYTES;
pub use told::LogTold;
