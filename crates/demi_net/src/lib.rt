//! The real things of the outside: standard input and output, connections, files, and the world of a program that has them.
//!
//! [`RealWorld`] is what a program is started in. It gives its links as a [`StreamIn`] and a [`StreamOut`], over the standard
//! streams or over a TCP connection, and its logs as a [`FileLog`] each; a program that needs no world makes these by itself.
//! The layer above may rely on the clauses of the traits of the outside: each object raises its own count of faults where a call to the
//! system failed or it would pass its limit, and at no other place, and a call that the system interrupted is made again.
//! Not promised: what a stream or a file holds. None of these tells its bytes.
#![tactic(auto)]

mod connections;
mod draining;
mod file_log;
mod inlet;
mod once;
mod outlet;
mod past;
mod standard;
mod stream_in;
mod stream_out;
#[cfg(test)]
mod tests;
mod world;

pub use file_log::FileLog;
pub use stream_in::StreamIn;
pub use stream_out::StreamOut;
pub use world::RealWorld;
