//! What serves the operations of a port.
//!
//! An `Engine` serves operations one after another by their places, and adds outcomes, some of them later. Its law is in the
//! trait: which outcomes may come, which operations may wait, and what a stop ends. A `Device` joins an engine to a port: each
//! turn takes what rang, keeps what came early, serves all that is next, and finishes what the engine added.
//! The layer above may rely on this: the engine is served the port's history in the order of places, without a gap, and the
//! port's operations are finished exactly as the engine says, each once; each outcome is admitted by all that was served and told.
//! A turn looks at the doorbells and serves each operation that is at hand; it waits for nothing and takes no memory. A device may
//! go to another thread where its engine may.
//! Not promised: when an operation that may wait gets its outcome, and when an operation that was submitted rings.
#![tactic(auto)]

mod device;
mod done;
mod early;
mod engine;
mod fetching;
mod finishing;
mod inbox;
mod mark;
#[cfg(test)]
mod tests;
mod turn;
mod turning;

pub use device::Device;
pub use done::Done;
pub use engine::Engine;
pub use mark::Mark;
pub use turn::Turn;
