//! A session: a link is served over a log until it has ended.
//!
//! [`session`] opens the log as a store, makes the ports and a device for each, serves the link by one worker beside the devices,
//! stops and closes all, and hands everything back with the ends of all ports ([`SessionEnd`]). A [`Station`] is a device at its port, whose
//! work is to serve until it was stopped. [`outcome_of`] says how a session ended, by how its links ended.
//! The layer above may rely on this: devices are made of their parts in their places, each link's with its own source, sink and
//! seats; a refusal gives all parts back; and what comes back after a run is what was made, run to the end of its service. The law
//! says what a session comes to once its ports are closed.
//! Not promised: that a refused call is ever taken, that anything that waits goes on, and that threads can be started. Where one
//! cannot, its work is done before or after the rest, and who waits for it waits for ever.
#![tactic(auto)]

mod devices;
mod ending;
mod hand;
mod home;
mod linking;
mod logs;
mod opening;
mod outcome;
mod over;
mod parts;
mod plan;
mod running;
mod serving;
mod shutting;
mod station;
#[cfg(test)]
mod tests;
mod whole;

pub use ending::a_session_of_one_link_ends;
pub use outcome::{Outcome, outcome_of};
pub use plan::Plan;
pub use station::Station;
pub use whole::{SessionEnd, session};
