//! The loop of one worker, which serves its links until each has ended.
//!
//! A [`Worker`] takes links in and then polls their coroutines round by round, over any calls that can also wait and stop
//! ([`Serves`]). Each link that has ended is listed with its cause and what it did, and both of its ports are stopped.
//! The layer above may rely on this: each link that was taken in is listed once, and no other; by what the worker had for it at
//! its end it was served until it was over for that cause, so that the laws of `demi_link` hold of it; and of that nothing
//! changes afterwards but that its ports are stopped. A link for whose decoder no memory is had is listed too, as one that
//! never began. A worker waits only after a round that polled nobody.
//! Memory is taken in [`Worker::take_in`] alone. Not promised: that a link ever ends.
#![tactic(auto)]

mod ended;
mod had;
mod laws;
mod listing;
mod serves;
mod serving;
mod taking;
#[cfg(test)]
mod tests;
mod worker;

pub use ended::Ended;
pub use had::Had;
pub use laws::{a_left_link_stays_new, a_served_link_keeps_its_replies, calls_of_anyone_leave_all};
pub use serves::Serves;
pub use worker::Worker;
