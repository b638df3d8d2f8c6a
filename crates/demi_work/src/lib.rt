//! Work of many, done beside each other.
//!
//! A [`Job`] is work that a thread does to its end; the jobs of a [`Crew`] are done beside each other, and once all have ended the first
//! one does the last of the work for all. [`work_all`] runs all of a session beside each other, and only there threads are started.
//! The layer above may rely on this: what runs beside each other comes to what each comes to by itself.
//! Not promised: that threads can be started. Where one cannot, its work is done before or after the rest, and who waits for it waits
//! for ever.
#![tactic(auto)]

mod both;
mod crew;
mod job;

pub use both::Both;
pub use crew::work_all;
pub use job::{Crew, Job};
