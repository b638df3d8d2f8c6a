//! The workers of a session: hired with a caller and a bench each, set to work, and taken apart.
//!
//! [`Places`] are what they need memory for; [`hire_all`] makes a [`Hand`] for each, which takes up a share of the links and serves
//! these, and of which the first at the last stops what all share; [`part_all`] gives back each one's caller with what became of its links.
//! The layer above may rely on this: hands come and go in the order of their numbers, each with its own caller.
//! Not promised: that anything that waits goes on.
#![tactic(auto)]

mod bench;
mod hand;
mod hiring;
mod places;

pub use bench::Bench;
pub use hand::Hand;
pub use hiring::{hire_all, part_all};
pub use places::Places;
