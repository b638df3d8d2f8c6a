//! How threads sleep until there is something to do, and how others wake them.
//!
//! A thread that found nothing to do listens at its bell, looks once more, and only then sleeps. Whoever has made
//! something to do rings afterwards, which is one load where nobody listens. No wake is lost: all steps on these words
//! and on the words that are looked at are sequentially consistent. If the ring's load comes after the sleeper's store
//! it finds a listener and wakes it; else what was made came before that load, so before the sleeper's last look, which
//! finds it.
//!
//! No clause speaks of a wake: a bell says only that it is worth while to look. A patience says how many looks in a row
//! were in vain. A sleep may end for no reason, and
//! how soon a woken thread runs is the system's.
#![tactic(auto)]

mod bell;
mod bells;
mod patience;
#[cfg(test)]
mod tests;

pub use bell::Bell;
pub use bells::{Bells, MAX_SLEEPERS};
pub use patience::{Patience, SPINS, YIELDS};
