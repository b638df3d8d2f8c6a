//! How a worker of a session serves its links: it takes each in, serves them until all have ended, and is taken apart again.
//!
//! The layer above may rely on this: what [`serve_links`] hands back names each link that it was given once, and no other; each was
//! served to the end that stands there, none was lost, and nothing is owed for any; for no other link the worker did anything, and
//! nothing at the port of the memory queues. A worker that was given no link is taken apart at once.
//! Memory is taken where a link is taken in, and nowhere else. Not promised: that a link ever ends, and so that the call returns.
#![tactic(auto)]

mod lost;
mod serving;
mod taking;

pub use serving::serve_links;
