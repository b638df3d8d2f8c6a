//! The coroutine that serves one link: it reads requests through a decoder, asks the store, and pushes the replies.
//!
//! [`Link`] is a coroutine over any [`Calls`]: the calls of one worker at its queues, which are those of a library operating
//! system, each for one link. Contracts see of a worker's part in a link its `Sight`: the passes of the store's port and of
//! the link's two ports, for what sequence numbers were drawn, how many buffers are out, and how many tokens are due.
//! The layer above may rely on this: between two polls a link's phase agrees with its passes (`Fits`), whatever the other
//! links of its worker do; what it was fed is what its receiving port gave, each request that its decoder handed out is asked
//! once and in order, each reply is the answer of its request with the number that was drawn for it, and each push is the
//! spelling of one reply. A poll waits only for a token of its own, is to be polled again only where a claim or a submission
//! was refused, and ends only for what is said why. The laws say what that comes to at a link's end.
//! Memory is taken in [`Link::make`] alone. Not promised: anything of a link that its worker lost, and that a refused call is
//! ever taken.
#![tactic(auto)]

mod answering;
mod asking;
mod buffers;
mod calls;
mod desk;
mod giving;
mod laws;
mod link;
mod notes;
mod phase;
mod plainly;
mod poll;
mod reading;
mod sending;
mod stand;
mod talk;

pub use calls::{Calls, NoToken};
pub use laws::{
    a_link_keeps_its_replies, a_new_link_fits, an_ended_link_asked_what_it_was_fed,
    an_ended_link_heard_why, an_ended_link_owes_nothing, an_ended_link_popped_all,
    an_ended_link_read_what_was_due, an_ended_link_wrote,
};
pub use link::{Link, LinkEnd};
pub use phase::{Cause, Draft, Kind, Phase};
pub use talk::Talk;
