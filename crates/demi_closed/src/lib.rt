//! What the closed ports of a session show of each link, each reply and each record.
//!
//! The laws take what the clauses of ports, devices, coroutines and workers say once all ports are closed, and say what that comes
//! to: what was read of each link and written to it, that each reply and each record is accounted for by the history of the store's
//! port, and that the session served as the store on one thread does.
//! No function here does anything: each is a law about plain data. Not promised: anything of a link that its worker lost.
#![tactic(auto)]

mod closing;
mod many;
mod reading;

pub use closing::{
    a_link_that_was_done_left_no_torn_entry, a_served_link_closes, a_session_of_one_link_closes,
};
pub use many::a_session_closes;
pub use reading::a_served_link_made_only_due_reads;
