//! How the links of a session are shared out to its workers: by their numbers, through queue 0 of the memory queues.
//!
//! `open_queue` asks for the queue by the first worker's caller, behind which the others' calls then stand. `take_up` is each
//! worker's part: the first pushes the number of each link and closes the queue, and each pops until it is told that it is
//! closed. What it gives is just what its pops got, and its caller did nothing else.
//!
//! Where the port of the memory queues is closed, and each worker's pass did what a worker does there, each link has
//! exactly one worker, and it is the one that noted the link's number. It is not promised that a worker ever gets a link,
//! nor that `take_up` returns.
#![tactic(auto)]

mod closing;
mod dealing;
mod opening;
mod redeeming;
mod taking;

pub use closing::a_closed_port_shared_out;
pub use opening::{ask_for_queue, learn_of_queue, open_queue};
pub use taking::take_up;
