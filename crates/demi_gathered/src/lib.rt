//! What the workers of a session listed of their links, gathered by the numbers of these links once all ports are closed.
//!
//! The laws take what the clauses of workers, of the sharing of links and of closed ports say, and say what the session came to.
//! No function here does anything: each is a law about plain data.
#![tactic(auto)]

mod gathering;

pub use gathering::a_crew_served;
