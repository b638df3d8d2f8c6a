//! What requests, replies, log texts, records and answers are, as plain definitions over lists of bytes.
//!
//! The crate has no code that runs: contracts of the crates above cite `specs/`. Each law about the definitions is the
//! contract of a function that does nothing, and `proofs/Examples.antt` computes worked examples on them.
#![tactic(auto)]

mod laws;

pub use laws::{
    a_log_text_has_one_reading, a_log_text_is_read_back, a_text_has_one_reading,
    no_reply_begins_another, what_was_answered_stays,
};
