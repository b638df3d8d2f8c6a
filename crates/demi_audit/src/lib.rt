//! The auditor's tools: random inputs, what a link is told that is served alone, and a check of a whole session.
//!
//! [`generate`] makes the inputs of links from a number, exactly as its definition says. [`client`] answers one input on a log text as
//! the one-thread store does: it gives the replies and the text that is left, without any part of the system that it is
//! compared with but the decoder. [`check`] reads the transcript of a session and says whether one store explains it, or else its
//! first fault, as the auditor's rules in `specs/` name it; [`the_verdict_is_whole`] is their law: they name no fault exactly
//! where the session was whole. [`count_requests`] counts what an input asks, and [`summary`] is the line that sums up the inputs
//! and the log of a bench. Nothing here starts a thread, and every call returns.
//! Inside, `transcript` and `entries` read the text, `hearing` and `ask` what was replied and asked; `places`, `ahead` and
//! `turns` judge the sequence numbers of workers, `past`, `book` and `replying` the answers by the records of the log,
//! `falling` the versions along a link; `judging`, `each_link` and `each_record` put these together in order.
//! Not promised: anything about time, and that memory is found.
#![tactic(auto)]

mod ahead;
mod ask;
mod book;
mod checking;
#[cfg(test)]
mod checking_tests;
mod dealing;
mod draws;
mod each_link;
mod each_record;
mod entries;
mod falling;
mod heard;
mod hearing;
mod input_reader;
mod judging;
mod laws;
mod one_link;
mod past;
mod places;
mod replying;
mod summing;
#[cfg(test)]
mod tests;
mod text_store;
mod transcript;
mod turns;
mod values;

pub use checking::{CheckEnd, CheckRefusal, check};
pub use dealing::generate;
pub use laws::the_verdict_is_whole;
pub use one_link::client;
pub use summing::{MAX_SUMMARY_BYTES, Tally, count_requests, summary};
