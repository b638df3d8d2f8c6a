//! Request frames and reply heads.
//!
//! [`Decoder`] takes the bytes of a link in whatever pieces they come, and hands out exactly the requests that they
//! spell, up to the end frame or the first frame that is refused. [`reply_head`] makes the first bytes of a reply.
//! The other way round, [`write_request`] makes the frame of a request, and [`read_reply`] reads a reply back.
//! The layers above may rely on [`Decoder::feed`], [`Decoder::next`] and [`Decoder::finish`] for that sentence: each
//! says how it carries on what was fed and what was handed out.
//! Not promised: a limit on how many bytes a link may send.
#![tactic(auto)]

mod decoder;
mod head;
mod key;
mod read_back;
mod reply;
mod request;
#[cfg(test)]
mod tests;

pub use decoder::{Decoder, Step};
pub use key::Key;
pub use read_back::{ReplyRefusal, read_reply};
pub use reply::{BYE, FOUND, FULL, MISSING, REFUSED, Reply, STORED, reply_head};
pub use request::{Request, write_request};
