//! Queues over sources and sinks: what is read from a link comes by place as pieces, and what is pushed is written by place.
//!
//! `RxOp` and `RxOut` are the operations on a receiving port and what they come to, `RxLaw` is its law, and `RxEngine` serves it: a
//! pop reads its source once, into a page of the heap itself. `TxOp`, `TxOut`, `TxLaw` and `TxEngine` are the same of a sending
//! port: a push writes its segments from the device halves themselves, the rest of each with the next one where there is one.
//! The layer above may rely on this: the pieces by place, joined, are the bytes that the source gave, and the bytes that were
//! written are those of the pushes by place, of a failed one just as many as its outcome says. An end, a fault and a missing
//! slot are told only with their cause, and after an end, a fault or a stop nothing is read or written. What an engine did over
//! some calls is its `goes`: which reads were made, which bytes were given and written, and what the heap pass has claimed and ended.
//! Not promised: how many bytes a piece has, but that it has one and no more than were asked; how many bytes one write takes; and
//! how long a read or a write waits. No call takes memory.
#![tactic(auto)]

mod base;
mod rx_answering;
mod rx_engine;
mod rx_heard;
mod rx_law;
mod rx_op;
mod rx_out;
mod rx_reading;
mod rx_told;
#[cfg(test)]
mod tests;
mod tx_answering;
mod tx_engine;
mod tx_heard;
mod tx_law;
mod tx_op;
mod tx_out;
mod tx_writing;

pub use base::StreamBase;
pub use rx_engine::RxEngine;
pub use rx_law::RxLaw;
pub use rx_op::RxOp;
pub use rx_out::RxOut;
pub use rx_told::RxTold;
pub use tx_engine::TxEngine;
pub use tx_law::TxLaw;
pub use tx_op::TxOp;
pub use tx_out::TxOut;
