//! The program `demi_copy`: it copies its standard input to its standard output through a receiving and a sending port.
//!
//! Two devices, each in a thread of its own, serve the real input and output. The main thread pops a piece, pushes it as an
//! array whose other half it gives up at once, and goes on until the input ends or one side fails. No byte is copied between
//! the two: a piece is read into a page of the heap, and written from that page.
//! Proved of [`copy`], over any source and any sink: it keeps the conditions of the ports, their devices and the heap, stops
//! both devices, and closes both ports with each operation redeemed.
//! Not said by a clause, but tested: that what is written is what was read. Not promised: what the real input gives and what
//! the real output keeps, and that memory is found.
#![tactic(auto)]

mod carrier;
mod carrying;
mod closing;
mod copying;
mod crew;
mod gear;
mod outcome;
mod over_ports;
mod ports;
#[cfg(test)]
mod tests;
mod waiting;

use crate::copying::{Copied, copy};
use demi_net::{StreamIn, StreamOut};
use std::process::ExitCode;

fn main(rt: HostRuntime) -> ExitCode {
    let source = StreamIn::new(rt.stdin());
    let sink = StreamOut::new(rt.stdout());
    let Copied {
        source: _,
        sink: _,
        outcome,
    } = copy(&rt, rt.alloc(), source, sink);
    if let Some(text) = outcome.text() {
        let _ = eprintln!(rt; "demi_copy: {text}");
    }
    ExitCode::from(outcome.status())
}
