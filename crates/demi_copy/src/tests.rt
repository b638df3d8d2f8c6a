//! Copies over sources and sinks in memory.
use crate::copying::{Copied, copy};
use crate::outcome::Outcome;
use demi_core::{MemSink, MemSource};
use std::alloc::{AllocError, Global};
use std::test::Fail;

// A source's piece and its failing read, a sink's room and its failing write, and how a copy ends and how much it writes.
struct Row {
    piece: usize,
    read_fails: Option<u64>,
    room: usize,
    write_fails: Option<u64>,
    outcome: Outcome,
    written: usize,
}

const ROWS: [Row; 4] = [
    Row {
        piece: 5000,
        read_fails: None,
        room: 20_000,
        write_fails: None,
        outcome: Outcome::Whole,
        written: 10_000,
    },
    Row {
        piece: 700,
        read_fails: Some(3),
        room: 20_000,
        write_fails: None,
        outcome: Outcome::ReadFault,
        written: 2100,
    },
    Row {
        piece: 700,
        read_fails: None,
        room: 20_000,
        write_fails: Some(2),
        outcome: Outcome::WriteFault,
        written: 1400,
    },
    Row {
        piece: 5000,
        read_fails: None,
        room: 4500,
        write_fails: None,
        outcome: Outcome::WriteFault,
        written: 4500,
    },
];

fn calls(alloc: Global, call: Option<u64>) -> Result<Vec<u64>, AllocError> {
    let mut calls = Vec::new(alloc);
    if let Some(call) = call {
        calls.push(call)?;
    }
    Ok(calls)
}

#[test]
fn what_is_written_is_a_front_of_what_is_read(rt: HostRuntime) -> Result<(), Fail> {
    let alloc = rt.alloc();
    let mut bytes = [0u8; 10_000];
    for (at, byte) in bytes.iter_mut().enumerate() {
        *byte = (at % 251) as u8;
    }
    for (number, row) in ROWS.iter().enumerate() {
        let source = MemSource::make(
            bytes.to_vec(alloc)?,
            row.piece,
            calls(alloc, row.read_fails)?,
        );
        let fails = calls(alloc, row.write_fails)?;
        let Ok(sink) = MemSink::make(alloc, row.room, 5000, fails) else {
            return Err(Fail::from("no memory"));
        };
        let Copied {
            source: _,
            sink,
            outcome,
        } = copy(&rt, alloc, source, sink);
        assert_eq!(rt; outcome, row.outcome, "row {number}");
        assert_eq!(rt; sink.bytes().len(), row.written, "row {number}");
        assert!(rt; bytes.starts_with(sink.bytes()), "row {number}");
    }
    Ok(())
}
