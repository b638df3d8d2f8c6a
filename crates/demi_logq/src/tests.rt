// Logs over disks in memory.
mod queue;

use crate::{Log, LogRefusal};
use demi_core::MemDisk;
use std::alloc::Global;
use std::test::Fail;

// How a disk with these bytes opens: the number of its entries, or why it does not.
fn opened(alloc: Global, bytes: &[u8]) -> Result<Result<u64, LogRefusal>, Fail> {
    if bytes.len() > 100 {
        return Err(Fail::from("a test's log is short"));
    }
    let Ok(disk) = MemDisk::make(alloc, bytes, 100, Vec::new(alloc)) else {
        return Err(Fail::from("no memory"));
    };
    match Log::make(alloc, disk, 10) {
        Ok(log) => {
            let count = log.count();
            let _ = log.disk();
            Ok(Ok(count))
        }
        Err((_, refusal)) => Ok(Err(refusal)),
    }
}

// A log of two entries, of 9 and of 9 bytes.
const TWO: &[u8] =
    b"DEMILOG1\x00\x00\x00\x09\x00\x00\x00\x00\x00\x00\x01a1\x00\x00\x00\x09\x00\x00\x00\x00\x00\x02\x01a2";

#[test]
fn a_log_that_is_cut_anywhere(rt: HostRuntime) -> Result<(), Fail> {
    for length in 0..=TWO.len() {
        let how = opened(rt.alloc(), &TWO[..length])?;
        let expected = match length {
            0 | 8 => Ok(0),
            21 => Ok(1),
            34 => Ok(2),
            1..8 => Err(LogRefusal::BadLog(0)),
            9..21 => Err(LogRefusal::BadLog(8)),
            _ => Err(LogRefusal::BadLog(21)),
        };
        assert!(rt; how == expected, "cut at {length}");
    }
    Ok(())
}

#[test]
fn a_log_with_a_byte_of_a_length_changed(rt: HostRuntime) -> Result<(), Fail> {
    // The place, the byte, and what is answered.
    let rows = [
        (0, b'd', Err(LogRefusal::BadLog(0))),
        (7, b'2', Err(LogRefusal::BadLog(0))),
        (8, 1, Err(LogRefusal::BadLog(8))),
        (9, 1, Err(LogRefusal::BadLog(8))),
        (10, 1, Err(LogRefusal::BadLog(8))),
        (11, 0, Err(LogRefusal::BadLog(8))),
        (11, 8, Err(LogRefusal::BadLog(20))),
        (11, 10, Err(LogRefusal::BadLog(22))),
        (11, 22, Ok(1)),
        (11, 23, Err(LogRefusal::BadLog(8))),
        (21, 1, Err(LogRefusal::BadLog(21))),
        (22, 1, Err(LogRefusal::BadLog(21))),
        (23, 1, Err(LogRefusal::BadLog(21))),
        (24, 0, Err(LogRefusal::BadLog(21))),
        (24, 8, Err(LogRefusal::BadLog(33))),
        (24, 10, Err(LogRefusal::BadLog(21))),
    ];
    for (at, byte, expected) in rows {
        let mut bytes = TWO.to_vec(rt.alloc())?;
        if let Some(place) = bytes.get_mut(at) {
            *place = byte;
        }
        let how = opened(rt.alloc(), &bytes)?;
        assert!(rt; how == expected, "the byte {byte} at {at}");
    }
    Ok(())
}
