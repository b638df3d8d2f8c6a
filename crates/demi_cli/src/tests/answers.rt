// What is answered and logged where nothing fails, in pieces of several lengths.
use super::in_memory::{Left, PUTS_AND_GETS, Setup, THEIR_LOG, on_an_empty_log, run_of};
use std::alloc::Global;
use std::sync::Wait;
use std::test::Fail;
use std::thread::Threads;

// How many bytes a source gives at most in one read: each, and all.
const PIECES: [usize; 6] = [1, 2, 3, 7, 4096, 100_000];

// A run of `pipe` over an input that comes in pieces of this length.
fn run_in_pieces<R: Threads + Wait + Sync>(
    rt: &R,
    alloc: Global,
    input: &[u8],
    piece: usize,
) -> Result<Left, Fail> {
    let cut = Setup {
        piece,
        ..on_an_empty_log(input)
    };
    run_of(rt, alloc, &["pipe", "L"], &cut)
}

// How many bytes are left of an input of which so many are looked at, when it comes in pieces of this length.
fn left_behind(input: &[u8], looked_at: usize, piece: usize) -> usize {
    let reads = looked_at.div_ceil(piece.max(1));
    input.len().saturating_sub(reads.saturating_mul(piece))
}

const THEIR_REPLIES: &[u8] =
    b"\x81\x00\x00\x00\x00\x00\x00\x00\x00\x01\x00\x00\x00\x00\x00\x00\x00\x01\x00\x00\x00\x011\x82\x00\x00\x00\x00\x00\x00\x00\x00\x02\x00\x00\x00\x00\x00\x00\x00\x01\x00\x00\x00\x011\x81\x00\x00\x00\x00\x00\x00\x00\x00\x03\x00\x00\x00\x00\x00\x00\x00\x02\x00\x00\x00\x012\x82\x00\x00\x00\x00\x00\x00\x00\x00\x04\x00\x00\x00\x00\x00\x00\x00\x02\x00\x00\x00\x012\x85\x00\x00\x00\x00\x00\x00\x00\x00\x05\x00\x00\x00\x00\x00\x00\x00\x00\x00\x00\x00\x00";

#[test]
fn requests_are_answered_and_logged(rt: HostRuntime) -> Result<(), Fail> {
    let rows: [(&str, &[u8], usize, &[u8], &[u8]); 6] = [
        (
            "a put",
            b"\x01\x01\x00\x00\x00\x01a1",
            8,
            b"\x81\x00\x00\x00\x00\x00\x00\x00\x00\x01\x00\x00\x00\x00\x00\x00\x00\x01\x00\x00\x00\x011",
            b"DEMILOG1\x00\x00\x00\x09\x00\x00\x00\x00\x00\x00\x01a1",
        ),
        ("nothing", b"", 0, b"", b"DEMILOG1"),
        (
            "a get of a missing key",
            b"\x02\x01\x00\x00\x00\x00b",
            7,
            b"\x83\x00\x00\x00\x00\x00\x00\x00\x00\x01\x00\x00\x00\x00\x00\x00\x00\x00\x00\x00\x00\x00",
            b"DEMILOG1",
        ),
        (
            "puts, gets and an end frame",
            PUTS_AND_GETS,
            36,
            THEIR_REPLIES,
            THEIR_LOG,
        ),
        (
            "an empty value",
            b"\x01\x01\x00\x00\x00\x00b\x02\x01\x00\x00\x00\x00b",
            14,
            b"\x81\x00\x00\x00\x00\x00\x00\x00\x00\x01\x00\x00\x00\x00\x00\x00\x00\x01\x00\x00\x00\x00\x82\x00\x00\x00\x00\x00\x00\x00\x00\x02\x00\x00\x00\x00\x00\x00\x00\x01\x00\x00\x00\x00",
            b"DEMILOG1\x00\x00\x00\x08\x00\x00\x00\x00\x00\x00\x01b",
        ),
        (
            "an end frame and more",
            b"\x03\x00\x00\x00\x00\x00\x01\x01\x00\x00\x00\x01a1",
            6,
            b"\x85\x00\x00\x00\x00\x00\x00\x00\x00\x01\x00\x00\x00\x00\x00\x00\x00\x00\x00\x00\x00\x00",
            b"DEMILOG1",
        ),
    ];
    for (name, input, looked_at, output, log) in rows {
        for piece in PIECES {
            let left = run_in_pieces(&rt, rt.alloc(), input, piece)?;
            assert_eq!(rt; left.status, 0, "{name}");
            assert_eq!(rt; left.output.as_slice(), output, "{name}");
            assert_eq!(rt; left.log.as_slice(), log, "{name}");
            assert_eq!(rt; left.rest, left_behind(input, looked_at, piece), "{name}");
            assert_eq!(rt; left.warned.len(), 0, "{name}");
        }
    }
    Ok(())
}

#[test]
fn refused_frames_are_answered_with_their_codes(rt: HostRuntime) -> Result<(), Fail> {
    let rows: [(&str, &[u8], usize, &[u8], &[u8], &[u8]); 8] = [
        (
            "too long a value",
            b"\x01\x01\x00\x01\x00\x01",
            6,
            b"\x84\x00\x00\x00\x00\x00\x00\x00\x00\x01\x00\x00\x00\x00\x00\x00\x00\x00\x00\x00\x00\x01\x03",
            b"DEMILOG1",
            b"demi: link 0 refused with code 3",
        ),
        (
            "no such kind",
            b"\x09\x00\x00\x01\x00\x01",
            6,
            b"\x84\x00\x00\x00\x00\x00\x00\x00\x00\x01\x00\x00\x00\x00\x00\x00\x00\x00\x00\x00\x00\x01\x01",
            b"DEMILOG1",
            b"demi: link 0 refused with code 1",
        ),
        (
            "no key",
            b"\x01\x00\x00\x01\x00\x01",
            6,
            b"\x84\x00\x00\x00\x00\x00\x00\x00\x00\x01\x00\x00\x00\x00\x00\x00\x00\x00\x00\x00\x00\x01\x02",
            b"DEMILOG1",
            b"demi: link 0 refused with code 2",
        ),
        (
            "too long a value of a get",
            b"\x02\x01\x00\x01\x00\x01",
            6,
            b"\x84\x00\x00\x00\x00\x00\x00\x00\x00\x01\x00\x00\x00\x00\x00\x00\x00\x00\x00\x00\x00\x01\x03",
            b"DEMILOG1",
            b"demi: link 0 refused with code 3",
        ),
        (
            "a get with a value",
            b"\x02\x01\x00\x00\x00\x01a1",
            6,
            b"\x84\x00\x00\x00\x00\x00\x00\x00\x00\x01\x00\x00\x00\x00\x00\x00\x00\x00\x00\x00\x00\x01\x04",
            b"DEMILOG1",
            b"demi: link 0 refused with code 4",
        ),
        (
            "an end frame with a key",
            b"\x03\x01\x00\x00\x00\x00",
            6,
            b"\x84\x00\x00\x00\x00\x00\x00\x00\x00\x01\x00\x00\x00\x00\x00\x00\x00\x00\x00\x00\x00\x01\x04",
            b"DEMILOG1",
            b"demi: link 0 refused with code 4",
        ),
        (
            "a head that is cut off",
            b"\x01\x01\x00\x00\x00\x01a1\x01\x01\x00",
            11,
            b"\x81\x00\x00\x00\x00\x00\x00\x00\x00\x01\x00\x00\x00\x00\x00\x00\x00\x01\x00\x00\x00\x011\x84\x00\x00\x00\x00\x00\x00\x00\x00\x02\x00\x00\x00\x00\x00\x00\x00\x00\x00\x00\x00\x01\x05",
            b"DEMILOG1\x00\x00\x00\x09\x00\x00\x00\x00\x00\x00\x01a1",
            b"demi: link 0 refused with code 5",
        ),
        (
            "content that is cut off",
            b"\x01\x02\x00\x00\x00\x03ab1",
            9,
            b"\x84\x00\x00\x00\x00\x00\x00\x00\x00\x01\x00\x00\x00\x00\x00\x00\x00\x00\x00\x00\x00\x01\x05",
            b"DEMILOG1",
            b"demi: link 0 refused with code 5",
        ),
    ];
    for (name, input, looked_at, output, log, warned) in rows {
        for piece in PIECES {
            let left = run_in_pieces(&rt, rt.alloc(), input, piece)?;
            assert_eq!(rt; left.status, 6, "{name}");
            assert_eq!(rt; left.output.as_slice(), output, "{name}");
            assert_eq!(rt; left.log.as_slice(), log, "{name}");
            assert_eq!(rt; left.rest, left_behind(input, looked_at, piece), "{name}");
            assert_eq!(rt; left.warned.as_slice(), warned, "{name}");
        }
    }
    Ok(())
}
