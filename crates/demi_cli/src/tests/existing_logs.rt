// Runs over a log that is there already.
use super::in_memory::{Left, PUTS_AND_GETS, Setup, THEIR_LOG, on_an_empty_log, run_of};
use std::alloc::Global;
use std::sync::Wait;
use std::test::Fail;
use std::thread::Threads;

const GET_A: &[u8] = b"\x02\x01\x00\x00\x00\x00a";

const PUT_THEN_GET: &[u8] =
    b"\x01\x01\x00\x00\x00\x01b9\x02\x01\x00\x00\x00\x00a\x02\x01\x00\x00\x00\x00b";

// What it is answered over a log of two records that has the value 2 for a.
const ITS_REPLIES: &[u8] =
    b"\x81\x00\x00\x00\x00\x00\x00\x00\x00\x01\x00\x00\x00\x00\x00\x00\x00\x03\x00\x00\x00\x019\x82\x00\x00\x00\x00\x00\x00\x00\x00\x02\x00\x00\x00\x00\x00\x00\x00\x03\x00\x00\x00\x012\x82\x00\x00\x00\x00\x00\x00\x00\x00\x03\x00\x00\x00\x00\x00\x00\x00\x03\x00\x00\x00\x019";

const ITS_LOG: &[u8] =
    b"DEMILOG1\x00\x00\x00\x09\x00\x00\x00\x00\x00\x00\x01a1\x00\x00\x00\x09\x00\x00\x00\x00\x00\x02\x01a2\x00\x00\x00\x09\x00\x00\x00\x00\x00\x00\x01b9";

// A run of `pipe` over this log.
fn run_over<R: Threads + Wait + Sync>(
    rt: &R,
    alloc: Global,
    old_log: &[u8],
    input: &[u8],
) -> Result<Left, Fail> {
    let used = Setup {
        old_log,
        ..on_an_empty_log(input)
    };
    run_of(rt, alloc, &["pipe", "L"], &used)
}

#[test]
fn a_log_is_used_again(rt: HostRuntime) -> Result<(), Fail> {
    let one = b"DEMILOG1\x00\x00\x00\x09\x00\x00\x00\x00\x00\x00\x01a1";
    let rows: [(&str, &[u8], &[u8], &[u8], &[u8]); 4] = [
        (
            "a get of an old record",
            one,
            GET_A,
            b"\x82\x00\x00\x00\x00\x00\x00\x00\x00\x01\x00\x00\x00\x00\x00\x00\x00\x01\x00\x00\x00\x011",
            one,
        ),
        (
            "a get of the later of two",
            THEIR_LOG,
            GET_A,
            b"\x82\x00\x00\x00\x00\x00\x00\x00\x00\x01\x00\x00\x00\x00\x00\x00\x00\x02\x00\x00\x00\x012",
            THEIR_LOG,
        ),
        (
            "a log without records",
            b"DEMILOG1",
            GET_A,
            b"\x83\x00\x00\x00\x00\x00\x00\x00\x00\x01\x00\x00\x00\x00\x00\x00\x00\x00\x00\x00\x00\x00",
            b"DEMILOG1",
        ),
        (
            "a put on top",
            THEIR_LOG,
            PUT_THEN_GET,
            ITS_REPLIES,
            ITS_LOG,
        ),
    ];
    for (name, old_log, input, output, log) in rows {
        let left = run_over(&rt, rt.alloc(), old_log, input)?;
        assert_eq!(rt; left.status, 0, "{name}");
        assert_eq!(rt; left.output.as_slice(), output, "{name}");
        assert_eq!(rt; left.log.as_slice(), log, "{name}");
        assert_eq!(rt; left.rest, 0, "{name}");
    }
    Ok(())
}

#[test]
fn a_log_is_used_by_one_run_after_another(rt: HostRuntime) -> Result<(), Fail> {
    let first = run_over(&rt, rt.alloc(), b"", PUTS_AND_GETS)?;
    assert_eq!(rt; first.log.as_slice(), THEIR_LOG);
    let second = run_over(&rt, rt.alloc(), &first.log, PUT_THEN_GET)?;
    assert_eq!(rt; second.output.as_slice(), ITS_REPLIES);
    assert_eq!(rt; second.log.as_slice(), ITS_LOG);
    let third = run_over(&rt, rt.alloc(), &second.log, b"\x02\x01\x00\x00\x00\x00b")?;
    assert_eq!(rt; third.status, 0);
    assert_eq!(rt;
        third.output.as_slice(),
        b"\x82\x00\x00\x00\x00\x00\x00\x00\x00\x01\x00\x00\x00\x00\x00\x00\x00\x03\x00\x00\x00\x019".as_slice()
    );
    assert_eq!(rt; third.log.as_slice(), ITS_LOG);
    Ok(())
}

#[test]
fn a_log_that_is_cut_anywhere(rt: HostRuntime) -> Result<(), Fail> {
    for length in 0..=34usize {
        let torn = &THEIR_LOG[..length.min(THEIR_LOG.len())];
        let left = run_over(&rt, rt.alloc(), torn, GET_A)?;
        let (status, text, rest): (u8, &[u8], usize) = match length {
            0 | 8 | 21 | 34 => (0, b"", 0),
            1..8 => (7, b"demi: bad log at byte 0", 7),
            9..21 => (7, b"demi: bad log at byte 8", 7),
            _ => (7, b"demi: bad log at byte 21", 7),
        };
        assert_eq!(rt; left.status, status, "cut at {length}");
        assert_eq!(rt; left.warned.as_slice(), text, "cut at {length}");
        assert_eq!(rt; left.rest, rest, "cut at {length}");
        let kept: &[u8] = if length == 0 { b"DEMILOG1" } else { torn };
        assert_eq!(rt; left.log.as_slice(), kept, "cut at {length}");
    }
    Ok(())
}

#[test]
fn a_log_that_is_no_text_of_records(rt: HostRuntime) -> Result<(), Fail> {
    let rows: [(&str, &[u8], &[u8]); 6] = [
        ("another header", b"DEMILOG2", b"demi: bad log at byte 0"),
        (
            "an entry of no bytes",
            b"DEMILOG1\x00\x00\x00\x00",
            b"demi: bad log at byte 8",
        ),
        (
            "an entry that is too long",
            b"DEMILOG1\x00\x01\x01\x07\x00",
            b"demi: bad log at byte 8",
        ),
        (
            "a record without a key",
            b"DEMILOG1\x00\x00\x00\x08\x00\x00\x00\x00\x00\x00\x00a",
            b"demi: bad log at byte 8",
        ),
        (
            "a second record that ends in its key",
            b"DEMILOG1\x00\x00\x00\x09\x00\x00\x00\x00\x00\x00\x01a1\x00\x00\x00\x09\x00\x00\x00\x00\x00\x02\x03a2",
            b"demi: bad log at byte 21",
        ),
        (
            "a torn entry behind what is no record",
            b"DEMILOG1\x00\x00\x00\x08\x00\x00\x00\x00\x00\x00\x00a\x00\x00\x00\x09\x00",
            b"demi: bad log at byte 20",
        ),
    ];
    for (name, log, text) in rows {
        let left = run_over(&rt, rt.alloc(), log, GET_A)?;
        assert_eq!(rt; left.status, 7, "{name}");
        assert_eq!(rt; left.warned.as_slice(), text, "{name}");
        assert_eq!(rt; left.rest, 7, "{name}");
        assert_eq!(rt; left.output.len(), 0, "{name}");
        assert_eq!(rt; left.log.as_slice(), log, "{name}");
    }
    Ok(())
}

#[test]
fn a_log_whose_calls_fail(rt: HostRuntime) -> Result<(), Fail> {
    // Six looks open the log before the link is taken, six once it was, and each get is one more.
    let looks: [(u64, usize, usize, usize, u8); 15] = [
        (0, 22, 0, 34, 4),
        (1, 22, 0, 34, 4),
        (2, 22, 0, 34, 4),
        (3, 22, 0, 34, 4),
        (4, 22, 0, 34, 4),
        (5, 22, 0, 34, 4),
        (6, 22, 0, 34, 4),
        (7, 22, 0, 34, 4),
        (8, 22, 0, 34, 4),
        (9, 22, 0, 34, 4),
        (10, 22, 0, 34, 4),
        (11, 22, 0, 34, 4),
        (12, 0, 23, 47, 4),
        (13, 0, 46, 47, 4),
        (14, 0, 69, 47, 0),
    ];
    for (look, rest, written, logged, status) in looks {
        let faulty = Setup {
            old_log: THEIR_LOG,
            failing_looks: &[look],
            ..on_an_empty_log(PUT_THEN_GET)
        };
        let left = run_of(&rt, rt.alloc(), &["pipe", "L"], &faulty)?;
        assert_eq!(rt; left.status, status, "look {look}");
        assert_eq!(rt; left.rest, rest, "look {look}");
        assert_eq!(rt; left.output.len(), written, "look {look}");
        assert_eq!(rt; left.asked.is_some(), look >= 12, "look {look}");
        assert_eq!(rt; left.log.len(), logged, "look {look}");
    }
    let failed = Setup {
        old_log: THEIR_LOG,
        failing_appends: &[0],
        ..on_an_empty_log(PUT_THEN_GET)
    };
    let left = run_of(&rt, rt.alloc(), &["pipe", "L"], &failed)?;
    assert_eq!(rt; left.status, 4);
    assert_eq!(rt; left.output.len(), 0);
    assert_eq!(rt; left.log.as_slice(), THEIR_LOG);
    let unsaid = Setup {
        old_log: THEIR_LOG,
        failing_writes: &[2],
        ..on_an_empty_log(PUT_THEN_GET)
    };
    let left = run_of(&rt, rt.alloc(), &["pipe", "L"], &unsaid)?;
    assert_eq!(rt; left.status, 3);
    assert_eq!(rt; left.output.len(), 23);
    assert_eq!(rt; left.log.as_slice(), ITS_LOG);
    Ok(())
}
