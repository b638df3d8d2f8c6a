// What stands where a source, a sink or a disk fails, or the input ends early.
use super::in_memory::{Left, PUTS_AND_GETS, Setup, on_an_empty_log, run_of};
use std::alloc::Global;
use std::sync::Wait;
use std::test::Fail;
use std::thread::Threads;

// The bytes taken, written and logged, and the status, where these calls of the three fail.
fn faulty<R: Threads + Wait + Sync>(
    rt: &R,
    alloc: Global,
    reads: &[u64],
    writes: &[u64],
    appends: &[u64],
) -> Result<((usize, usize, usize), u8, Vec<u8>), Fail> {
    let faults = Setup {
        piece: 8,
        failing_reads: reads,
        failing_writes: writes,
        failing_appends: appends,
        ..on_an_empty_log(PUTS_AND_GETS)
    };
    let left = run_of(rt, alloc, &["pipe", "L"], &faults)?;
    let Left {
        status,
        said: _,
        warned,
        output,
        log,
        rest,
        asked: _,
    } = left;
    let sizes = (PUTS_AND_GETS.len() - rest.min(36), output.len(), log.len());
    Ok((sizes, status, warned))
}

#[test]
fn a_source_that_fails_a_read(rt: HostRuntime) -> Result<(), Fail> {
    let rows = [
        (0, (0, 0, 8), 2),
        (1, (8, 23, 21), 2),
        (2, (16, 46, 21), 2),
        (3, (24, 69, 34), 2),
        (4, (32, 92, 34), 2),
        (5, (36, 114, 34), 0),
    ];
    for (read, sizes, status) in rows {
        let (left, ended, warned) = faulty(&rt, rt.alloc(), &[read], &[], &[])?;
        assert_eq!(rt; left, sizes, "read {read}");
        assert_eq!(rt; ended, status, "read {read}");
        let text = if status == 2 {
            b"demi: read fault on link 0".as_slice()
        } else {
            b""
        };
        assert_eq!(rt; warned.as_slice(), text, "read {read}");
    }
    Ok(())
}

#[test]
fn a_sink_that_fails_a_write(rt: HostRuntime) -> Result<(), Fail> {
    let rows = [
        (0, 8, 0, 21, 3),
        (1, 8, 22, 21, 3),
        (2, 16, 23, 21, 3),
        (3, 16, 45, 21, 3),
        (4, 24, 46, 34, 3),
        (5, 24, 68, 34, 3),
        (6, 32, 69, 34, 3),
        (7, 32, 91, 34, 3),
        (8, 36, 92, 34, 3),
        (9, 36, 114, 34, 0),
    ];
    for (write, taken, written, logged, status) in rows {
        let (left, ended, warned) = faulty(&rt, rt.alloc(), &[], &[write], &[])?;
        assert_eq!(rt; left.0, taken, "write {write}");
        assert_eq!(rt; left.1, written, "write {write}");
        assert_eq!(rt; left.2, logged, "write {write}");
        assert_eq!(rt; ended, status, "write {write}");
        let text = if status == 3 {
            b"demi: write fault on link 0".as_slice()
        } else {
            b""
        };
        assert_eq!(rt; warned.as_slice(), text, "write {write}");
    }
    Ok(())
}

#[test]
fn a_disk_that_fails_an_append(rt: HostRuntime) -> Result<(), Fail> {
    let rows = [
        (0, 0, 0, 0, 4),
        (1, 8, 0, 8, 4),
        (2, 24, 46, 21, 4),
        (3, 36, 114, 34, 0),
    ];
    for (append, taken, written, logged, status) in rows {
        let (left, ended, warned) = faulty(&rt, rt.alloc(), &[], &[], &[append])?;
        assert_eq!(rt; left.0, taken, "append {append}");
        assert_eq!(rt; left.1, written, "append {append}");
        assert_eq!(rt; left.2, logged, "append {append}");
        assert_eq!(rt; ended, status, "append {append}");
        let text = if status == 4 {
            b"demi: log fault".as_slice()
        } else {
            b""
        };
        assert_eq!(rt; warned.as_slice(), text, "append {append}");
    }
    Ok(())
}

#[test]
fn an_input_cut_anywhere(rt: HostRuntime) -> Result<(), Fail> {
    for length in 0..=36usize {
        let cut = Setup {
            piece: 8,
            ..on_an_empty_log(&PUTS_AND_GETS[..length.min(PUTS_AND_GETS.len())])
        };
        let left = run_of(&rt, rt.alloc(), &["pipe", "L"], &cut)?;
        let whole = [0, 8, 15, 23, 30, 36].contains(&length);
        let text = if whole {
            b"".as_slice()
        } else {
            b"demi: link 0 refused with code 5"
        };
        assert_eq!(rt; left.status, if whole { 0 } else { 6 }, "cut at {length}");
        assert_eq!(rt; left.warned.as_slice(), text, "cut at {length}");
        assert_eq!(rt; left.rest, 0, "cut at {length}");
    }
    Ok(())
}

#[test]
fn a_sink_that_fails_between_two_replies(rt: HostRuntime) -> Result<(), Fail> {
    let two = Setup {
        failing_writes: &[2],
        ..on_an_empty_log(b"\x01\x01\x00\x00\x00\x01a1\x01\x01\x00\x00\x00\x01a2")
    };
    let left = run_of(&rt, rt.alloc(), &["pipe", "L"], &two)?;
    assert_eq!(rt; left.status, 3);
    assert_eq!(rt; left.rest, 0);
    assert_eq!(rt;
        left.output.as_slice(),
        b"\x81\x00\x00\x00\x00\x00\x00\x00\x00\x01\x00\x00\x00\x00\x00\x00\x00\x01\x00\x00\x00\x011".as_slice()
    );
    assert_eq!(rt;
        left.log.as_slice(),
        b"DEMILOG1\x00\x00\x00\x09\x00\x00\x00\x00\x00\x00\x01a1\x00\x00\x00\x09\x00\x00\x00\x00\x00\x01\x01a2".as_slice()
    );
    Ok(())
}
