// Logs that are listed.
use super::in_memory::{Left, Setup, THEIR_LOG, on_an_empty_log, run_of};
use std::alloc::Global;
use std::sync::Wait;
use std::test::Fail;
use std::thread::Threads;

// A list of this log, where these looks of the disk fail and so many bytes are printed at most.
fn list_of<R: Threads + Wait + Sync>(
    rt: &R,
    alloc: Global,
    words: &[&str],
    old_log: &[u8],
    failing_looks: &[u64],
    print_room: usize,
) -> Result<Left, Fail> {
    let listed = Setup {
        old_log,
        failing_looks,
        print_room,
        ..on_an_empty_log(b"not read")
    };
    run_of(rt, alloc, words, &listed)
}

const THEIR_LINES: &[u8] =
    b"1 link 0 index 0 key 61 value 1\n2 link 0 index 2 key 61 value 1\nrecords 2\n";

// The records of another program: a link, an index and a key of several bytes, and values of no bytes and of twelve.
const OTHER_LOG: &[u8] =
    b"DEMILOG1\x00\x00\x00\x08\xff\xff\xff\xff\xff\xff\x01\xa0\x00\x00\x00\x16\x01\x02\x01\x02\x03\x04\x03\x00\xffztwelve bytes";

const OTHER_LINES: &[u8] =
    b"1 link 65535 index 4294967295 key a0 value 0\n2 link 258 index 16909060 key 00ff7a value 12\nrecords 2\n";

#[test]
fn a_log_is_listed(rt: HostRuntime) -> Result<(), Fail> {
    let rows: [(&str, &[&str], &[u8], &[u64], usize, u8, &[u8], &[u8]); 16] = [
        (
            "two records",
            &["log", "L"],
            THEIR_LOG,
            &[],
            100,
            0,
            THEIR_LINES,
            b"",
        ),
        (
            "large numbers",
            &["log", "L"],
            OTHER_LOG,
            &[],
            200,
            0,
            OTHER_LINES,
            b"",
        ),
        (
            "an empty file",
            &["log", "L"],
            b"",
            &[],
            100,
            0,
            b"records 0\n",
            b"",
        ),
        (
            "no records",
            &["log", "L"],
            b"DEMILOG1",
            &[],
            100,
            0,
            b"records 0\n",
            b"",
        ),
        (
            "another header",
            &["log", "L"],
            b"DEMILOG2",
            &[],
            100,
            7,
            b"",
            b"demi: bad log at byte 0",
        ),
        (
            "torn in the second",
            &["log", "L"],
            &THEIR_LOG[..33],
            &[],
            100,
            7,
            b"",
            b"demi: bad log at byte 21",
        ),
        (
            "no key in the second",
            &["log", "L"],
            b"DEMILOG1\x00\x00\x00\x08\x00\x00\x00\x00\x00\x00\x01a\x00\x00\x00\x08\x00\x00\x00\x00\x00\x00\x00a",
            &[],
            100,
            7,
            b"",
            b"demi: bad log at byte 20",
        ),
        (
            "an output that is full",
            &["log", "L"],
            THEIR_LOG,
            &[],
            40,
            3,
            b"",
            b"demi: write fault on output",
        ),
        (
            "an output that takes nothing",
            &["log", "L"],
            b"",
            &[],
            0,
            3,
            b"",
            b"demi: write fault on output",
        ),
        (
            "the first look fails",
            &["log", "L"],
            THEIR_LOG,
            &[0],
            100,
            4,
            b"",
            b"demi: log fault",
        ),
        (
            "a look fails",
            &["log", "L"],
            THEIR_LOG,
            &[2],
            100,
            4,
            b"",
            b"demi: log fault",
        ),
        (
            "the look behind all entries fails",
            &["log", "L"],
            THEIR_LOG,
            &[4],
            100,
            4,
            b"",
            b"demi: log fault",
        ),
        (
            "no such log",
            &["log", "M"],
            THEIR_LOG,
            &[],
            100,
            8,
            b"",
            b"demi: cannot open",
        ),
        ("no name", &["log"], THEIR_LOG, &[], 100, 1, b"", USAGE),
        (
            "two names",
            &["log", "L", "L"],
            THEIR_LOG,
            &[],
            100,
            1,
            b"",
            USAGE,
        ),
        (
            "a longer word",
            &["logs", "L"],
            THEIR_LOG,
            &[],
            100,
            1,
            b"",
            USAGE,
        ),
    ];
    for (name, words, log, failing_looks, print_room, status, said, warned) in rows {
        let left = list_of(&rt, rt.alloc(), words, log, failing_looks, print_room)?;
        assert_eq!(rt; left.status, status, "{name}");
        assert_eq!(rt; left.said.as_slice(), said, "{name}");
        assert_eq!(rt; left.warned.as_slice(), warned, "{name}");
        assert_eq!(rt; left.log.as_slice(), log, "{name}");
        assert_eq!(rt; left.rest, 8, "{name}");
    }
    Ok(())
}

const USAGE: &[u8] = b"usage: demi pipe, serve, bench, check or log";

// So many puts, and the lines of the log that they leave.
fn many(alloc: Global, count: u32) -> Result<(Vec<u8>, Vec<u8>), Fail> {
    let mut input = Vec::new(alloc);
    let mut lines = Vec::new(alloc);
    for i in 0..count {
        input.extend_from_slice(b"\x01\x01\x00\x00\x00\x01a1")?;
        let number = i as u64 + 1;
        let line = format!(in alloc; "{number} link 0 index {i} key 61 value 1\n")?;
        lines.extend_from_slice(line.as_bytes())?;
    }
    let end = format!(in alloc; "records {count}\n")?;
    lines.extend_from_slice(end.as_bytes())?;
    Ok((input, lines))
}

#[test]
fn lines_are_said_in_pieces(rt: HostRuntime) -> Result<(), Fail> {
    let (input, lines) = many(rt.alloc(), 500)?;
    let put = run_of(&rt, rt.alloc(), &["pipe", "L"], &on_an_empty_log(&input))?;
    assert_eq!(rt; put.said.len(), 0);
    for (room, said, status) in [
        (100_000, lines.len(), 0),
        (17_000, 15190, 3),
        (9_000, 7594, 3),
        (7_000, 0, 3),
    ] {
        let left = list_of(&rt, rt.alloc(), &["log", "L"], &put.log, &[], room)?;
        assert_eq!(rt; left.status, status, "{room}");
        assert_eq!(rt; left.said.len(), said, "{room}");
        assert!(rt; lines.starts_with(&left.said), "{room}");
    }
    Ok(())
}
