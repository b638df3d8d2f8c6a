// Puts from bytes to bytes, and runs that take no link.
use super::in_memory::{PUTS_AND_GETS, Setup, on_an_empty_log, run_of};
use std::alloc::Global;
use std::test::Fail;

// These bytes, and one byte many times after them.
fn filled(alloc: Global, front: &[u8], byte: u8, count: usize) -> Result<Vec<u8>, Fail> {
    let mut all = front.to_vec(alloc)?;
    for _ in 0..count {
        all.push(byte)?;
    }
    Ok(all)
}

#[test]
fn puts_from_bytes_to_bytes(rt: HostRuntime) -> Result<(), Fail> {
    let largest = filled(rt.alloc(), b"\x01\xff\x00\x01\x00\x00", b'x', 65_791)?;
    let its_reply = filled(
        rt.alloc(),
        b"\x81\x00\x00\x00\x00\x00\x00\x00\x00\x01\x00\x00\x00\x00\x00\x00\x00\x01\x00\x01\x00\x00",
        b'x',
        65_536,
    )?;
    let its_log = filled(
        rt.alloc(),
        b"DEMILOG1\x00\x01\x01\x06\x00\x00\x00\x00\x00\x00\xff",
        b'x',
        65_791,
    )?;
    let long = filled(rt.alloc(), b"\x01\x09\x00\x00\x07\xd0user:1001", b'v', 2000)?;
    let long_reply = filled(
        rt.alloc(),
        b"\x81\x00\x00\x00\x00\x00\x00\x00\x00\x01\x00\x00\x00\x00\x00\x00\x00\x01\x00\x00\x07\xd0",
        b'v',
        2000,
    )?;
    let long_log = filled(
        rt.alloc(),
        b"DEMILOG1\x00\x00\x07\xe0\x00\x00\x00\x00\x00\x00\x09user:1001",
        b'v',
        2000,
    )?;
    let ended = filled(rt.alloc(), b"\x03\x00\x00\x00\x00\x00", b'x', 2000)?;
    let refused = filled(rt.alloc(), b"\x09\x00\x00\x01\x00\x01", b'x', 2000)?;
    let rows: [(&str, &[&str], &[u8], u8, &[u8], &[u8], &[u8], usize); 8] = [
        (
            "a put",
            &["pipe", "L"],
            b"\x01\x01\x00\x00\x00\x01a1",
            0,
            b"\x81\x00\x00\x00\x00\x00\x00\x00\x00\x01\x00\x00\x00\x00\x00\x00\x00\x01\x00\x00\x00\x011",
            b"DEMILOG1\x00\x00\x00\x09\x00\x00\x00\x00\x00\x00\x01a1",
            b"",
            0,
        ),
        ("nothing", &["pipe", "L"], b"", 0, b"", b"DEMILOG1", b"", 0),
        (
            "the largest put",
            &["pipe", "L"],
            &largest,
            0,
            &its_reply,
            &its_log,
            b"",
            0,
        ),
        (
            "no log is named",
            &["pipe"],
            b"\x01\x01\x00\x00\x00\x01a1",
            1,
            b"",
            b"",
            b"usage: demi pipe, serve, bench, check or log",
            8,
        ),
        (
            "no such log",
            &["pipe", "M"],
            b"\x01\x01\x00\x00\x00\x01a1",
            8,
            b"",
            b"",
            b"demi: cannot open",
            8,
        ),
        (
            "a put that comes in three pieces",
            &["pipe", "L"],
            &long,
            0,
            &long_reply,
            &long_log,
            b"",
            0,
        ),
        (
            "an end frame and more behind it",
            &["pipe", "L"],
            &ended,
            0,
            b"\x85\x00\x00\x00\x00\x00\x00\x00\x00\x01\x00\x00\x00\x00\x00\x00\x00\x00\x00\x00\x00\x00",
            b"DEMILOG1",
            b"",
            1006,
        ),
        (
            "a refused frame and more behind it",
            &["pipe", "L"],
            &refused,
            6,
            b"\x84\x00\x00\x00\x00\x00\x00\x00\x00\x01\x00\x00\x00\x00\x00\x00\x00\x00\x00\x00\x00\x01\x01",
            b"DEMILOG1",
            b"demi: link 0 refused with code 1",
            1006,
        ),
    ];
    for (name, words, input, status, output, log, warned, rest) in rows {
        let thousands = Setup {
            piece: 1000,
            ..on_an_empty_log(input)
        };
        let left = run_of(&rt, rt.alloc(), words, &thousands)?;
        assert_eq!(rt; left.status, status, "{name}");
        assert_eq!(rt; left.output.as_slice(), output, "{name}");
        assert_eq!(rt; left.log.as_slice(), log, "{name}");
        assert_eq!(rt; left.warned.as_slice(), warned, "{name}");
        assert_eq!(rt; left.rest, rest, "{name}");
    }
    Ok(())
}

#[test]
fn other_words_are_no_command(rt: HostRuntime) -> Result<(), Fail> {
    let lists: [&[&str]; 5] = [
        &[],
        &["pipe"],
        &["pipe", "L", "M"],
        &["serve", "L"],
        &["PIPE", "L"],
    ];
    for words in lists {
        let left = run_of(&rt, rt.alloc(), words, &on_an_empty_log(PUTS_AND_GETS))?;
        assert_eq!(rt; left.status, 1);
        assert_eq!(rt;
            left.warned.as_slice(),
            b"usage: demi pipe, serve, bench, check or log".as_slice()
        );
        assert_eq!(rt; left.rest, 36);
        assert_eq!(rt; left.log.len(), 0);
    }
    Ok(())
}

#[test]
fn a_log_that_cannot_be_had_takes_no_link(rt: HostRuntime) -> Result<(), Fail> {
    let left = run_of(
        &rt,
        rt.alloc(),
        &["pipe", "M"],
        &on_an_empty_log(PUTS_AND_GETS),
    )?;
    assert_eq!(rt; left.status, 8);
    assert_eq!(rt; left.warned.as_slice(), b"demi: cannot open".as_slice());
    assert_eq!(rt; left.rest, 36);
    Ok(())
}
