// Words that are a command or none, and transcripts that are checked.
use super::in_memory::{PUTS_AND_GETS, Setup, on_an_empty_log, run_of};
use std::test::Fail;

// A session of two links with one old record. Link 0 puts a = 1, gets b and ends, and worker 0 answers. Link 1 puts b = 2
// and gets a, and worker 1 answers. The lines are the fields in their order, and each request, reply and record.
const SESSION: [u8; 257] = *b"DEMITRN1\
    \x00\x00\x00\x05\x00\x00\x00\x01\x00\x00\x00\x02\
    \x00\x00\x00\x00\x00\x00\x00/\
    DEMILOG1\
    \x00\x00\x00\x09\x00\x00\x00\x00\x00\x00\x01ax\
    \x00\x00\x00\x09\x00\x00\x00\x00\x00\x00\x01a1\
    \x00\x00\x00\x09\x00\x01\x00\x00\x00\x00\x01b2\
    \x00\x00\x00\x00\x00\x00\x00\x15\
    \x01\x01\x00\x00\x00\x01a1\
    \x02\x01\x00\x00\x00\x00b\
    \x03\x00\x00\x00\x00\x00\
    \x00\x00\x00\x00\x00\x00\x00D\
    \x81\x00\x00\x00\x00\x00\x00\x00\x00\x01\x00\x00\x00\x00\x00\x00\x00\x02\x00\x00\x00\x011\
    \x82\x00\x00\x00\x00\x00\x00\x00\x00\x02\x00\x00\x00\x00\x00\x00\x00\x03\x00\x00\x00\x012\
    \x85\x00\x00\x00\x00\x00\x00\x00\x00\x03\x00\x00\x00\x00\x00\x00\x00\x00\x00\x00\x00\x00\
    \x00\x00\x00\x00\x00\x00\x00\x0f\
    \x01\x01\x00\x00\x00\x01b2\
    \x02\x01\x00\x00\x00\x00a\
    \x00\x00\x00\x00\x00\x00\x00.\
    \x81\x01\x00\x00\x00\x00\x00\x00\x00\x01\x00\x00\x00\x00\x00\x00\x00\x03\x00\x00\x00\x012\
    \x82\x01\x00\x00\x00\x00\x00\x00\x00\x02\x00\x00\x00\x00\x00\x00\x00\x03\x00\x00\x00\x011";

const USAGE: &[u8] = b"usage: demi pipe, serve, bench, check or log";

const LATER: &[u8] = b"demi: serve and bench are not there yet";

#[test]
fn words_are_read(rt: HostRuntime) -> Result<(), Fail> {
    let rows: [(&[&str], u8, &[u8], usize); 15] = [
        (&["pipe", "L"], 0, b"", 34),
        (&["pipe", "--limit", "2", "L"], 0, b"", 34),
        // the second put is answered as to a full store
        (&["pipe", "--limit", "1", "L"], 0, b"", 21),
        (&["pipe", "L", "--limit=1"], 0, b"", 21),
        (&["pipe", "--limit", "0", "L"], 1, USAGE, 0),
        (&["pipe", "--limit", "1000001", "L"], 1, USAGE, 0),
        (&["pipe", "--limit", "1"], 1, USAGE, 0),
        (&["log", "--limit", "1", "L"], 1, USAGE, 0),
        (&["check"], 1, USAGE, 0),
        (&["check", "L", "M"], 1, USAGE, 0),
        (&["--help"], 1, USAGE, 0),
        (&["serve", "A", "L"], 1, USAGE, 0),
        (
            &["serve", "--links", "1", "--workers", "1", "A", "L"],
            1,
            LATER,
            0,
        ),
        (
            &["bench", "--links", "1", "--workers", "1", "--count", "1"],
            1,
            USAGE,
            0,
        ),
        (
            &[
                "bench",
                "--links",
                "1",
                "--workers",
                "1",
                "--count",
                "1",
                "--seed",
                "1",
            ],
            1,
            LATER,
            0,
        ),
    ];
    for (words, status, warned, log) in rows {
        let left = run_of(&rt, rt.alloc(), words, &on_an_empty_log(PUTS_AND_GETS))?;
        assert_eq!(rt; left.status, status, "{words:?}");
        assert_eq!(rt; left.warned.as_slice(), warned, "{words:?}");
        assert_eq!(rt; left.said.len(), 0, "{words:?}");
        assert_eq!(rt; left.log.len(), log, "{words:?}");
    }
    Ok(())
}

#[test]
fn a_transcript_is_checked(rt: HostRuntime) -> Result<(), Fail> {
    // A byte of the session that is written anew, the looks that fail, how many bytes may be printed; and what comes of it. A text for which
    // there is no room is not printed at all.
    let rows: [(usize, u8, &[u64], usize, u8, &[u8], &[u8]); 8] = [
        (
            0,
            b'D',
            &[],
            1000,
            0,
            b"consistent: links 2 replies 5 records 3\n",
            b"",
        ),
        (7, b'2', &[], 1000, 7, b"", b"demi: bad log at byte 0"),
        (15, 4, &[], 1000, 7, b"", b"demi: bad log at byte 12"),
        (19, 3, &[], 1000, 7, b"", b"demi: bad log at byte 257"),
        (
            196,
            9,
            &[],
            1000,
            9,
            b"",
            b"demi: link 1 reply 1 is inconsistent",
        ),
        (15, 0, &[], 1000, 9, b"", b"demi: record 1 is inconsistent"),
        (0, b'D', &[0], 1000, 4, b"", b"demi: log fault"),
        (0, b'D', &[], 10, 3, b"", b"demi: write fault on output"),
    ];
    for (at, byte, failing_looks, print_room, status, said, warned) in rows {
        let mut bytes = Vec::from_slice(rt.alloc(), &SESSION)?;
        if let Some(place) = bytes.get_mut(at) {
            *place = byte;
        }
        let kept = Setup {
            old_log: &bytes,
            failing_looks,
            print_room,
            ..on_an_empty_log(b"not read")
        };
        let left = run_of(&rt, rt.alloc(), &["check", "L"], &kept)?;
        assert_eq!(rt; left.status, status, "{at}");
        assert_eq!(rt; left.said.as_slice(), said, "{at}");
        assert_eq!(rt; left.warned.as_slice(), warned, "{at}");
        assert_eq!(rt; left.log.as_slice(), bytes.as_slice(), "{at}");
        assert_eq!(rt; left.rest, 8, "{at}");
    }
    let missing = run_of(&rt, rt.alloc(), &["check", "M"], &on_an_empty_log(b""))?;
    assert_eq!(rt; missing.status, 8);
    assert_eq!(rt; missing.warned.as_slice(), b"demi: cannot open".as_slice());
    Ok(())
}
