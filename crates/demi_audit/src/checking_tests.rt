use crate::{CheckEnd, CheckRefusal, check};
use std::alloc::Global;
use std::test::Fail;

// A session of two links with one old record. Link 0 puts a = 1, gets b and ends, and worker 0 answers. Link 1 puts b = 2
// and gets a, and worker 1 answers. The lines are the fields in their order, and each request, reply and record.
const SESSION: [u8; 257] = *b"DEMITRN1\
    \x00\x00\x00\x05\x00\x00\x00\x01\x00\x00\x00\x02\
    \x00\x00\x00\x00\x00\x00\x00/\
    DEMILOG1\
    \x00\x00\x00\x09\x00\x00\x00\x00\x00\x00\x01ax\
    \x00\x00\x00\x09\x00\x00\x00\x00\x00\x00\x01a1\
    \x00\x00\x00\x09\x00\x01\x00\x00\x00\x00\x01b2\
    \x00\x00\x00\x00\x00\x00\x00\x15\
    \x01\x01\x00\x00\x00\x01a1\
    \x02\x01\x00\x00\x00\x00b\
    \x03\x00\x00\x00\x00\x00\
    \x00\x00\x00\x00\x00\x00\x00D\
    \x81\x00\x00\x00\x00\x00\x00\x00\x00\x01\x00\x00\x00\x00\x00\x00\x00\x02\x00\x00\x00\x011\
    \x82\x00\x00\x00\x00\x00\x00\x00\x00\x02\x00\x00\x00\x00\x00\x00\x00\x03\x00\x00\x00\x012\
    \x85\x00\x00\x00\x00\x00\x00\x00\x00\x03\x00\x00\x00\x00\x00\x00\x00\x00\x00\x00\x00\x00\
    \x00\x00\x00\x00\x00\x00\x00\x0f\
    \x01\x01\x00\x00\x00\x01b2\
    \x02\x01\x00\x00\x00\x00a\
    \x00\x00\x00\x00\x00\x00\x00.\
    \x81\x01\x00\x00\x00\x00\x00\x00\x00\x01\x00\x00\x00\x00\x00\x00\x00\x03\x00\x00\x00\x012\
    \x82\x01\x00\x00\x00\x00\x00\x00\x00\x02\x00\x00\x00\x00\x00\x00\x00\x03\x00\x00\x00\x011";

// Where the last bytes of fields stand, and where the replies of link 0 and of link 1 begin.
const LIMIT: usize = 11;

const OLD: usize = 15;

const LINKS: usize = 19;

const FIRST: [usize; 3] = [112, 135, 158];

const SECOND: [usize; 2] = [211, 234];

// The last byte of a field behind the first byte of its reply.
const WORKER: usize = 1;

const SEQUENCE: usize = 9;

const VERSION: usize = 17;

const BYTES: usize = 22;

// Two bytes of the session that are written anew, and what a check of it answers then.
#[derive(Clone, Copy)]
struct Change {
    first: (usize, u8),
    second: (usize, u8),
    answer: Result<CheckEnd, CheckRefusal>,
}

// No change.
const SAME: (usize, u8) = (0, b'D');

const WHOLE: Result<CheckEnd, CheckRefusal> = Ok(CheckEnd {
    links: 2,
    replies: 5,
    records: 3,
});

fn bad(first: (usize, u8), at: u64) -> Change {
    Change {
        first,
        second: SAME,
        answer: Err(CheckRefusal::BadTranscript(at)),
    }
}

fn wrong(first: (usize, u8), link: u32, index: u64) -> Change {
    Change {
        first,
        second: SAME,
        answer: Err(CheckRefusal::Reply { link, index }),
    }
}

fn changes(alloc: Global) -> Result<Vec<Change>, Fail> {
    Ok(vec![in alloc;
        Change { first: SAME, second: SAME, answer: WHOLE },
        // a bye names no version, so another worker's count goes on over it
        Change { first: (FIRST[2] + WORKER, 1), second: SAME, answer: WHOLE },
        bad((7, b'2'), 0),
        bad((LIMIT, 0), 8),
        bad((OLD, 4), 12),
        bad((LINKS, 3), 257),
        bad((LINKS, 1), 180),
        // a stored put has another link's record, or its own record says another link or value
        wrong((FIRST[0] + VERSION, 3), 0, 0),
        wrong((54, 1), 0, 0),
        wrong((61, b'9'), 0, 0),
        wrong((FIRST[0] + BYTES, b'9'), 0, 0),
        // it is old, or above the limit
        wrong((OLD, 2), 0, 0),
        wrong((LIMIT, 2), 1, 0),
        // a get names more records than there are, or a version with another value
        wrong((FIRST[1] + VERSION, 4), 0, 1),
        wrong((FIRST[1] + VERSION, 2), 0, 1),
        wrong((74, b'7'), 0, 1),
        // the version falls along the link
        wrong((SECOND[1] + VERSION, 2), 1, 1),
        // a number is 0, above the number of replies, or given twice
        wrong((FIRST[0] + SEQUENCE, 0), 0, 0),
        wrong((FIRST[1] + SEQUENCE, 4), 0, 1),
        wrong((FIRST[1] + SEQUENCE, 1), 0, 1),
        wrong((SECOND[1] + WORKER, 0), 1, 1),
        // a later link's reply with a lower number of the same worker has a greater version
        Change {
            first: (SECOND[0] + WORKER, 0),
            second: (SECOND[0] + SEQUENCE, 0),
            answer: Err(CheckRefusal::Reply { link: 0, index: 0 }),
        },
        // no reply stands there, and bytes follow; another frame is answered
        wrong((FIRST[2], 0x80), 0, 2),
        wrong((196, 9), 1, 1),
        // one record more is new
        Change { first: (OLD, 0), second: SAME, answer: Err(CheckRefusal::Entry { version: 1 }) },
    ]?)
}

fn changed(alloc: Global, change: Change) -> Result<Vec<u8>, Fail> {
    let mut bytes = Vec::from_slice(alloc, &SESSION)?;
    for (at, byte) in [change.first, change.second] {
        if let Some(place) = bytes.get_mut(at) {
            *place = byte;
        }
    }
    Ok(bytes)
}

#[test]
fn a_changed_field_is_found(rt: HostRuntime) -> Result<(), Fail> {
    for change in &changes(rt.alloc())? {
        let bytes = changed(rt.alloc(), *change)?;
        assert_eq!(rt; check(rt.alloc(), &bytes), change.answer);
    }
    Ok(())
}
