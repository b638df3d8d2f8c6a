//! A whole session in memory: one link, one worker, and all devices in threads.
ghost use Rattle.std.specs.Prelude.{◌≡◌, IfOk, length};

use crate::{Outcome, Plan, SessionEnd, session};
use demi_core::{MemDisk, MemSink, MemSource};
use std::alloc::Global;
use std::test::Fail;

const PLAN: Plan = Plan {
    workers: 1,
    limit: 5,
};

// A put, a get, a put to the same key, a get, and an end frame.
const REQUESTS: &[u8] =
    b"\x01\x01\x00\x00\x00\x01a1\x02\x01\x00\x00\x00\x00a\x01\x01\x00\x00\x00\x01a2\x02\x01\x00\x00\x00\x00a\x03\x00\x00\x00\x00\x00";

const REPLIES: &[u8] =
    b"\x81\x00\x00\x00\x00\x00\x00\x00\x00\x01\x00\x00\x00\x00\x00\x00\x00\x01\x00\x00\x00\x011\x82\x00\x00\x00\x00\x00\x00\x00\x00\x02\x00\x00\x00\x00\x00\x00\x00\x01\x00\x00\x00\x011\x81\x00\x00\x00\x00\x00\x00\x00\x00\x03\x00\x00\x00\x00\x00\x00\x00\x02\x00\x00\x00\x012\x82\x00\x00\x00\x00\x00\x00\x00\x00\x04\x00\x00\x00\x00\x00\x00\x00\x02\x00\x00\x00\x012\x85\x00\x00\x00\x00\x00\x00\x00\x00\x05\x00\x00\x00\x00\x00\x00\x00\x00\x00\x00\x00\x00";

const LOG: &[u8] =
    b"DEMILOG1\x00\x00\x00\x09\x00\x00\x00\x00\x00\x00\x01a1\x00\x00\x00\x09\x00\x00\x00\x00\x00\x02\x01a2";

// A link whose source gives five bytes at a time, and whose sink takes seven.
fn links(
    alloc: Global,
    failing_reads: &[u64],
    failing_writes: &[u64],
) -> Result<Vec<(MemSource, MemSink)>, Fail>
    ensures { IfOk result (λ l. length l.items ≡ 1) }
{
    let source = MemSource::make(REQUESTS.to_vec(alloc)?, 5, failing_reads.to_vec(alloc)?);
    let sink = MemSink::make(alloc, 200, 7, failing_writes.to_vec(alloc)?)?;
    let mut links = Vec::new(alloc);
    links.push((source, sink))?;
    Ok(links)
}

#[test]
fn a_session_serves_its_link(rt: HostRuntime) -> Result<(), Fail> {
    let alloc = rt.alloc();
    let links = links(alloc, &[], &[])?;
    let disk = MemDisk::make(alloc, b"", 200, Vec::new(alloc))?;
    let SessionEnd {
        mut links,
        log,
        outcome,
        ends,
    } = session(&rt, alloc, PLAN, links, disk);
    assert_eq!(rt; outcome, Outcome::Served);
    assert_eq!(rt; log.bytes(), LOG);
    let Some((source, sink)) = links.pop() else {
        panic!(rt; "the link comes back");
    };
    assert_eq!(rt; source.bytes().len(), 0);
    assert_eq!(rt; sink.bytes(), REPLIES);
    let Some(ends) = ends else {
        panic!(rt; "the ports were closed");
    };
    assert_eq!(rt; ends.heap.free, 74);
    Ok(())
}

// Each of the three that fail, and what is answered then.
#[test]
fn a_session_ends_by_its_first_fault(rt: HostRuntime) -> Result<(), Fail> {
    let rows: [(&[u64], &[u64], &[u64], Outcome, usize, usize); 3] = [
        (&[3], &[], &[], Outcome::ReadFault(0), 46, 21),
        (&[], &[1], &[], Outcome::WriteFault(0), 7, 21),
        (&[], &[], &[2], Outcome::LogFault, 46, 21),
    ];
    for (reads, writes, appends, expected, written, held) in rows {
        let alloc = rt.alloc();
        let links = links(alloc, reads, writes)?;
        let disk = MemDisk::make(alloc, b"", 200, appends.to_vec(alloc)?)?;
        let SessionEnd {
            mut links,
            log,
            outcome,
            ends: _,
        } = session(&rt, alloc, PLAN, links, disk);
        assert_eq!(rt; outcome, expected);
        assert_eq!(rt; log.bytes().len(), held);
        let Some((_source, sink)) = links.pop() else {
            panic!(rt; "the link comes back");
        };
        assert_eq!(rt; sink.bytes().len(), written);
    }
    Ok(())
}
