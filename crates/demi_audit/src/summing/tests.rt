use super::{Tally, count_requests, summary};
use crate::generate;
use std::test::Fail;

#[test]
fn a_bench_is_summed_up(rt: HostRuntime) -> Result<(), Fail> {
    let alloc = rt.alloc();
    let inputs = generate(alloc, 0, 1, 1)?;
    assert_eq!(rt; inputs.len(), 1);
    let line = summary(alloc, &inputs, b"DEMILOG1")?;
    assert_eq!(rt;
        line.as_str(),
        "links 1 requests 2 puts 0 gets 1 ends 1 records 0 log 8\n"
    );
    Ok(())
}

#[test]
fn requests_are_counted(rt: HostRuntime) -> Result<(), Fail> {
    // put a=1, get a, put b without a value, and a head that is cut off
    let tally = count_requests(
        rt.alloc(),
        b"\x01\x01\x00\x00\x00\x01a1\x02\x01\x00\x00\x00\x00a\x01\x01\x00\x00\x00\x00b\x03\x00",
    )?;
    assert_eq!(rt;
        tally,
        Tally {
            puts: 2,
            gets: 1,
            ends: 0,
        }
    );
    Ok(())
}
