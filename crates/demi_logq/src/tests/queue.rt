// A log's queue at a port's device, for one thread.
mod bench;

use bench::{
    Ask, Got, byte, device_on, disk_that_fails, eight, end, engine_on, four, free_at_end, hold,
    port_on, two_passes,
};
use demi_heap::Counts;
use demi_sga::free_app;
use std::test::Fail;

const FOUR_SMALL: Counts = Counts {
    small: 4,
    page: 0,
    large: 0,
};

#[test]
fn a_log_is_written_read_and_cut(rt: HostRuntime) -> Result<(), Fail> {
    let disk = disk_that_fails(&rt, rt.alloc(), 200, None, None);
    let asks = [
        [Ask::Push(0x78), Ask::Pop, Ask::Pop, Ask::Seek(2)],
        [Ask::Seek(0), Ask::Truncate(0), Ask::Pop, Ask::Stop],
    ];
    let got = eight(&rt, rt.alloc(), FOUR_SMALL, disk, asks);
    let expected = [
        [Got::Appended(0), byte(0x78), Got::AtEnd, Got::BadIndex],
        [Got::Sought, Got::Cut, Got::AtEnd, Got::Halted],
    ];
    assert_eq!(rt; got, expected);
    Ok(())
}

#[test]
fn a_disk_fails_and_the_queue_is_broken(rt: HostRuntime) -> Result<(), Fail> {
    // Which call of the disk fails, writes and reads counted apart, at which place that is told, and what the first four come to.
    // The header is the first write.
    let asks = [
        [Ask::Push(0x61), Ask::Pop, Ask::Truncate(0), Ask::Seek(0)],
        [Ask::Push(0x62), Ask::Pop, Ask::Truncate(0), Ask::Stop],
    ];
    let rows = [
        (
            Some(1),
            None,
            0,
            [Got::Fault, Got::Broken(0), Got::Broken(0), Got::Broken(0)],
        ),
        (
            None,
            Some(1),
            1,
            [Got::Appended(0), Got::Fault, Got::Broken(1), Got::Broken(1)],
        ),
        (
            Some(2),
            None,
            2,
            [Got::Appended(0), byte(0x61), Got::Fault, Got::Broken(2)],
        ),
    ];
    for (write, read, at, expected) in rows {
        let disk = disk_that_fails(&rt, rt.alloc(), 200, write, read);
        let [first, second] = eight(&rt, rt.alloc(), FOUR_SMALL, disk, asks);
        assert!(rt; first == expected, "the fault at {at}");
        let broken = [
            Got::Broken(at),
            Got::Broken(at),
            Got::Broken(at),
            Got::Halted,
        ];
        assert!(rt; second == broken, "after the fault at {at}");
    }
    Ok(())
}

#[test]
fn an_item_waits_for_a_slot(rt: HostRuntime) -> Result<(), Fail> {
    let one = Counts {
        small: 1,
        page: 1,
        large: 1,
    };
    let (heap, mine, mut app) = two_passes(&rt, rt.alloc(), one);
    let disk = disk_that_fails(&rt, rt.alloc(), 200, None, None);
    let engine = engine_on(&rt, rt.alloc(), &heap, mine, disk);
    let (port, mut pass, seat) = port_on(&rt, rt.alloc(), &engine);
    let mut device = device_on(&rt, rt.alloc(), engine, seat);
    let asks = [Ask::Push(0x78), Ask::Pop, Ask::Seek(0), Ask::Seek(0)];
    let first = four(&rt, &heap, &mut app, &port, &mut pass, &mut device, asks);
    let held = hold(&rt, &heap, &mut app);
    let asks = [Ask::Pop, Ask::Pop, Ask::Seek(2), Ask::Pop];
    let second = four(&rt, &heap, &mut app, &port, &mut pass, &mut device, asks);
    free_app(&heap, &mut app, held);
    let asks = [Ask::Pop, Ask::Pop, Ask::Stop, Ask::Pop];
    let third = four(&rt, &heap, &mut app, &port, &mut pass, &mut device, asks);
    let mine = end(&rt, rt.alloc(), &heap, port, device, pass);
    let free = free_at_end(&rt, rt.alloc(), heap, mine, app);
    let expected = [Got::Appended(0), byte(0x78), Got::Sought, Got::Sought];
    assert_eq!(rt; first, expected);
    let expected = [Got::NoSlot, Got::NoSlot, Got::BadIndex, Got::NoSlot];
    assert_eq!(rt; second, expected);
    let expected = [byte(0x78), Got::AtEnd, Got::Halted, Got::Stopped(10)];
    assert_eq!(rt; third, expected);
    assert_eq!(rt; free, 3);
    Ok(())
}

#[test]
fn an_item_has_two_segments(rt: HostRuntime) -> Result<(), Fail> {
    let slots = Counts {
        small: 1,
        page: 1,
        large: 2,
    };
    let disk = disk_that_fails(&rt, rt.alloc(), 200_000, None, None);
    let asks = [
        [
            Ask::PushLong(1, 0x61),
            Ask::Pop,
            Ask::PushLong(262, 0x62),
            Ask::Pop,
        ],
        [Ask::PushLong(263, 0x63), Ask::Pop, Ask::Seek(2), Ask::Stop],
    ];
    let got = eight(&rt, rt.alloc(), slots, disk, asks);
    let least = Got::Item {
        segments: 2,
        bytes: 65_537,
        last: 0x61,
    };
    let most = Got::Item {
        segments: 2,
        bytes: 65_798,
        last: 0x62,
    };
    let expected = [
        [Got::Appended(0), least, Got::Appended(1), most],
        [Got::BadSize, Got::AtEnd, Got::Sought, Got::Halted],
    ];
    assert_eq!(rt; got, expected);
    Ok(())
}
